// The parts of a node so far, in their order.
ghost use Rattle.std.specs.Prelude.{◌≡◌, ◌++◌, ◌∷◌, [], length, IfOk, OnOk};
ghost use Rattle.std.specs.List.{list_any};
ghost use Rattle.std.specs.Option.{option_map, option_copied};
ghost use Rattle.p9_lang.specs.Names.{is_among};
ghost use Rattle.p9_lang.specs.Parts as specs;
ghost use Rattle.p9_lang.specs.Declaring.{is_case, is_default};
ghost use Rattle.p9_operand.specs.Told.{told_constant};
ghost use Rattle.p9_declare.specs.Told.{steps_of};
ghost use Rattle.p9_parts.specs.Told.{part_of, parts_of};

use crate::part::Part;
use crate::summary::Summary;
use p9_base::NoMemory;
use p9_declare::Step;
use p9_lang::Ident;
use p9_operand::Constant;
use p9_scopes::Names;
use std::alloc::Global;
use std::marker::Model;
use std::mem;

/// The parts of a node so far, which contracts see as their list.
#[derive(Drop)]
pub struct Parts {
    list: Vec<Part>,
    summary: Summary,
}

impl Model for Parts {
    ghost use Rattle.std.specs.Prelude.{List};
    ghost use Rattle.p9_parts.specs.declared.part.Part.{Part};
    ghost use Rattle.p9_lang.specs.contracts.types.CType as ctype;
    ghost use Rattle.std.specs.Coded.{codes};

    ghost Value = { List Part };

    ghost coded = { Prim.hlevel (codes, ctype.the_row.coded) };

    ghost use Rattle.p9_parts.specs.Told.{parts_of};
    ghost use Rattle.p9_parts.specs.Summed.{IsSummary};

    ghost view = { λ p. p.list.items };

    ghost invariant = { λ p. IsSummary p.summary (parts_of p.list.items) };
}

impl Parts {
    pub fn new(alloc: Global) -> Result<Parts, NoMemory>
        ensures { IfOk result (λ parts. parts ≡ []) }
    {
        Ok(Parts::empty(alloc))
    }

    fn empty(alloc: Global) -> Parts
        ensures { result ≡ [] }
    {
        Parts {
            list: Vec::new(alloc),
            summary: Summary::new(alloc),
        }
    }

    // One part more.
    fn with(self, alloc: Global, part: Part) -> Result<Parts, NoMemory>
        ensures { IfOk result (λ parts. parts ≡ self ++ part ∷ []) }
    {
        let Parts { mut list, summary } = self;
        let summary = summary.with(alloc, list.len(), &part)?;
        list.push(part)?;
        Ok(Parts { list, summary })
    }

    /// One part more. Where memory is wanting, none are left.
    pub fn push(&mut self, alloc: Global, part: Part) -> Result<(), NoMemory>
        ensures { OnOk result (self.new ≡ self.old ++ part ∷ []) }
    {
        let before = mem::replace(self, Parts::empty(alloc));
        *self = before.with(alloc, part)?;
        Ok(())
    }

    pub fn len(&self) -> usize
        ensures { result ≡ length self.now }
    {
        self.list.len()
    }

    pub fn as_slice(&self) -> &[Part]
        ensures { result.now ≡ self.now }
    {
        self.list.as_slice()
    }

    pub fn into_list(self) -> Vec<Part>
        ensures { result.items ≡ self }
    {
        let Parts { list, summary: _ } = self;
        list
    }

    /// The last part that is an object.
    pub fn last_object(&self) -> Option<&Part>
        ensures { option_map part_of (option_copied result) ≡ specs.last_object (parts_of self.now) }
    {
        match self.summary.object {
            Some(at) => self.list.get(at),
            None => None,
        }
    }

    /// The names of the members in braces so far.
    pub fn member_names(&self) -> &Names
        ensures { result.now ≡ specs.member_names (parts_of self.now) }
    {
        &self.summary.names.members
    }

    /// Whether an object so far has this name.
    pub fn has_object(&self, alloc: Global, name: &Ident) -> Result<bool, NoMemory>
        ensures { IfOk result (λ has. has ≡ is_among (specs.object_names (parts_of self.now)) name.now) }
    {
        self.summary.names.objects.has(alloc, name)
    }

    pub fn parameter_count(&self) -> u32
        ensures { result ≡ length (specs.parameter_types (parts_of self.now)) }
    {
        self.summary.counts.parameters
    }

    /// The value of an enumeration constant without one.
    pub fn next_value(&self) -> u32
        ensures { result ≡ specs.next_value 0 (parts_of self.now) }
    {
        self.summary.counts.value
    }

    /// The position behind the last entry.
    pub fn next_position(&self) -> u32
        ensures { result ≡ specs.next_position 0 (parts_of self.now) }
    {
        self.summary.counts.position
    }

    /// How many positions the entries go to.
    pub fn positions(&self) -> u32
        ensures { result ≡ specs.positions 0 (parts_of self.now) }
    {
        self.summary.counts.positions
    }

    /// Whether there is a case label of this value.
    pub fn has_case(&self, word: u32) -> bool
        ensures { result ≡ list_any (is_case word) (parts_of self.now) }
    {
        self.summary.labels.has_case(word)
    }

    pub fn has_default(&self) -> bool
        ensures { result ≡ list_any is_default (parts_of self.now) }
    {
        self.summary.labels.has_default
    }
}

/// The constant that the first part is.
pub fn first_constant(parts: &[Part]) -> Constant
    ensures { told_constant result ≡ specs.first_constant (parts_of parts.now) }
{
    match parts.first() {
        Some(Part::Value(operand)) => operand.constant,
        Some(
            Part::Declarator(_)
            | Part::Object { .. }
            | Part::Members(_)
            | Part::Enumerator { .. }
            | Part::Parameter(_)
            | Part::NamedType(_)
            | Part::Braced(_)
            | Part::Filled(_)
            | Part::CaseLabel(_)
            | Part::DefaultLabel
            | Part::Statement,
        )
        | None => Constant::NotConstant,
    }
}

/// The steps within a declarator, where it has some.
pub fn inner_steps(parts: &[Part]) -> &[Step]
    ensures { steps_of result.now ≡ specs.inner_steps (parts_of parts.now) }
{
    match parts.first() {
        Some(Part::Declarator(steps)) => steps.as_slice(),
        Some(
            Part::Value(_)
            | Part::Object { .. }
            | Part::Members(_)
            | Part::Enumerator { .. }
            | Part::Parameter(_)
            | Part::NamedType(_)
            | Part::Braced(_)
            | Part::Filled(_)
            | Part::CaseLabel(_)
            | Part::DefaultLabel
            | Part::Statement,
        )
        | None => &[],
    }
}
