// What is known of each name of file scope by its declarations.
ghost use Rattle.std.specs.Prelude.{◌≡◌, map, OnOk, IfOk};
ghost use Rattle.p9_lang.specs.declared.module.Module.{Module};
ghost use Rattle.p9_lang.specs.Types.{type_of};
ghost use Rattle.p9_lang.specs.Scopes.{system_names};
ghost use Rattle.p9_lang.specs.Symbols as definitions;
ghost use Rattle.p9_numbering.specs.Told.{told_form};
ghost use Rattle.p9_outline.specs.Summaries as specs;
ghost use Rattle.p9_outline.specs.Told.{told_known, told_entries};

use indexmap::IndexMap;
use p9_base::NoMemory;
use p9_lang::CType;
use p9_numbering::Form;
use std::alloc::Global;

/// The type that a name's first declaration gives it, and what its declarations make of it.
#[derive(Clone, Copy)]
pub(crate) struct Known<'a> {
    pub(crate) first: Option<&'a CType>,
    pub(crate) form: Form<'a>,
}

/// The names of file scope, the system calls first, then by first declaration.
#[derive(Drop)]
pub(crate) struct Names<'a> {
    pub(crate) map: IndexMap<&'a [u8], Known<'a>>,
}

fn or_common<'a>(form: Form<'a>) -> Form<'a>
    ensures { (m : Module) → told_form m result ≡ definitions.or_common (told_form m form.entry) }
{
    match form {
        Form::DeclaredOnly | Form::Used | Form::Common => Form::Common,
        Form::Code(_) | Form::Initial { .. } | Form::Text { .. } => form,
    }
}

// What a name is with declarations that stand behind.
fn joined<'a>(old: Form<'a>, new: Form<'a>) -> Form<'a>
    ensures { (m : Module) → told_form m result ≡ specs.joined (told_form m old.entry) (told_form m new.entry) }
{
    match old {
        Form::DeclaredOnly | Form::Used => new,
        Form::Code(_) | Form::Initial { .. } | Form::Text { .. } => old,
        Form::Common => or_common(new),
    }
}

fn with_one<'a>(old: Known<'a>, ty: &'a CType, form: Form<'a>) -> Known<'a>
    ensures { (m : Module) → told_known m result
        ≡ specs.with_one (told_known m old.entry) (type_of ty.now) (told_form m form.entry) }
{
    let first = match old.first {
        Some(first) => first,
        None => ty,
    };
    Known {
        first: Some(first),
        form: joined(old.form, form),
    }
}

fn unknown<'a>() -> Known<'a>
    ensures { (m : Module) → told_known m result ≡ specs.unknown }
{
    Known {
        first: None,
        form: Form::DeclaredOnly,
    }
}

impl<'a> Names<'a> {
    /// The system calls alone.
    pub(crate) fn new(alloc: Global) -> Result<Names<'a>, NoMemory>
        ensures { IfOk result (λ n. (m : Module) → told_entries m n.map.entries
            ≡ map (λ x. (x, specs.unknown)) system_names) }
    {
        let mut map = IndexMap::new(alloc);
        map.insert(b"exits".as_slice(), unknown())?;
        map.insert(b"read".as_slice(), unknown())?;
        map.insert(b"write".as_slice(), unknown())?;
        Ok(Names { map })
    }

    #[tactic(auto, using(crate::proofs::Telling::told_in, crate::proofs::Telling::told_not_in))]
    fn known(&self, name: &[u8]) -> Known<'a>
        ensures { (m : Module) → told_known m result
            ≡ specs.summary_in name.now (told_entries m self.now.map.entries) }
    {
        match self.map.get(name) {
            Some(known) => *known,
            None => unknown(),
        }
    }

    /// Adds one declaration.
    pub(crate) fn declare(
        &mut self,
        name: &'a [u8],
        ty: &'a CType,
        form: Form<'a>,
    ) -> Result<(), NoMemory>
        ensures { OnOk result ((m : Module) → told_entries m self.new.map.entries
            ≡ specs.declare_one (told_entries m self.old.map.entries) name.now (type_of ty.now) (told_form m form.entry)) }
    {
        let known = with_one(self.known(name), ty, form);
        self.map.insert(name, known)?;
        Ok(())
    }
}
