// The rules that a value breaks which stands where one of another type is asked.
ghost use Rattle.std.specs.Prelude.{◌≡◌, [], IfOk, slice_get};
ghost use Rattle.p9_lang.specs.Types.{type_of, tags_of};
ghost use Rattle.p9_lang.specs.TagRules.{NoneContainsItself};
ghost use Rattle.p9_lang.specs.Expressions.{value_type, is_null, target_name, name_of_tag, conversion_rules};
ghost use Rattle.p9_operand.specs.Least.{least};
ghost use Rattle.p9_operand.specs.Told.{told_least, told_operand};

use crate::constants::is_null_constant;
use crate::operand::Operand;
use crate::rule::Rule;
use crate::values::value_type;
use p9_base::NoMemory;
use p9_lang::{CType, Ident, Tags};
use p9_types::{Conv, convert, number_of, tag_at, target_of};
use std::alloc::Global;

fn nameless(alloc: Global) -> Ident
    ensures { result ≡ [] }
{
    Ident {
        list: Vec::new(alloc),
    }
}

// The name of the tag with this number.
fn tag_name(alloc: Global, number: u32, tags: &Tags) -> Result<Ident, NoMemory>
    ensures { IfOk result (λ name. name ≡ name_of_tag (slice_get (tags_of tags.now.list) number)) }
{
    match tag_at(tags.list.as_slice(), number) {
        Some(tag) => Ok(tag.name.copied(alloc)?),
        None => Ok(nameless(alloc)),
    }
}

// The tag of the structure that a pointer points to.
fn target_name(alloc: Global, ty: &CType, tags: &Tags) -> Result<Ident, NoMemory>
    ensures { IfOk result (λ name. name ≡ target_name (tags_of tags.now.list) (type_of ty.now)) }
{
    match target_of(ty) {
        Some(target) => match number_of(target) {
            Some(number) => tag_name(alloc, number, tags),
            None => Ok(nameless(alloc)),
        },
        None => Ok(nameless(alloc)),
    }
}

/// The rule that a value of one type breaks where one of another is asked; `zero` says that it is the
/// null constant.
pub fn conversion_rules(
    alloc: Global,
    from: &CType,
    to: &CType,
    tags: &Tags,
    zero: bool,
) -> Result<Option<Rule>, NoMemory>
    requires { NoneContainsItself (tags_of tags.now.list) }
    ensures { IfOk result (λ rule. told_least rule
        ≡ least (conversion_rules (tags_of tags.now.list) (type_of from.now) (type_of to.now) zero)) }
{
    match convert(alloc, from, to, tags, zero)? {
        Conv::Same | Conv::Integer | Conv::Null | Conv::Inner(_) => Ok(None),
        Conv::Ambiguous => Ok(Some(Rule::Ambiguous(target_name(alloc, to, tags)?))),
        Conv::No => Ok(Some(Rule::BadAssign)),
    }
}

/// The rule that an operand's value breaks where one of a type is asked.
pub fn value_rules(
    alloc: Global,
    value: &Operand,
    to: &CType,
    tags: &Tags,
) -> Result<Option<Rule>, NoMemory>
    requires { NoneContainsItself (tags_of tags.now.list) }
    ensures { IfOk result (λ rule. told_least rule
        ≡ least (conversion_rules (tags_of tags.now.list) (value_type (told_operand value.now))
        (type_of to.now) (is_null (told_operand value.now)))) }
{
    let from = value_type(alloc, &value.ty)?;
    let rule = conversion_rules(
        alloc,
        from.get(),
        to,
        tags,
        is_null_constant(value.constant),
    )?;
    Ok(rule)
}
