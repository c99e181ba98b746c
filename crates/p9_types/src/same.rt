// When two types are equal.
ghost use Rattle.std.specs.Prelude.{◌≡◌, ◌↔◌, IsTrue, IfOk};
ghost use Rattle.p9_lang.specs.Types.{type_of, types_of, type_row};
ghost use Rattle.p9_lang.specs.Conversions.{same_type, is_pointer, is_array, is_function, is_structure};
ghost use Rattle.p9_types.specs.Heads.{head_of};
ghost use Rattle.p9_types.specs.Pairs.{left_of, right_of, PutsParts, PutsRows};

use crate::elements::array_elements;
use crate::head::{head, number_of, signature_of, target_of};
use p9_base::NoMemory;
use p9_lang::CType;
use std::alloc::Global;

/// Two types that are to be compared.
#[derive(Clone, Copy)]
pub(crate) struct Pair<'a> {
    left: &'a CType,
    right: &'a CType,
}

// Puts aside the parameters of two functions, and tells whether they are as many.
fn put_parameters<'a>(
    pairs: &mut Vec<Pair<'a>>,
    left: &'a [CType],
    right: &'a [CType],
) -> Result<bool, NoMemory>
    ensures { IfOk result (λ alike. PutsRows pairs.old.items
        (type_row (types_of left.now)) (type_row (types_of right.now)) alike pairs.new.items) }
{
    let mut lefts = left;
    let mut rights = right;
    'parameters: while let [left, others @ ..] = lefts {
        let [right, after @ ..] = rights else {
            return Ok(false);
        };
        pairs.push(Pair { left, right })?;
        lefts = others;
        rights = after;
    }
    Ok(rights.is_empty())
}

fn put_targets<'a>(pairs: &mut Vec<Pair<'a>>, pair: Pair<'a>) -> Result<bool, NoMemory>
    requires { IsTrue (is_pointer (left_of pair)) }
    ensures { IfOk result (λ alike.
        PutsParts pairs.old.items (left_of pair.entry) (right_of pair.entry) alike pairs.new.items) }
{
    if let Some(left) = target_of(pair.left) {
        if let Some(right) = target_of(pair.right) {
            pairs.push(Pair { left, right })?;
            return Ok(true);
        }
    }
    Ok(false)
}

fn put_elements<'a>(pairs: &mut Vec<Pair<'a>>, pair: Pair<'a>) -> Result<bool, NoMemory>
    requires { IsTrue (is_array (left_of pair)) }
    ensures { IfOk result (λ alike.
        PutsParts pairs.old.items (left_of pair.entry) (right_of pair.entry) alike pairs.new.items) }
{
    if let Some(left) = array_elements(pair.left) {
        if let Some(right) = array_elements(pair.right) {
            pairs.push(Pair {
                left: left.ty,
                right: right.ty,
            })?;
            return Ok(left.count == right.count);
        }
    }
    Ok(false)
}

fn put_signatures<'a>(pairs: &mut Vec<Pair<'a>>, pair: Pair<'a>) -> Result<bool, NoMemory>
    requires { IsTrue (is_function (left_of pair)) }
    ensures { IfOk result (λ alike.
        PutsParts pairs.old.items (left_of pair.entry) (right_of pair.entry) alike pairs.new.items) }
{
    if let Some((left, parameters)) = signature_of(pair.left) {
        if let Some((right, others)) = signature_of(pair.right) {
            pairs.push(Pair { left, right })?;
            let alike = put_parameters(pairs, parameters, others)?;
            return Ok(alike);
        }
    }
    Ok(false)
}

fn same_number(pair: Pair) -> bool
    requires { IsTrue (is_structure (left_of pair)) }
    ensures { result ≡ same_type (left_of pair.entry) (right_of pair.entry) }
{
    match (number_of(pair.left), number_of(pair.right)) {
        (Some(left), Some(right)) => left == right,
        (Some(_) | None, None) | (None, Some(_)) => false,
    }
}

fn same_head(pair: Pair) -> bool
    ensures { IsTrue result ↔ (head_of (left_of pair.entry) ≡ head_of (right_of pair.entry)) }
{
    head(pair.left) == head(pair.right)
}

// Puts aside the parts of two types, and tells whether the types are alike but for these.
#[tactic(auto, using(crate::proofs::Shapes::shapes))]
fn put_parts<'a>(pairs: &mut Vec<Pair<'a>>, pair: Pair<'a>) -> Result<bool, NoMemory>
    ensures { IfOk result (λ alike.
        PutsParts pairs.old.items (left_of pair.entry) (right_of pair.entry) alike pairs.new.items) }
{
    match pair.left {
        CType::Pointer(_) => put_targets(pairs, pair),
        CType::Array(..) => put_elements(pairs, pair),
        CType::Function(..) => put_signatures(pairs, pair),
        CType::Tagged(_) => Ok(same_number(pair)),
        CType::Void
        | CType::Char
        | CType::UChar
        | CType::Short
        | CType::UShort
        | CType::Int
        | CType::UInt
        | CType::Long
        | CType::ULong => Ok(same_head(pair)),
    }
}

/// Whether two types are equal: built alike over the same structures and unions.
pub fn same_type(alloc: Global, left: &CType, right: &CType) -> Result<bool, NoMemory>
    ensures { IfOk result (λ same. same ≡ same_type (type_of left.now) (type_of right.now)) }
{
    let mut pairs = Vec::new(alloc);
    pairs.push(Pair { left, right })?;
    'pairs: while let Some(pair) = pairs.pop() {
        if !put_parts(&mut pairs, pair)? {
            return Ok(false);
        }
    }
    Ok(true)
}
