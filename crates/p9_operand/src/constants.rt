// What expressions are as constants.
ghost use Rattle.std.specs.Prelude.{◌≡◌, ◌==◌, not, if◌then◌else◌, IfOk};
ghost use Rattle.p9_lang.specs.Types.{type_of, tags_of, meant};
ghost use Rattle.p9_lang.specs.TagRules.{NoneContainsItself};
ghost use Rattle.p9_lang.specs.Constants as constants;
ghost use Rattle.p9_lang.specs.Constants.{is_null_constant, by_one, by_two, by_three, unary_constant, on_words, on_word, both_true, one_true, chosen, binary_constant, value_or_undefined, cast_constant, size_constant, enumeration_constant, constant_at};
ghost use Rattle.p9_operand.specs.Told.{told_constant, told_operand, told_operands};

use crate::kinds::points_to_void;
use crate::operand::{Constant, Operand};
use crate::parts::{one, three, two};
use crate::words::{narrowed, unary_operation, word_operation, works_unsigned};
use p9_base::NoMemory;
use p9_lang::{Bind, CBinary, CType, CUnary, Kind, Tags};
use p9_types::{TypeFault, is_integer, layout};
use std::alloc::Global;

/// Whether a constant is null: an integer constant of value 0, or that cast to `void*`.
pub fn is_null_constant(constant: Constant) -> bool
    ensures { result ≡ is_null_constant (told_constant constant) }
{
    match constant {
        Constant::NotConstant | Constant::Undefined => false,
        Constant::Value(word) => word == 0,
        Constant::Null => true,
    }
}

fn unary_constant(op: CUnary, constant: Constant) -> Constant
    ensures { told_constant result ≡ unary_constant op (told_constant constant) }
{
    match constant {
        Constant::Value(word) => unary_operation(op, word),
        Constant::NotConstant | Constant::Null => Constant::NotConstant,
        Constant::Undefined => match op {
            CUnary::Address | CUnary::Deref => Constant::NotConstant,
            CUnary::Plus | CUnary::Minus | CUnary::Complement | CUnary::Not => Constant::Undefined,
        },
    }
}

// An operation on two integer constants.
fn operation_constant(op: CBinary, is_unsigned: bool, a: Constant, b: Constant) -> Constant
    ensures { told_constant result
        ≡ on_words (λ x y. value_or_undefined (constants.word_operation op is_unsigned x y))
        (told_constant a) (told_constant b) }
{
    match b {
        Constant::NotConstant | Constant::Null => Constant::NotConstant,
        Constant::Undefined => match a {
            Constant::NotConstant | Constant::Null => Constant::NotConstant,
            Constant::Undefined | Constant::Value(_) => Constant::Undefined,
        },
        Constant::Value(y) => match a {
            Constant::NotConstant | Constant::Null => Constant::NotConstant,
            Constant::Undefined => Constant::Undefined,
            Constant::Value(x) => word_operation(op, is_unsigned, x, y),
        },
    }
}

// Whether an integer constant isn't 0.
fn tested(constant: Constant) -> Constant
    ensures { told_constant result
        ≡ on_word (λ y. constants.Value (constants.truth (not (y == 0)))) (told_constant constant) }
{
    match constant {
        Constant::NotConstant | Constant::Null => Constant::NotConstant,
        Constant::Undefined => Constant::Undefined,
        Constant::Value(0) => Constant::Value(0),
        Constant::Value(_) => Constant::Value(1),
    }
}

// Whether an integer constant, defined or not.
fn is_integer_constant(constant: Constant) -> bool
    ensures { (c : constants.Constant) → constants.also (told_constant constant) c ≡ (if result then c else constants.NotConstant) }
{
    match constant {
        Constant::NotConstant | Constant::Null => false,
        Constant::Undefined | Constant::Value(_) => true,
    }
}

fn both_true(a: Constant, b: Constant) -> Constant
    ensures { told_constant result ≡ both_true (told_constant a) (told_constant b) }
{
    if !is_integer_constant(b) {
        return Constant::NotConstant;
    }
    match a {
        Constant::NotConstant | Constant::Null => Constant::NotConstant,
        Constant::Undefined => Constant::Undefined,
        Constant::Value(word) => {
            if word == 0 {
                Constant::Value(0)
            } else {
                tested(b)
            }
        }
    }
}

fn one_true(a: Constant, b: Constant) -> Constant
    ensures { told_constant result ≡ one_true (told_constant a) (told_constant b) }
{
    if !is_integer_constant(b) {
        return Constant::NotConstant;
    }
    match a {
        Constant::NotConstant | Constant::Null => Constant::NotConstant,
        Constant::Undefined => Constant::Undefined,
        Constant::Value(word) => {
            if word == 0 {
                tested(b)
            } else {
                Constant::Value(1)
            }
        }
    }
}

fn chosen(test: Constant, a: Constant, b: Constant) -> Constant
    ensures { told_constant result ≡ chosen (told_constant test) (told_constant a) (told_constant b) }
{
    if !is_integer_constant(a) || !is_integer_constant(b) {
        return Constant::NotConstant;
    }
    match test {
        Constant::NotConstant | Constant::Null => Constant::NotConstant,
        Constant::Undefined => Constant::Undefined,
        Constant::Value(word) => { if word == 0 { b } else { a } }
    }
}

// The right one, where both are integer constants.
fn comma_constant(a: Constant, b: Constant) -> Constant
    ensures { told_constant result
        ≡ on_words (λ x y. constants.Value y) (told_constant a) (told_constant b) }
{
    match a {
        Constant::NotConstant | Constant::Null => Constant::NotConstant,
        Constant::Value(_) => match b {
            Constant::NotConstant | Constant::Null => Constant::NotConstant,
            Constant::Undefined => Constant::Undefined,
            Constant::Value(word) => Constant::Value(word),
        },
        Constant::Undefined => match b {
            Constant::NotConstant | Constant::Null => Constant::NotConstant,
            Constant::Undefined | Constant::Value(_) => Constant::Undefined,
        },
    }
}

fn binary_constant(op: CBinary, a: &Operand, b: &Operand) -> Constant
    ensures { told_constant result ≡ binary_constant op (told_operand a.now) (told_operand b.now) }
{
    match op {
        CBinary::AndAnd => both_true(a.constant, b.constant),
        CBinary::OrOr => one_true(a.constant, b.constant),
        CBinary::Mul
        | CBinary::Div
        | CBinary::Rem
        | CBinary::Add
        | CBinary::Sub
        | CBinary::Shl
        | CBinary::Shr
        | CBinary::Lt
        | CBinary::Gt
        | CBinary::Le
        | CBinary::Ge
        | CBinary::Eq
        | CBinary::Ne
        | CBinary::And
        | CBinary::Xor
        | CBinary::Or => operation_constant(
            op,
            works_unsigned(op, &a.ty, &b.ty),
            a.constant,
            b.constant,
        ),
    }
}

// A number as the value of the type that it is cast to.
fn cast_word(ty: &CType, word: u32) -> Constant
    ensures { told_constant result ≡ cast_constant (type_of ty.now) (constants.Value word) }
{
    if points_to_void(ty) {
        return if word == 0 {
            Constant::Null
        } else {
            Constant::NotConstant
        };
    }
    if is_integer(ty) {
        return Constant::Value(narrowed(ty, word));
    }
    Constant::NotConstant
}

fn cast_constant(ty: &CType, constant: Constant) -> Constant
    ensures { told_constant result ≡ cast_constant (type_of ty.now) (told_constant constant) }
{
    match constant {
        Constant::NotConstant | Constant::Null => Constant::NotConstant,
        Constant::Undefined => {
            if points_to_void(ty) || is_integer(ty) {
                Constant::Undefined
            } else {
                Constant::NotConstant
            }
        }
        Constant::Value(word) => cast_word(ty, word),
    }
}

fn size_constant(alloc: Global, ty: &CType, tags: &Tags) -> Result<Constant, NoMemory>
    requires { NoneContainsItself (tags_of tags.now.list) }
    ensures { IfOk result (λ c. told_constant c
        ≡ size_constant (tags_of tags.now.list) (type_of ty.now)) }
{
    match layout(alloc, ty, tags) {
        Ok(layout) => Ok(Constant::Value(layout.size)),
        Err(TypeFault::Incomplete | TypeFault::BadConstant) => Ok(Constant::NotConstant),
        Err(TypeFault::Memory) => Err(NoMemory),
    }
}

fn enumeration_constant(means: &Bind) -> Constant
    ensures { told_constant result ≡ enumeration_constant (meant means.now) }
{
    match means {
        Bind::EnumValue(value) => Constant::Value(*value),
        Bind::Nothing | Bind::Outer(_) | Bind::Static(_) | Bind::Auto(_) | Bind::TypeName(_) =>
            Constant::NotConstant,
    }
}

fn parens_constant(operands: &[Operand]) -> Constant
    ensures { told_constant result ≡ by_one (λ a. a.constant) (told_operands operands.now) }
{
    match one(operands) {
        Some(a) => a.constant,
        None => Constant::NotConstant,
    }
}

fn unary_at(op: CUnary, operands: &[Operand]) -> Constant
    ensures { told_constant result
        ≡ by_one (λ a. unary_constant op a.constant) (told_operands operands.now) }
{
    match one(operands) {
        Some(a) => unary_constant(op, a.constant),
        None => Constant::NotConstant,
    }
}

fn binary_at(op: CBinary, operands: &[Operand]) -> Constant
    ensures { told_constant result ≡ by_two (binary_constant op) (told_operands operands.now) }
{
    match two(operands) {
        Some((a, b)) => binary_constant(op, a, b),
        None => Constant::NotConstant,
    }
}

fn chosen_at(operands: &[Operand]) -> Constant
    ensures { told_constant result
        ≡ by_three (λ t a b. chosen t.constant a.constant b.constant) (told_operands operands.now) }
{
    match three(operands) {
        Some((test, a, b)) => chosen(test.constant, a.constant, b.constant),
        None => Constant::NotConstant,
    }
}

fn comma_at(operands: &[Operand]) -> Constant
    ensures { told_constant result
        ≡ by_two (λ a b. on_words (λ x y. constants.Value y) a.constant b.constant)
        (told_operands operands.now) }
{
    match two(operands) {
        Some((a, b)) => comma_constant(a.constant, b.constant),
        None => Constant::NotConstant,
    }
}

fn cast_at(ty: &CType, operands: &[Operand]) -> Constant
    ensures { told_constant result
        ≡ by_two (λ t a. cast_constant (type_of ty.now) a.constant) (told_operands operands.now) }
{
    match two(operands) {
        Some((_, a)) => cast_constant(ty, a.constant),
        None => Constant::NotConstant,
    }
}

fn size_at(alloc: Global, operands: &[Operand], tags: &Tags) -> Result<Constant, NoMemory>
    requires { NoneContainsItself (tags_of tags.now.list) }
    ensures { IfOk result (λ c. told_constant c
        ≡ by_one (λ a. size_constant (tags_of tags.now.list) a.type) (told_operands operands.now)) }
{
    match one(operands) {
        Some(a) => size_constant(alloc, &a.ty, tags),
        None => Ok(Constant::NotConstant),
    }
}

/// What a node of a kind is as a constant, by its type, what it stands for, and its operands.
pub fn constant_at(
    alloc: Global,
    tags: &Tags,
    kind: &Kind,
    ty: &CType,
    means: &Bind,
    operands: &[Operand],
) -> Result<Constant, NoMemory>
    requires { NoneContainsItself (tags_of tags.now.list) }
    ensures { IfOk result (λ c. told_constant c
        ≡ constant_at (tags_of tags.now.list) kind.now (type_of ty.now) (meant means.now)
        (told_operands operands.now)) }
{
    match kind {
        Kind::Number { value, .. } => Ok(Constant::Value(*value)),
        Kind::Character(value) => Ok(Constant::Value(*value)),
        Kind::Name(_) => Ok(enumeration_constant(means)),
        Kind::Parens => Ok(parens_constant(operands)),
        Kind::Unary(op) => Ok(unary_at(*op, operands)),
        Kind::Binary(op) => Ok(binary_at(*op, operands)),
        Kind::Choose => Ok(chosen_at(operands)),
        Kind::Comma => Ok(comma_at(operands)),
        Kind::Cast => Ok(cast_at(ty, operands)),
        Kind::SizeofValue | Kind::SizeofType => size_at(alloc, operands, tags),
        Kind::Declaration { .. }
        | Kind::Function { .. }
        | Kind::Member { .. }
        | Kind::EnumConst { .. }
        | Kind::DeclName(_)
        | Kind::Star { .. }
        | Kind::Brackets { .. }
        | Kind::Params { .. }
        | Kind::DeclParens
        | Kind::Param { .. }
        | Kind::NamedType { .. }
        | Kind::InitList { .. }
        | Kind::Entry { .. }
        | Kind::Block
        | Kind::Expression
        | Kind::If
        | Kind::While
        | Kind::Do
        | Kind::For { .. }
        | Kind::Switch
        | Kind::Case
        | Kind::Default
        | Kind::Break
        | Kind::Continue
        | Kind::Return
        | Kind::Index
        | Kind::Call
        | Kind::Dot { .. }
        | Kind::Post { .. }
        | Kind::Pre { .. }
        | Kind::Assign(_)
        | Kind::Text(_) => Ok(Constant::NotConstant),
    }
}
