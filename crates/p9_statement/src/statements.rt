// Statements and lines, by their tokens.
ghost use Rattle.std.specs.Prelude.{◌≡◌, ◌<◌, length, position, IfSome};
ghost use Rattle.p9_abs.specs.Validity.{writes_last};
ghost use Rattle.p9_statement.specs.Operands.{constant_of};
ghost use Rattle.p9_statement.specs.Statements.{is_comma, is_slash, more_arguments, arguments_of, listed, is_calculation, completed, shape_of, is_form, formed, instruction_of, dollar_number, text_statement, globl_statement, type_statement, sized, address_value, constant_or_address_value, datum_of, data_statement, parted_data, directive_of, parted_directive, headed, statement_of, labelled, line_of, kept_register, named_register, written_register, last_register, reserved_among, reserved_register, is_within_frame, fits_frame};

use crate::lexemes::Lexeme;
use crate::operands::{
    Argument, SymbolName, constant_of, last_argument, memory_of, only_number, place_of,
    plain_argument,
};
use crate::words::{Directive, Sense};
use p9_abs::{Op, Operand, form_of};

/// The operands of an instruction.
#[derive(Clone, Copy)]
pub enum Arguments {
    Zero,
    One(Argument),
    Two(Argument, Argument),
    Three(Argument, Argument, Argument),
}

/// A value of initialised data, of which the low bytes count.
#[derive(Clone, Copy)]
pub enum Datum {
    Byte(u32),
    Half(u32),
    Word(u32),
    Address(SymbolName, u32),
}

/// A statement.
#[derive(Clone, Copy)]
pub enum Statement {
    Text(SymbolName, u32),
    Globl(SymbolName, u32),
    Data(SymbolName, u32, Datum),
    Signature(SymbolName, u32),
    Instruction(Op, Arguments),
}

/// What a line has: a label and a statement, or one of them, or nothing.
#[derive(Clone, Copy)]
pub struct Line {
    pub label: Option<u32>,
    pub statement: Option<Statement>,
}

fn is_comma(lexeme: Lexeme) -> bool
    ensures { result ≡ is_comma lexeme }
{
    match lexeme {
        Lexeme::Comma => true,
        _ => false,
    }
}

fn is_slash(lexeme: Lexeme) -> bool
    ensures { result ≡ is_slash lexeme }
{
    match lexeme {
        Lexeme::Slash => true,
        _ => false,
    }
}

fn comma_place(lexemes: &[Lexeme]) -> Option<usize>
    ensures place { result ≡ position is_comma lexemes.now }
    ensures within { IfSome result (λ at. at < length lexemes.now) }
{
    lexemes.iter().position(|l| is_comma(*l))
}

fn slash_place(lexemes: &[Lexeme]) -> Option<usize>
    ensures place { result ≡ position is_slash lexemes.now }
    ensures within { IfSome result (λ at. at < length lexemes.now) }
{
    lexemes.iter().position(|l| is_slash(*l))
}

fn more_arguments(op: Op, first: Argument, rest: &[Lexeme]) -> Option<Arguments>
    ensures { result ≡ more_arguments op first (position is_comma rest.now) rest.now }
{
    match comma_place(rest) {
        None => Some(Arguments::Two(first, last_argument(op, rest)?)),
        Some(at) => {
            let second = plain_argument(&rest[..at])?;
            let third = last_argument(op, &rest[at + 1..])?;
            Some(Arguments::Three(first, second, third))
        }
    }
}

fn arguments_of(op: Op, lexemes: &[Lexeme]) -> Option<Arguments>
    ensures { result ≡ arguments_of op lexemes.now }
{
    if lexemes.is_empty() {
        return Some(Arguments::Zero);
    }
    match comma_place(lexemes) {
        None => Some(Arguments::One(last_argument(op, lexemes)?)),
        Some(at) => more_arguments(op, plain_argument(&lexemes[..at])?, &lexemes[at + 1..]),
    }
}

fn is_calculation(op: Op) -> bool
    ensures { result ≡ is_calculation op }
{
    match op {
        Op::Add
        | Op::AddU
        | Op::Sub
        | Op::SubU
        | Op::And
        | Op::Or
        | Op::Xor
        | Op::Nor
        | Op::Sgt
        | Op::SgtU
        | Op::Sll
        | Op::Srl
        | Op::Sra => true,
        _ => false,
    }
}

fn completed(op: Op, given: Arguments) -> Arguments
    ensures { result ≡ completed op given }
{
    if is_calculation(op) {
        match given {
            Arguments::Two(a, b) => Arguments::Three(a, b, b),
            _ => given,
        }
    } else {
        given
    }
}

fn shape_of(argument: Argument) -> Operand
    ensures { result ≡ shape_of argument }
{
    match argument {
        Argument::Register(r) => Operand::Reg(r),
        Argument::Constant(c) => Operand::Const(c),
        Argument::Address(_, offset) => Operand::AddrSB(0, offset),
        Argument::ArgumentAddress(offset) => Operand::AddrFP(offset),
        Argument::FrameAddress(offset) => Operand::AddrSP(offset),
        Argument::Memory(_, offset) => Operand::MemSB(0, offset),
        Argument::ArgumentMemory(offset) => Operand::MemFP(offset),
        Argument::FrameMemory(offset) => Operand::MemSP(offset),
        Argument::RegisterMemory(r, offset) => Operand::MemReg(r, offset),
        Argument::Label(_) => Operand::Label(0),
        Argument::Function(_) => Operand::Func(0),
        Argument::Hi => Operand::Hi,
        Argument::Lo => Operand::Lo,
    }
}

fn is_form(op: Op, given: Arguments) -> bool
    ensures { result ≡ is_form op given }
{
    match given {
        Arguments::Zero => form_of(op, &[]).is_some(),
        Arguments::One(a) => form_of(op, &[shape_of(a)]).is_some(),
        Arguments::Two(a, b) => form_of(op, &[shape_of(a), shape_of(b)]).is_some(),
        Arguments::Three(a, b, c) => {
            form_of(op, &[shape_of(a), shape_of(b), shape_of(c)]).is_some()
        }
    }
}

fn formed(op: Op, given: Arguments) -> Option<Statement>
    ensures { result ≡ formed op given }
{
    if is_form(op, given) {
        Some(Statement::Instruction(op, given))
    } else {
        None
    }
}

fn instruction_of(op: Op, rest: &[Lexeme]) -> Option<Statement>
    ensures { result ≡ instruction_of op rest.now }
{
    formed(op, completed(op, arguments_of(op, rest)?))
}

fn dollar_number(lexemes: &[Lexeme]) -> Option<u32>
    ensures { result ≡ dollar_number lexemes.now }
{
    match lexemes {
        [Lexeme::Dollar, rest @ ..] => only_number(rest),
        _ => None,
    }
}

fn text_statement(symbol: SymbolName, frame: u32) -> Option<Statement>
    ensures { result ≡ text_statement symbol frame }
{
    if frame % 4 == 0 && frame <= 16777212 {
        Some(Statement::Text(symbol, frame))
    } else {
        None
    }
}

fn globl_statement(symbol: SymbolName, size: u32) -> Option<Statement>
    ensures { result ≡ globl_statement symbol size }
{
    if size >= 1 && size <= 16777216 {
        Some(Statement::Globl(symbol, size))
    } else {
        None
    }
}

fn type_statement(symbol: SymbolName, lexemes: &[Lexeme]) -> Option<Statement>
    ensures { result ≡ type_statement symbol lexemes.now }
{
    match lexemes {
        [Lexeme::Text(place)] => {
            if symbol.local {
                None
            } else {
                Some(Statement::Signature(symbol, *place))
            }
        }
        _ => None,
    }
}

fn sized(width: u32, value: u32) -> Option<Datum>
    ensures { result ≡ sized width value }
{
    match width {
        1 => Some(Datum::Byte(value)),
        2 => Some(Datum::Half(value)),
        4 => Some(Datum::Word(value)),
        _ => None,
    }
}

fn address_value(width: u32, place: u32, memory: Argument) -> Option<Datum>
    ensures { result ≡ address_value width place memory }
{
    match memory {
        Argument::Memory(symbol, offset) => {
            if width == 4 && place % 4 == 0 {
                Some(Datum::Address(symbol, offset))
            } else {
                None
            }
        }
        _ => None,
    }
}

fn datum_of(width: u32, place: u32, lexemes: &[Lexeme]) -> Option<Datum>
    ensures { result ≡ datum_of width place lexemes.now }
{
    match lexemes {
        [Lexeme::Dollar, rest @ ..] => constant_or_address_value(width, place, rest),
        _ => None,
    }
}

fn constant_or_address_value(width: u32, place: u32, rest: &[Lexeme]) -> Option<Datum>
    ensures { result ≡ constant_or_address_value width place (constant_of rest.now) rest.now }
{
    match constant_of(rest) {
        Some(value) => sized(width, value),
        None => address_value(width, place, memory_of(rest)?),
    }
}

fn data_statement(width: u32, memory: Argument, value: &[Lexeme]) -> Option<Statement>
    ensures { result ≡ data_statement width memory value.now }
{
    match memory {
        Argument::Memory(symbol, offset) => {
            if offset as u64 + width as u64 <= 16777216 {
                let datum = datum_of(width, offset, value)?;
                Some(Statement::Data(symbol, offset, datum))
            } else {
                None
            }
        }
        _ => None,
    }
}

fn parted_data(place: &[Lexeme], value: &[Lexeme]) -> Option<Statement>
    ensures { result ≡ parted_data (position is_slash place.now) place.now value.now }
{
    let at = slash_place(place)?;
    let memory = memory_of(&place[..at])?;
    let width = only_number(&place[at + 1..])?;
    data_statement(width, memory, value)
}

fn directive_of(directive: Directive, first: &[Lexeme], second: &[Lexeme]) -> Option<Statement>
    ensures { result ≡ directive_of directive first.now second.now }
{
    match directive {
        Directive::Text => text_statement(place_of(first)?, dollar_number(second)?),
        Directive::Globl => globl_statement(place_of(first)?, dollar_number(second)?),
        Directive::Data => parted_data(first, second),
        Directive::Signature => type_statement(place_of(first)?, second),
    }
}

fn parted_directive(directive: Directive, rest: &[Lexeme]) -> Option<Statement>
    ensures { result ≡ parted_directive directive (position is_comma rest.now) rest.now }
{
    let at = comma_place(rest)?;
    directive_of(directive, &rest[..at], &rest[at + 1..])
}

fn headed(sense: Sense, rest: &[Lexeme]) -> Option<Statement>
    ensures { result ≡ headed sense rest.now }
{
    match sense {
        Sense::Operation(op) => instruction_of(op, rest),
        Sense::Directing(directive) => parted_directive(directive, rest),
        _ => None,
    }
}

fn statement_of(lexemes: &[Lexeme]) -> Option<Statement>
    ensures { result ≡ statement_of lexemes.now }
{
    match lexemes {
        [Lexeme::Word(_, sense), rest @ ..] => headed(*sense, rest),
        _ => None,
    }
}

fn labelled(label: Option<u32>, lexemes: &[Lexeme]) -> Option<Line>
    ensures { result ≡ labelled label lexemes.now }
{
    if lexemes.is_empty() {
        return Some(Line {
            label,
            statement: None,
        });
    }
    let statement = statement_of(lexemes)?;
    Some(Line {
        label,
        statement: Some(statement),
    })
}

/// What the tokens of a line are, if they are a line of the language.
#[tactic(auto, unfolding(crate::specs::Statements::line_of))]
pub fn line_of(lexemes: &[Lexeme]) -> Option<Line>
    ensures { result ≡ line_of lexemes.now }
{
    match lexemes {
        [Lexeme::Word(word, _), Lexeme::Colon, rest @ ..] => labelled(Some(*word), rest),
        _ => labelled(None, lexemes),
    }
}

fn kept_register(r: u8) -> Option<u8>
    ensures { result ≡ kept_register r }
{
    if r >= 26 && r <= 28 { Some(r) } else { None }
}

fn named_register(argument: Argument) -> Option<u8>
    ensures { result ≡ named_register argument }
{
    match argument {
        Argument::Register(r) | Argument::RegisterMemory(r, _) => kept_register(r),
        _ => None,
    }
}

fn writes_last(op: Op) -> bool
    ensures { result ≡ writes_last op }
{
    match op {
        Op::MovW | Op::MovH | Op::MovHU | Op::MovB | Op::MovBU => true,
        _ => is_calculation(op),
    }
}

fn written_register(writes: bool, argument: Argument) -> Option<u8>
    ensures { result ≡ written_register writes argument }
{
    if !writes {
        return None;
    }
    match argument {
        Argument::Register(r) => { if r >= 29 { Some(r) } else { None } }
        _ => None,
    }
}

fn last_register(op: Op, argument: Argument) -> Option<u8>
    ensures { result ≡ last_register op argument }
{
    named_register(argument).or(written_register(writes_last(op), argument))
}

fn reserved_among(op: Op, given: Arguments) -> Option<u8>
    ensures { result ≡ reserved_among op given }
{
    match given {
        Arguments::Zero => None,
        Arguments::One(a) => last_register(op, a),
        Arguments::Two(a, b) => named_register(a).or(last_register(op, b)),
        Arguments::Three(a, b, c) => named_register(a)
            .or(named_register(b))
            .or(last_register(op, c)),
    }
}

/// The first register of a statement that it may not name: R26, R27 or R28, or a destination R29,
/// R30 or R31.
pub fn reserved_register(statement: Statement) -> Option<u8>
    ensures { result ≡ reserved_register statement }
{
    match statement {
        Statement::Instruction(op, given) => reserved_among(op, given),
        _ => None,
    }
}

fn is_within_frame(frame: u32, argument: Argument) -> bool
    ensures { result ≡ is_within_frame frame argument }
{
    match argument {
        Argument::FrameAddress(offset) | Argument::FrameMemory(offset) => {
            offset as u64 + frame as u64 >= 0x1_0000_0000
        }
        _ => true,
    }
}

/// Whether what a statement names below R29 at entry is within a frame of that size.
pub fn fits_frame(frame: u32, statement: Statement) -> bool
    ensures { result ≡ fits_frame frame statement }
{
    match statement {
        Statement::Instruction(_, Arguments::One(a)) => is_within_frame(frame, a),
        Statement::Instruction(_, Arguments::Two(a, b)) => {
            is_within_frame(frame, a) && is_within_frame(frame, b)
        }
        Statement::Instruction(_, Arguments::Three(a, b, c)) => {
            is_within_frame(frame, a) && is_within_frame(frame, b) && is_within_frame(frame, c)
        }
        _ => true,
    }
}
