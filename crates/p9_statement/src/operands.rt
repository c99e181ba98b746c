// Operands, by their tokens.
ghost use Rattle.std.specs.Prelude.{◌≡◌, ◌<◌, length, position, IfSome};
ghost use Rattle.p9_statement.specs.Operands.{is_open, only_number, negated, constant_of, offset_of, symbol_of, behind_symbol, only_symbol, base_of, displacement, argument_offset, argument_memory, below_entry, frame_offset, static_memory, memory_by, memory_of, place_of, address_of, constant_or_address, special_of, plain_argument, label_argument, call_argument, last_argument};

use crate::lexemes::Lexeme;
use crate::words::{Base, Sense};
use p9_abs::Op;

/// A symbol, by the place where its name stands first. A local one belongs to its file alone.
#[derive(Clone, Copy)]
pub struct SymbolName {
    pub word: u32,
    pub local: bool,
}

/// An operand. It is one of the abstract instructions' operands, but symbols and labels go by their
/// names.
#[derive(Clone, Copy)]
pub enum Argument {
    Register(u8),
    Constant(u32),
    Address(SymbolName, u32),
    ArgumentAddress(u32),
    FrameAddress(u32),
    Memory(SymbolName, u32),
    ArgumentMemory(u32),
    FrameMemory(u32),
    RegisterMemory(u8, u32),
    Label(u32),
    Function(SymbolName),
    Hi,
    Lo,
}

fn is_open(lexeme: Lexeme) -> bool
    ensures { result ≡ is_open lexeme }
{
    match lexeme {
        Lexeme::Open => true,
        _ => false,
    }
}

/// The number that the tokens are.
pub(crate) fn only_number(lexemes: &[Lexeme]) -> Option<u32>
    ensures { result ≡ only_number lexemes.now }
{
    match lexemes {
        [Lexeme::Number(n)] => Some(*n),
        _ => None,
    }
}

fn negated(n: u32) -> u32
    ensures { result ≡ negated n }
{
    n.wrapping_neg()
}

/// The constant that the tokens are.
pub(crate) fn constant_of(lexemes: &[Lexeme]) -> Option<u32>
    ensures { result ≡ constant_of lexemes.now }
{
    match lexemes {
        [Lexeme::Number(n)] => Some(*n),
        [Lexeme::Character(c)] => Some(*c),
        [Lexeme::Minus, rest @ ..] => Some(negated(only_number(rest)?)),
        _ => None,
    }
}

/// The offset behind a name.
pub(crate) fn offset_of(lexemes: &[Lexeme]) -> Option<u32>
    ensures { result ≡ offset_of lexemes.now }
{
    match lexemes {
        [] => Some(0),
        [Lexeme::Plus, rest @ ..] => only_number(rest),
        _ => None,
    }
}

/// The symbol that the tokens begin with.
pub(crate) fn symbol_of(lexemes: &[Lexeme]) -> Option<SymbolName>
    ensures { result ≡ symbol_of lexemes.now }
{
    match lexemes {
        [Lexeme::Word(word, _), Lexeme::Less, Lexeme::Greater, ..] => Some(SymbolName {
            word: *word,
            local: true,
        }),
        [Lexeme::Word(_, _), Lexeme::Less, ..] => None,
        [Lexeme::Word(word, _), ..] => Some(SymbolName {
            word: *word,
            local: false,
        }),
        _ => None,
    }
}

/// The tokens behind the symbol that they begin with.
pub(crate) fn behind_symbol(lexemes: &[Lexeme]) -> &[Lexeme]
    ensures { result.now ≡ behind_symbol lexemes.now }
{
    match lexemes {
        [Lexeme::Word(_, _), Lexeme::Less, Lexeme::Greater, rest @ ..] => rest,
        [Lexeme::Word(_, _), rest @ ..] => rest,
        _ => &[],
    }
}

fn only_symbol(lexemes: &[Lexeme]) -> Option<SymbolName>
    ensures { result ≡ only_symbol lexemes.now }
{
    match behind_symbol(lexemes) {
        [] => symbol_of(lexemes),
        _ => None,
    }
}

fn base_of(lexemes: &[Lexeme]) -> Option<Sense>
    ensures { result ≡ base_of lexemes.now }
{
    match lexemes {
        [Lexeme::Word(_, sense), Lexeme::Close] => Some(*sense),
        _ => None,
    }
}

fn displacement(lexemes: &[Lexeme]) -> Option<u32>
    ensures { result ≡ displacement lexemes.now }
{
    match lexemes {
        [] => Some(0),
        _ => constant_of(lexemes),
    }
}

fn argument_offset(lexemes: &[Lexeme]) -> Option<u32>
    ensures { result ≡ argument_offset lexemes.now }
{
    match lexemes {
        [] => Some(0),
        [Lexeme::Word(_, _), rest @ ..] => offset_of(rest),
        _ => only_number(lexemes),
    }
}

fn argument_memory(offset: u32) -> Option<Argument>
    ensures { result ≡ argument_memory offset }
{
    if offset <= 65535 {
        Some(Argument::ArgumentMemory(offset))
    } else {
        None
    }
}

fn below_entry(lexemes: &[Lexeme]) -> Option<u32>
    ensures { result ≡ below_entry lexemes.now }
{
    match lexemes {
        [Lexeme::Minus, rest @ ..] => Some(negated(only_number(rest)?)),
        _ => None,
    }
}

fn frame_offset(lexemes: &[Lexeme]) -> Option<u32>
    ensures { result ≡ frame_offset lexemes.now }
{
    match lexemes {
        [Lexeme::Word(_, _), rest @ ..] => below_entry(rest),
        _ => below_entry(lexemes),
    }
}

fn static_memory(lexemes: &[Lexeme]) -> Option<Argument>
    ensures { result ≡ static_memory lexemes.now }
{
    let symbol = symbol_of(lexemes)?;
    let offset = offset_of(behind_symbol(lexemes))?;
    Some(Argument::Memory(symbol, offset))
}

fn memory_by(base: Sense, before: &[Lexeme]) -> Option<Argument>
    ensures { result ≡ memory_by base before.now }
{
    match base {
        Sense::Register(r) => Some(Argument::RegisterMemory(r, displacement(before)?)),
        Sense::Based(Base::Static) => static_memory(before),
        Sense::Based(Base::Argument) => argument_memory(argument_offset(before)?),
        Sense::Based(Base::Frame) => Some(Argument::FrameMemory(frame_offset(before)?)),
        _ => None,
    }
}

fn open_place(lexemes: &[Lexeme]) -> Option<usize>
    ensures place { result ≡ position is_open lexemes.now }
    ensures within { IfSome result (λ at. at < length lexemes.now) }
{
    lexemes.iter().position(|l| is_open(*l))
}

/// The memory operand that the tokens are.
pub(crate) fn memory_of(lexemes: &[Lexeme]) -> Option<Argument>
    ensures { result ≡ memory_of lexemes.now }
{
    let at = open_place(lexemes)?;
    let base = base_of(&lexemes[at + 1..])?;
    memory_by(base, &lexemes[..at])
}

/// The symbol that the tokens name with no offset.
pub(crate) fn place_of(lexemes: &[Lexeme]) -> Option<SymbolName>
    ensures { result ≡ place_of lexemes.now }
{
    let at = open_place(lexemes)?;
    match base_of(&lexemes[at + 1..])? {
        Sense::Based(Base::Static) => only_symbol(&lexemes[..at]),
        _ => None,
    }
}

fn address_of(memory: Argument) -> Option<Argument>
    ensures { result ≡ address_of memory }
{
    match memory {
        Argument::Memory(symbol, offset) => Some(Argument::Address(symbol, offset)),
        Argument::ArgumentMemory(offset) => Some(Argument::ArgumentAddress(offset)),
        Argument::FrameMemory(offset) => Some(Argument::FrameAddress(offset)),
        _ => None,
    }
}

fn constant_or_address(lexemes: &[Lexeme]) -> Option<Argument>
    ensures { result ≡ constant_or_address (constant_of lexemes.now) lexemes.now }
{
    match constant_of(lexemes) {
        Some(c) => Some(Argument::Constant(c)),
        None => address_of(memory_of(lexemes)?),
    }
}

fn special_of(sense: Sense) -> Option<Argument>
    ensures { result ≡ special_of sense }
{
    match sense {
        Sense::Register(r) => Some(Argument::Register(r)),
        Sense::Hi => Some(Argument::Hi),
        Sense::Lo => Some(Argument::Lo),
        _ => None,
    }
}

/// The operand that the tokens are where no label and no function may stand.
pub(crate) fn plain_argument(lexemes: &[Lexeme]) -> Option<Argument>
    ensures { result ≡ plain_argument lexemes.now }
{
    match lexemes {
        [Lexeme::Word(_, sense)] => special_of(*sense),
        [Lexeme::Dollar, rest @ ..] => constant_or_address(rest),
        _ => memory_of(lexemes),
    }
}

fn label_argument(lexemes: &[Lexeme]) -> Option<Argument>
    ensures { result ≡ label_argument lexemes.now }
{
    match lexemes {
        [Lexeme::Word(word, _)] => Some(Argument::Label(*word)),
        _ => None,
    }
}

fn call_argument(lexemes: &[Lexeme]) -> Option<Argument>
    ensures { result ≡ call_argument lexemes.now }
{
    match lexemes {
        [Lexeme::Word(_, sense)] => special_of(*sense),
        _ => Some(Argument::Function(place_of(lexemes)?)),
    }
}

/// The last operand of an operation.
pub(crate) fn last_argument(op: Op, lexemes: &[Lexeme]) -> Option<Argument>
    ensures { result ≡ last_argument op lexemes.now }
{
    match op {
        Op::Beq | Op::Bne | Op::Bgez | Op::Bgtz | Op::Blez | Op::Bltz | Op::Jmp => {
            label_argument(lexemes)
        }
        Op::Jal => call_argument(lexemes),
        _ => plain_argument(lexemes),
    }
}
