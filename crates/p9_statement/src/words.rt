// What a word may be beside a name.
ghost use Rattle.std.specs.Prelude.{◌≡◌};
ghost use Rattle.p9_statement.specs.Words.{move_words, sum_words, bit_words, product_words, branch_words, jump_words, directive_words, place_words, found, is_digit, two_digits, numbered, register_word, sense_of};

use p9_abs::Op;

/// The first word of a statement that is no instruction.
#[derive(Clone, Copy)]
pub enum Directive {
    Text,
    Globl,
    Data,
    Signature,
}

/// What an offset counts from: a symbol (SB), the first argument's place (FP), or R29 at entry (SP).
#[derive(Clone, Copy)]
pub enum Base {
    Static,
    Argument,
    Frame,
}

/// What a word is where it stands for no name.
#[derive(Clone, Copy)]
pub enum Sense {
    Plain,
    Operation(Op),
    Directing(Directive),
    Register(u8),
    Hi,
    Lo,
    Based(Base),
}

fn move_word(name: &[u8]) -> Option<Sense>
    ensures { result ≡ found name.now move_words }
{
    if name == b"MOVW".as_slice() {
        Some(Sense::Operation(Op::MovW))
    } else if name == b"MOVH".as_slice() {
        Some(Sense::Operation(Op::MovH))
    } else if name == b"MOVHU".as_slice() {
        Some(Sense::Operation(Op::MovHU))
    } else if name == b"MOVB".as_slice() {
        Some(Sense::Operation(Op::MovB))
    } else if name == b"MOVBU".as_slice() {
        Some(Sense::Operation(Op::MovBU))
    } else {
        None
    }
}

fn sum_word(name: &[u8]) -> Option<Sense>
    ensures { result ≡ found name.now sum_words }
{
    if name == b"ADD".as_slice() {
        Some(Sense::Operation(Op::Add))
    } else if name == b"ADDU".as_slice() {
        Some(Sense::Operation(Op::AddU))
    } else if name == b"SUB".as_slice() {
        Some(Sense::Operation(Op::Sub))
    } else if name == b"SUBU".as_slice() {
        Some(Sense::Operation(Op::SubU))
    } else if name == b"SGT".as_slice() {
        Some(Sense::Operation(Op::Sgt))
    } else if name == b"SGTU".as_slice() {
        Some(Sense::Operation(Op::SgtU))
    } else {
        None
    }
}

fn bit_word(name: &[u8]) -> Option<Sense>
    ensures { result ≡ found name.now bit_words }
{
    if name == b"AND".as_slice() {
        Some(Sense::Operation(Op::And))
    } else if name == b"OR".as_slice() {
        Some(Sense::Operation(Op::Or))
    } else if name == b"XOR".as_slice() {
        Some(Sense::Operation(Op::Xor))
    } else if name == b"NOR".as_slice() {
        Some(Sense::Operation(Op::Nor))
    } else if name == b"SLL".as_slice() {
        Some(Sense::Operation(Op::Sll))
    } else if name == b"SRL".as_slice() {
        Some(Sense::Operation(Op::Srl))
    } else if name == b"SRA".as_slice() {
        Some(Sense::Operation(Op::Sra))
    } else {
        None
    }
}

fn product_word(name: &[u8]) -> Option<Sense>
    ensures { result ≡ found name.now product_words }
{
    if name == b"MUL".as_slice() {
        Some(Sense::Operation(Op::Mul))
    } else if name == b"MULU".as_slice() {
        Some(Sense::Operation(Op::MulU))
    } else if name == b"DIV".as_slice() {
        Some(Sense::Operation(Op::Div))
    } else if name == b"DIVU".as_slice() {
        Some(Sense::Operation(Op::DivU))
    } else {
        None
    }
}

fn branch_word(name: &[u8]) -> Option<Sense>
    ensures { result ≡ found name.now branch_words }
{
    if name == b"BEQ".as_slice() {
        Some(Sense::Operation(Op::Beq))
    } else if name == b"BNE".as_slice() {
        Some(Sense::Operation(Op::Bne))
    } else if name == b"BGEZ".as_slice() {
        Some(Sense::Operation(Op::Bgez))
    } else if name == b"BGTZ".as_slice() {
        Some(Sense::Operation(Op::Bgtz))
    } else if name == b"BLEZ".as_slice() {
        Some(Sense::Operation(Op::Blez))
    } else if name == b"BLTZ".as_slice() {
        Some(Sense::Operation(Op::Bltz))
    } else {
        None
    }
}

fn jump_word(name: &[u8]) -> Option<Sense>
    ensures { result ≡ found name.now jump_words }
{
    if name == b"JMP".as_slice() {
        Some(Sense::Operation(Op::Jmp))
    } else if name == b"JAL".as_slice() {
        Some(Sense::Operation(Op::Jal))
    } else if name == b"RET".as_slice() {
        Some(Sense::Operation(Op::Ret))
    } else if name == b"SYSCALL".as_slice() {
        Some(Sense::Operation(Op::Syscall))
    } else {
        None
    }
}

fn directive_word(name: &[u8]) -> Option<Sense>
    ensures { result ≡ found name.now directive_words }
{
    if name == b"TEXT".as_slice() {
        Some(Sense::Directing(Directive::Text))
    } else if name == b"GLOBL".as_slice() {
        Some(Sense::Directing(Directive::Globl))
    } else if name == b"DATA".as_slice() {
        Some(Sense::Directing(Directive::Data))
    } else if name == b"TYPE".as_slice() {
        Some(Sense::Directing(Directive::Signature))
    } else {
        None
    }
}

fn place_word(name: &[u8]) -> Option<Sense>
    ensures { result ≡ found name.now place_words }
{
    if name == b"SB".as_slice() {
        Some(Sense::Based(Base::Static))
    } else if name == b"FP".as_slice() {
        Some(Sense::Based(Base::Argument))
    } else if name == b"SP".as_slice() {
        Some(Sense::Based(Base::Frame))
    } else if name == b"HI".as_slice() {
        Some(Sense::Hi)
    } else if name == b"LO".as_slice() {
        Some(Sense::Lo)
    } else {
        None
    }
}

fn is_digit(byte: u8) -> bool
    ensures { result ≡ is_digit byte }
{
    byte >= 48 && byte <= 57
}

fn two_digits(tens: u8, ones: u8) -> Option<Sense>
    ensures { result ≡ two_digits tens ones }
{
    if tens >= 49 && tens <= 51 && is_digit(ones) && (tens - 48) * 10 + (ones - 48) <= 31 {
        Some(Sense::Register((tens - 48) * 10 + (ones - 48)))
    } else {
        None
    }
}

fn numbered(digits: &[u8]) -> Option<Sense>
    ensures { result ≡ numbered digits.now }
{
    match digits {
        [digit] => {
            if is_digit(*digit) {
                Some(Sense::Register(*digit - 48))
            } else {
                None
            }
        }
        [tens, ones] => two_digits(*tens, *ones),
        _ => None,
    }
}

fn register_word(name: &[u8]) -> Option<Sense>
    ensures { result ≡ register_word name.now }
{
    match name {
        [first, digits @ ..] => {
            if *first == b'R' {
                numbered(digits)
            } else {
                None
            }
        }
        [] => None,
    }
}

/// What a word is. A word that is none of the language's is a plain name.
#[tactic(auto, unfolding(crate::specs::Words::sense_of))]
pub fn sense_of(name: &[u8]) -> Sense
    ensures { result ≡ sense_of name.now }
{
    move_word(name)
        .or(sum_word(name))
        .or(bit_word(name))
        .or(product_word(name))
        .or(branch_word(name))
        .or(jump_word(name))
        .or(directive_word(name))
        .or(place_word(name))
        .or(register_word(name))
        .unwrap_or(Sense::Plain)
}
