// Files that are assembled, and files that are refused.
use p9_abs::{Body, DataPiece, Op, Operand, Symbol, TextDef};
use p9_asm::{AsmFault, assemble};
use p9_lex::LexFault;
use std::alloc::Global;
use std::test::Fail;

#[derive(Clone, Copy, Debug, PartialEq, Eq)]
enum Told {
    Module,
    Wide(u32),
    Syntax(u32),
    Reserved(u32, u8),
    NoLabel(u32),
    LabelTwice(u32),
    Other,
}

const ROWS: [(&str, Told); 21] = [
    ("TEXT f(SB), $0\nRET\n", Told::Module),
    ("TEXT f(SB), $0\nMOVW $1, R32\nRET\n", Told::Syntax(2)),
    ("MOVW $1, R1\n", Told::Syntax(1)),
    ("GLOBL x(SB), $4\nDATA x+2(SB)/4, $1\n", Told::Syntax(2)),
    (
        "GLOBL x(SB), $8\nDATA x+0(SB)/4, $1\nDATA x+3(SB)/2, $1\n",
        Told::Syntax(3),
    ),
    ("GLOBL x(SB), $8\nDATA x+0(SB)/3, $1\n", Told::Syntax(2)),
    ("TEXT f(SB), $0\nMOVW R1, x-4(SP)\nRET\n", Told::Syntax(2)),
    (
        "TYPE f<>(SB), \"v\"\nTEXT f<>(SB), $0\nRET\n",
        Told::Syntax(1),
    ),
    ("TEXT f(SB), $0\nMOVW $1, R28\nRET\n", Told::Reserved(2, 28)),
    (
        "TEXT f(SB), $0\nADD R27, R28, R31\nRET\n",
        Told::Reserved(2, 27),
    ),
    ("TEXT f(SB), $0\nJMP a\n", Told::NoLabel(2)),
    ("TEXT f(SB), $0\nJMP a\nFOO\n", Told::Syntax(3)),
    (
        "TEXT f(SB), $0\na: ADD R1, R2\na: RET\n",
        Told::LabelTwice(3),
    ),
    ("TEXT f(SB), $0\nMOVW $4294967296, R1\nRET\n", Told::Wide(2)),
    ("TEXT f(SB), $0\nADD R1, R2\n", Told::Syntax(2)),
    ("TEXT f(SB), $0\nRET\nTEXT g(SB), $0\n", Told::Syntax(3)),
    ("TEXT f(SB), $0\nJMP a\na:\n", Told::Syntax(3)),
    (
        "TEXT f(SB), $0\na: RET\nTEXT g(SB), $0\nJMP a\n",
        Told::NoLabel(4),
    ),
    ("DATA x+4(SB)/1, $1\nGLOBL x(SB), $4\n", Told::Syntax(1)),
    ("TEXT f(SB), $0\nMOVW x<>(SB), R1\nRET\n", Told::Syntax(2)),
    ("GLOBL x(SB), $4\nTEXT x(SB), $0\nRET\n", Told::Syntax(2)),
];

fn answer(alloc: Global, text: &str) -> Told {
    match assemble(alloc, text.as_bytes()) {
        Ok(_) => Told::Module,
        Err(AsmFault::Lex(LexFault::WideNumber { line, .. })) => Told::Wide(line),
        Err(AsmFault::AsmSyntax { line }) => Told::Syntax(line),
        Err(AsmFault::Reserved { line, register }) => Told::Reserved(line, register),
        Err(AsmFault::NoLabel { line, .. }) => Told::NoLabel(line),
        Err(AsmFault::LabelTwice { line, .. }) => Told::LabelTwice(line),
        Err(AsmFault::Lex(_)) | Err(AsmFault::Memory) => Told::Other,
    }
}

#[test]
fn rows_are_told(rt: HostRuntime) -> Result<(), Fail> {
    for (text, wanted) in ROWS {
        assert_eq!(rt; answer(rt.alloc(), text), wanted, "{text}");
    }
    Ok(())
}

// Two operands stand for three, and a label names the next instruction.
#[test]
fn functions_are_assembled(rt: HostRuntime) -> Result<(), Fail> {
    let text = "TEXT f(SB), $4\nJMP a\nADD $1, R2\na:\n\nRET\n";
    let made = assemble(rt.alloc(), text.as_bytes())?;
    let is_made = match made.symbols.list.as_slice() {
        [
            Symbol {
                name,
                local: false,
                body: Body::Text(TextDef { frame: 4, code }),
                ..
            },
        ] => match code.list.as_slice() {
            [jump, add, end] => {
                name.list.as_slice() == b"f".as_slice()
                    && jump.operands.list.as_slice() == [Operand::Label(2)].as_slice()
                    && add.operands.list.as_slice()
                        == [Operand::Const(1), Operand::Reg(2), Operand::Reg(2)].as_slice()
                    && end.op == Op::Ret
            }
            _ => false,
        },
        _ => false,
    };
    assert!(rt; is_made);
    Ok(())
}

// Bytes that no line gives are zeros, the highest byte of a value stands first, and the symbol that is
// named first has the least number.
#[test]
fn data_are_assembled(rt: HostRuntime) -> Result<(), Fail> {
    let text = "DATA x<>+4(SB)/4, $y+8(SB)\nDATA x<>+2(SB)/2, $0x11234\nGLOBL x<>(SB), $9\n";
    let made = assemble(rt.alloc(), text.as_bytes())?;
    let is_made = match made.symbols.list.as_slice() {
        [
            Symbol {
                local: true,
                body: Body::Data(pieces),
                ..
            },
            Symbol {
                local: false,
                body: Body::Used,
                ..
            },
        ] => match pieces.list.as_slice() {
            [
                DataPiece::Raw(first),
                DataPiece::Address {
                    symbol: 1,
                    offset: 8,
                },
                DataPiece::Raw(last),
            ] => {
                first.list.as_slice() == [0, 0, 0x12, 0x34].as_slice()
                    && last.list.as_slice() == [0].as_slice()
            }
            _ => false,
        },
        _ => false,
    };
    assert!(rt; is_made);
    Ok(())
}
