// Lines that are statements, and lines that are none.
use p9_abs::Op;
use p9_lex::{Dialect, lex};
use p9_statement::{
    Argument, Arguments, Lexeme, Line, Statement, fits_frame, lexeme_of, line_of, reserved_register,
};
use std::alloc::Global;
use std::test::Fail;

const LINES: [&str; 29] = [
    "a:",
    "RET",
    "a: RET",
    "TEXT: RET",
    "ADD $1, R2",
    "SUB R2, R1, R3",
    "MOVW $x+4(SB), R1",
    "MOVW $x-4(SP), R1",
    "MOVW $-1, R6",
    "MOVW -4(SP), R1",
    "MOVW (R1), R2",
    "MOVW -4(R1), R2",
    "MOVW 'a'(R1), R2",
    "MOVW b+4(FP), R2",
    "MOVW R1, (FP)",
    "MOVW HI, R11",
    "MOVW R1, LO",
    "JMP R1",
    "JAL R3",
    "JAL f<>(SB)",
    "BEQ R1, R2, a",
    "SLL $31, R1",
    "TEXT f(SB), $8",
    "GLOBL x<>(SB), $12",
    "DATA x+4(SB)/4, $y<>+8(SB)",
    "DATA x(SB)/1, $'a'",
    "DATA x<>+2(SB)/2, $-1",
    "TYPE f(SB), \"(i;)i\"",
    "TYPE f(SB), \"\"",
];

const NO_LINES: [&str; 22] = [
    "FOO",
    "MOVW $1, R32",
    "MOVW $1, R01",
    "MOVW 65536(FP), R1",
    "MOVW $4(R1), R2",
    "MOVW R1, x+4(SP)",
    "MUL $3, R1",
    "MOVW $1, R28, R3",
    "RET R1",
    "BEQ R1, a",
    "SLL $32, R1",
    "JAL f+0(SB)",
    "a: b: RET",
    "TEXT f(SB), $-4",
    "TEXT f(SB), $6",
    "GLOBL x(SB), $'A'",
    "GLOBL x(SB), $0",
    "TYPE f<>(SB), \"v\"",
    "TYPE f(SB), \"a\" \"b\"",
    "DATA x+0(SB)/3, $1",
    "DATA x+2(SB)/4, $y(SB)",
    "DATA x+16777216(SB)/1, $1",
];

// The line of a text that is one.
fn line(alloc: Global, text: &str) -> Result<Option<Line>, Fail> {
    let tokens = lex(alloc, text.as_bytes(), Dialect::Asm)?;
    let mut lexemes = Vec::new(alloc);
    let mut place = 0u32;
    for token in &tokens.list {
        let lexeme = lexeme_of(place, place, &token.kind);
        match lexeme {
            Lexeme::LineEnd => {}
            _ => lexemes.push(lexeme)?,
        }
        place = place.wrapping_add(1);
    }
    Ok(line_of(&lexemes))
}

fn statement(alloc: Global, text: &str) -> Result<Statement, Fail> {
    let line = line(alloc, text)?.ok_or("no line")?;
    Ok(line.statement.ok_or("no statement")?)
}

#[test]
fn lines_are_told(rt: HostRuntime) -> Result<(), Fail> {
    for text in LINES {
        assert!(rt; line(rt.alloc(), text)?.is_some(), "{text}");
    }
    for text in NO_LINES {
        assert!(rt; line(rt.alloc(), text)?.is_none(), "{text}");
    }
    Ok(())
}

// Two operands of a calculation stand for three.
#[test]
fn last_operand_is_repeated(rt: HostRuntime) -> Result<(), Fail> {
    let is_repeated = match statement(rt.alloc(), "ADD $1, R2")? {
        Statement::Instruction(
            Op::Add,
            Arguments::Three(Argument::Constant(1), Argument::Register(2), Argument::Register(2)),
        ) => true,
        _ => false,
    };
    assert!(rt; is_repeated);
    Ok(())
}

#[test]
fn reserved_registers_are_found(rt: HostRuntime) -> Result<(), Fail> {
    let rows = [
        ("MOVW $1, R28", Some(28)),
        ("ADD R27, R28, R31", Some(27)),
        ("ADD R1, R29", Some(29)),
        ("MOVW (R26), R1", Some(26)),
        ("ADD R29, R30, R1", None),
        ("MUL R29, R31", None),
    ];
    for (text, register) in rows {
        let found = reserved_register(statement(rt.alloc(), text)?);
        assert_eq!(rt; found, register, "{text}");
    }
    Ok(())
}

#[test]
fn frames_hold_offsets(rt: HostRuntime) -> Result<(), Fail> {
    let below = statement(rt.alloc(), "MOVW R1, x-4(SP)")?;
    assert!(rt; fits_frame(4, below));
    assert!(rt; !fits_frame(0, below));
    Ok(())
}
