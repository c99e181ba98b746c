// The instructions of `main`.
ghost use Rattle.std.specs.Prelude.{◌≡◌, ◌<◌, ◌≤◌, ◌+◌, ◌^◌, ◌++◌, ◌∷◌, [], OnOk, None, length};
ghost use Rattle.p9_r3k.specs.Table.{Fits};
ghost use Rattle.p9_form.specs.declared.file.Statement.TheVariants.{Exits};
ghost use Rattle.p9_r3k.specs.declared.inst.Inst.TheVariants.{Addu};
ghost use Rattle.p9_form.specs.Sharing.{padded, statement_data, statements_data};
ghost use Rattle.p9_straight.specs.Code.{load_operand, store_code, exit_code, statement_code, text_after, statements_code, main_code};
ghost use Rattle.p9_straight.specs.Building.{emitted, AreFitting, place_at, assign_code, write_code};

use crate::places::place_of;
use crate::words::push_word;
use indexmap::IndexMap;
use p9_base::{Bytes, Name, NoMemory};
use p9_form::{Operand, Statement};
use p9_r3k::{Inst, encode};

// The registers of the stack, of the number of a system call, and three for values.
const STACK: u32 = 29;

const CALL: u32 = 1;

const VALUE: u32 = 2;

const OTHER: u32 = 3;

const PLACE: u32 = 4;

// The numbers of system calls.
const EXITS: u32 = 8;

const WRITE: u32 = 20;

// -16 as a half word: the room for the arguments of a system call.
const ROOM: u32 = 65_520;

// Appends an instruction.
#[tactic(auto, unfolding(crate::specs::Building::emitted))]
fn push(out: &mut Vec<u8>, instruction: &Inst) -> Result<(), NoMemory>
    requires { Fits instruction.now }
    ensures { OnOk result (out.new.items ≡ out.old.items ++ emitted (instruction.now ∷ [])) }
{
    push_word(out, encode(instruction))
}

// Appends instructions.
fn push_all(out: &mut Vec<u8>, code: &[Inst]) -> Result<(), NoMemory>
    requires { AreFitting code.now }
    ensures { OnOk result (out.new.items ≡ out.old.items ++ emitted code.now) }
{
    let mut rest = code;
    while let [instruction, after @ ..] = rest {
        push(out, instruction)?;
        rest = after;
    }
    Ok(())
}

// An operand into a register.
fn load_operand(
    out: &mut Vec<u8>,
    places: &IndexMap<Name, u32>,
    register: u32,
    operand: &Operand,
) -> Result<(), NoMemory>
    requires { register < 32 }
    ensures { OnOk result (out.new.items ≡ out.old.items ++ emitted (load_operand (place_at places.now.entries) register operand.now)) }
{
    match operand {
        Operand::Variable(name) => {
            let place = place_of(places, name);
            push_all(
                out,
                &[
                    Inst::Lui {
                        rt: register,
                        imm: place / 65536,
                    },
                    Inst::Ori {
                        rs: register,
                        rt: register,
                        imm: place % 65536,
                    },
                    Inst::Lw {
                        rs: register,
                        rt: register,
                        imm: 0,
                    },
                    Inst::Sll {
                        rt: 0,
                        rd: 0,
                        sh: 0,
                    },
                ],
            )
        }
        Operand::Number(value) => push_all(
            out,
            &[
                Inst::Lui {
                    rt: register,
                    imm: *value / 65536,
                },
                Inst::Ori {
                    rs: register,
                    rt: register,
                    imm: *value % 65536,
                },
            ],
        ),
    }
}

// Register 2 into a variable.
fn store(out: &mut Vec<u8>, places: &IndexMap<Name, u32>, name: &Name) -> Result<(), NoMemory>
    ensures { OnOk result (out.new.items ≡ out.old.items ++ emitted (store_code (place_at places.now.entries) name.now)) }
{
    let place = place_of(places, name);
    push_all(
        out,
        &[
            Inst::Lui {
                rt: PLACE,
                imm: place / 65536,
            },
            Inst::Ori {
                rs: PLACE,
                rt: PLACE,
                imm: place % 65536,
            },
            Inst::Sw {
                rs: PLACE,
                rt: VALUE,
                imm: 0,
            },
        ],
    )
}

// An operand is added to register 2.
#[tactic(auto, using(crate::proofs::BuildCode::code_then))]
fn add(out: &mut Vec<u8>, places: &IndexMap<Name, u32>, operand: &Operand) -> Result<(), NoMemory>
    ensures { OnOk result (out.new.items ≡ out.old.items ++ emitted (load_operand (place_at places.now.entries) 3 operand.now ++ Addu 2 3 2 ∷ [])) }
{
    load_operand(out, places, OTHER, operand)?;
    push_all(
        out,
        &[Inst::Addu {
            rs: VALUE,
            rt: OTHER,
            rd: VALUE,
        }],
    )
}

// An assignment.
#[tactic(auto, using(crate::proofs::BuildCode::code_then))]
fn assign(
    out: &mut Vec<u8>,
    places: &IndexMap<Name, u32>,
    name: &Name,
    left: &Operand,
    right: &Option<Operand>,
) -> Result<(), NoMemory>
    ensures { OnOk result (out.new.items ≡ out.old.items ++ emitted (assign_code (place_at places.now.entries) name.now left.now right.now)) }
{
    load_operand(out, places, VALUE, left)?;
    match right {
        None => store(out, places, name),
        Some(right) => {
            add(out, places, right)?;
            store(out, places, name)
        }
    }
}

// `write` of the text at this address.
#[tactic(auto, using(crate::proofs::BuildCode::code_then))]
fn write(
    out: &mut Vec<u8>,
    places: &IndexMap<Name, u32>,
    at: u32,
    count: &Operand,
) -> Result<(), NoMemory>
    ensures { OnOk result (out.new.items ≡ out.old.items ++ emitted (write_code (place_at places.now.entries) at count.now)) }
{
    load_operand(out, places, VALUE, count)?;
    push_all(
        out,
        &[
            Inst::Addiu {
                rs: 0,
                rt: OTHER,
                imm: 1,
            },
            Inst::Sw {
                rs: STACK,
                rt: OTHER,
                imm: 4,
            },
            Inst::Lui {
                rt: OTHER,
                imm: at / 65536,
            },
            Inst::Ori {
                rs: OTHER,
                rt: OTHER,
                imm: at % 65536,
            },
            Inst::Sw {
                rs: STACK,
                rt: OTHER,
                imm: 8,
            },
            Inst::Sw {
                rs: STACK,
                rt: VALUE,
                imm: 12,
            },
            Inst::Addiu {
                rs: 0,
                rt: CALL,
                imm: WRITE,
            },
            Inst::Syscall { code: 0 },
        ],
    )
}

// `exits` with the text at this address.
fn exit(out: &mut Vec<u8>, at: u32) -> Result<(), NoMemory>
    ensures { OnOk result (out.new.items ≡ out.old.items ++ emitted (exit_code at)) }
{
    push_all(
        out,
        &[
            Inst::Lui {
                rt: VALUE,
                imm: at / 65536,
            },
            Inst::Ori {
                rs: VALUE,
                rt: VALUE,
                imm: at % 65536,
            },
            Inst::Sw {
                rs: STACK,
                rt: VALUE,
                imm: 4,
            },
            Inst::Addiu {
                rs: 0,
                rt: CALL,
                imm: EXITS,
            },
            Inst::Syscall { code: 0 },
        ],
    )
}

// `exits` with 0.
fn exit_without_text(out: &mut Vec<u8>) -> Result<(), NoMemory>
    ensures { OnOk result (out.new.items ≡ out.old.items ++ emitted (statement_code (λ _. 0) 0 (Exits None))) }
{
    push_all(
        out,
        &[
            Inst::Sw {
                rs: STACK,
                rt: 0,
                imm: 4,
            },
            Inst::Addiu {
                rs: 0,
                rt: CALL,
                imm: EXITS,
            },
            Inst::Syscall { code: 0 },
        ],
    )
}

// A statement, whose text lies at this address.
fn statement(
    out: &mut Vec<u8>,
    places: &IndexMap<Name, u32>,
    at: u32,
    statement: &Statement,
) -> Result<(), NoMemory>
    ensures { OnOk result (out.new.items ≡ out.old.items ++ emitted (statement_code (place_at places.now.entries) at statement.now)) }
{
    match statement {
        Statement::Assign { place, left, right } => assign(out, places, place, left, right),
        Statement::Write { count, .. } => write(out, places, at, count),
        Statement::Exits(None) => exit_without_text(out),
        Statement::Exits(Some(_)) => exit(out, at),
    }
}

// How many bytes a text has in the data.
pub(crate) fn padded(text: &Bytes) -> usize
    ensures { result ≡ padded (length text.now) }
{
    let count = text.list.len();
    count + (4 - count % 4)
}

// Where the next statement's text lies.
fn text_after(at: u32, statement: &Statement) -> u32
    requires { at + statement_data statement.now < 2 ^ 32 }
    ensures { result ≡ text_after at statement.now }
{
    match statement {
        Statement::Write { text, .. } | Statement::Exits(Some(text)) => {
            (at as usize + padded(text)) as u32
        }
        _ => at,
    }
}

// Statements whose texts lie from this address on, and the exit behind them.
fn statements(
    out: &mut Vec<u8>,
    places: &IndexMap<Name, u32>,
    at: u32,
    end: u32,
    statements: &[Statement],
) -> Result<(), NoMemory>
    requires { at + statements_data statements.now < 2 ^ 32 }
    ensures { OnOk result (out.new.items ≡ out.old.items ++ emitted (statements_code (place_at places.now.entries) at end statements.now)) }
{
    let mut text_at = at;
    let mut rest = statements;
    while let [first, after @ ..] = rest {
        statement(out, places, text_at, first)?;
        text_at = text_after(text_at, first);
        rest = after;
    }
    exit(out, end)
}

/// The code of `main`.
#[tactic(auto, using(crate::proofs::BuildCode::code_then))]
pub(crate) fn main_code(
    out: &mut Vec<u8>,
    places: &IndexMap<Name, u32>,
    at: u32,
    end: u32,
    statements: &[Statement],
) -> Result<(), NoMemory>
    requires { at + statements_data statements.now < 2 ^ 32 }
    ensures { OnOk result (out.new.items ≡ out.old.items ++ emitted (main_code (place_at places.now.entries) at end statements.now)) }
{
    push_all(
        out,
        &[Inst::Addiu {
            rs: STACK,
            rt: STACK,
            imm: ROOM,
        }],
    )?;
    self::statements(out, places, at, end, statements)
}
