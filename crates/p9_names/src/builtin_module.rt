// The module that each program is linked with: its start, and the three system functions.
ghost use Rattle.std.specs.Prelude.{◌≡◌, IfOk, OnOk, List, ℕ, [], ◌∷◌, ◌++◌, codes};
ghost use Rattle.p9_abs.specs.declared.modules.Body.TheVariants.{Text, Data};
ghost use Rattle.p9_abs.specs.declared.modules.DataPiece.TheVariants.{Raw, Address};
ghost use Rattle.p9_abs.specs.BuiltIn.{builtin_module, builtin_symbols, inst, start_code, system_code, local_symbol, system_symbol, used_main, first_symbols, weight_with_start};
ghost use Rattle.p9_abs.specs.Modules.{data_size};
ghost use Rattle.p9_abs.specs.Validity.{IsValid};

use p9_abs::{
    AModule, Abs, Body, Code, DataPiece, Op, Operand, Operands, Pieces, Symbol, Symbols, TextDef,
};
use p9_base::{Bytes, NoMemory};
use std::alloc::Global;

fn bytes(alloc: Global, list: &[u8]) -> Result<Bytes, NoMemory>
    ensures { IfOk result (λ b. b ≡ list.now) }
{
    Ok(Bytes {
        list: list.to_vec(alloc)?,
    })
}

// Adds an instruction.
fn add(alloc: Global, code: &mut Vec<Abs>, op: Op, operands: &[Operand]) -> Result<(), NoMemory>
    ensures { OnOk result (code.new.items ≡ code.old.items ++ inst op operands.now ∷ []) }
{
    let operands = Operands {
        list: operands.to_vec(alloc)?,
    };
    code.push(Abs { op, operands })?;
    Ok(())
}

// The start: it calls main with its two arguments, and exits with the text main after it.
fn start_code(alloc: Global) -> Result<Code, NoMemory>
    ensures { IfOk result (λ code. code ≡ start_code) }
{
    let mut list = Vec::new(alloc);
    add(
        alloc,
        &mut list,
        Op::MovW,
        &[Operand::AddrSB(1, 0), Operand::Reg(2)],
    )?;
    add(
        alloc,
        &mut list,
        Op::MovW,
        &[Operand::Reg(2), Operand::MemReg(29, 8)],
    )?;
    add(
        alloc,
        &mut list,
        Op::MovW,
        &[Operand::Const(1), Operand::Reg(1)],
    )?;
    add(alloc, &mut list, Op::Jal, &[Operand::Func(2)])?;
    add(
        alloc,
        &mut list,
        Op::MovW,
        &[Operand::AddrSB(3, 0), Operand::Reg(1)],
    )?;
    add(alloc, &mut list, Op::Jal, &[Operand::Func(4)])?;
    add(alloc, &mut list, Op::Ret, &[])?;
    Ok(Code { list })
}

// A system function: the call of that number.
fn system_code(alloc: Global, number: u32) -> Result<Code, NoMemory>
    ensures { IfOk result (λ code. code ≡ system_code number) }
{
    let mut list = Vec::new(alloc);
    add(
        alloc,
        &mut list,
        Op::MovW,
        &[Operand::Reg(1), Operand::MemFP(0)],
    )?;
    add(
        alloc,
        &mut list,
        Op::MovW,
        &[Operand::Const(number), Operand::Reg(1)],
    )?;
    add(alloc, &mut list, Op::Syscall, &[])?;
    add(alloc, &mut list, Op::Ret, &[])?;
    Ok(Code { list })
}

fn add_system(
    alloc: Global,
    symbols: &mut Vec<Symbol>,
    name: &[u8],
    number: u32,
    sig: &[u8],
) -> Result<(), NoMemory>
    ensures { OnOk result (symbols.new.items ≡ symbols.old.items ++ system_symbol name.now number sig.now ∷ []) }
{
    let code = system_code(alloc, number)?;
    let name = bytes(alloc, name)?;
    let sig = bytes(alloc, sig)?;
    symbols.push(Symbol {
        name,
        local: false,
        sig,
        body: Body::Text(TextDef { frame: 0, code }),
    })?;
    Ok(())
}

fn add_local(
    alloc: Global,
    symbols: &mut Vec<Symbol>,
    name: &[u8],
    body: Body,
) -> Result<(), NoMemory>
    ensures { OnOk result (symbols.new.items ≡ symbols.old.items ++ local_symbol name.now body ∷ []) }
{
    let name = bytes(alloc, name)?;
    symbols.push(Symbol {
        name,
        local: true,
        sig: Bytes {
            list: Vec::new(alloc),
        },
        body,
    })?;
    Ok(())
}

fn add_main(alloc: Global, symbols: &mut Vec<Symbol>) -> Result<(), NoMemory>
    ensures { OnOk result (symbols.new.items ≡ symbols.old.items ++ used_main ∷ []) }
{
    let name = bytes(alloc, b"main")?;
    symbols.push(Symbol {
        name,
        local: false,
        sig: Bytes {
            list: Vec::new(alloc),
        },
        body: Body::Used,
    })?;
    Ok(())
}

// Data of one piece.
fn raw_data(alloc: Global, list: &[u8]) -> Result<Body, NoMemory>
    ensures { IfOk result (λ body. body ≡ Data (Raw list.now ∷ [])) }
{
    let bytes = bytes(alloc, list)?;
    let mut list = Vec::new(alloc);
    list.push(DataPiece::Raw(bytes))?;
    Ok(Body::Data(Pieces { list }))
}

// The arguments of main: the program's name and none.
fn arguments(alloc: Global) -> Result<Body, NoMemory>
    ensures { IfOk result (λ body. body ≡ Data (Address 7 0 ∷ Raw (0 ∷ 0 ∷ 0 ∷ 0 ∷ []) ∷ [])) }
{
    let none = bytes(alloc, &[0, 0, 0, 0])?;
    let mut list = Vec::new(alloc);
    list.push(DataPiece::Address {
        symbol: 7,
        offset: 0,
    })?;
    list.push(DataPiece::Raw(none))?;
    Ok(Body::Data(Pieces { list }))
}

// The symbols up to the use of main.
fn first_symbols(alloc: Global) -> Result<Vec<Symbol>, NoMemory>
    ensures { IfOk result (λ symbols. symbols.items ≡ first_symbols) }
{
    let mut symbols = Vec::new(alloc);
    let code = start_code(alloc)?;
    add_local(
        alloc,
        &mut symbols,
        b"_main",
        Body::Text(TextDef { frame: 8, code }),
    )?;
    let arguments = arguments(alloc)?;
    add_local(alloc, &mut symbols, b"_argv", arguments)?;
    add_main(alloc, &mut symbols)?;
    Ok(symbols)
}

// All symbols.
fn symbols(alloc: Global) -> Result<Vec<Symbol>, NoMemory>
    ensures { IfOk result (λ symbols. symbols.items ≡ builtin_symbols) }
{
    let mut list = first_symbols(alloc)?;
    let end = raw_data(alloc, b"main\0")?;
    add_local(alloc, &mut list, b"_end", end)?;
    add_system(alloc, &mut list, b"exits", 8, b"(*c;)v")?;
    add_system(alloc, &mut list, b"read", 15, b"(i;*v;l;)l")?;
    add_system(alloc, &mut list, b"write", 20, b"(i;*v;l;)l")?;
    let program = raw_data(alloc, b"v.out\0")?;
    add_local(alloc, &mut list, b"_vout", program)?;
    Ok(list)
}

/// The built-in module: the start, which calls `main`, and the functions `exits`, `read` and
/// `write`.
pub fn builtin(alloc: Global) -> Result<AModule, NoMemory>
    ensures exactly { IfOk result (λ m. m ≡ builtin_module) }
    ensures valid { IfOk result IsValid }
    ensures bytes { IfOk result (λ m. data_size m.symbols ≡ 24) }
    ensures words { IfOk result (λ m. weight_with_start m.symbols ≡ 79) }
{
    let list = symbols(alloc)?;
    Ok(AModule {
        symbols: Symbols { list },
    })
}
