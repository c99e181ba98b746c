// The module of a file: its symbols.
ghost use Rattle.std.specs.Prelude.{◌≡◌, ◌++◌, ◌∷◌, [], map, flat_map, true, IfOk, OnOk, IsTrue, codes};
ghost use Rattle.std.specs.List.{list_any};
ghost use Rattle.p9_first.specs.Form.{is_among};
ghost use Rattle.p9_base.specs.Numbers.{word_bytes};
ghost use Rattle.p9_form.specs.Sharing.{named_by, named_if, names_in};
ghost use Rattle.p9_share.specs.Symbols.{global, is_exits, is_write, used_if, system_symbols, signature_of, body_of, variable_symbol, main_symbol, main_symbols, symbols_of, module_of, used_names};

use p9_abs::{AModule, Abs, Body, Code, DataPiece, Op, Operands, Pieces, Symbol, Symbols, TextDef};
use p9_base::{Bytes, NoMemory};
use p9_form::{Declaration, File, First, Operand, Statement};
use std::alloc::Global;

fn bytes(alloc: Global, list: &[u8]) -> Result<Bytes, NoMemory>
    ensures { IfOk result (λ b. b ≡ list.now) }
{
    Ok(Bytes {
        list: list.to_vec(alloc)?,
    })
}

// A symbol that all modules see.
fn global(alloc: Global, name: &[u8], sig: &[u8], body: Body) -> Result<Symbol, NoMemory>
    ensures { IfOk result (λ symbol. symbol ≡ global name.now sig.now body) }
{
    Ok(Symbol {
        name: bytes(alloc, name)?,
        local: false,
        sig: bytes(alloc, sig)?,
        body,
    })
}

// Names in statements

#[tactic(auto, using(crate::proofs::Names::same_bytes))]
fn is_same(a: &Bytes, b: &Bytes) -> bool
    ensures { result ≡ is_among (b.now ∷ []) a.now }
{
    a == b
}

fn names_operand(operand: &Operand, name: &Bytes) -> bool
    ensures { result ≡ is_among (named_by operand.now) name.now }
{
    match operand {
        Operand::Variable(x) => is_same(name, x),
        Operand::Number(_) => false,
    }
}

fn names_if(operand: &Option<Operand>, name: &Bytes) -> bool
    ensures { result ≡ is_among (named_if operand.now) name.now }
{
    match operand {
        None => false,
        Some(operand) => names_operand(operand, name),
    }
}

#[tactic(auto, using(crate::proofs::Names::named_three))]
fn names_sum(place: &Bytes, left: &Operand, right: &Option<Operand>, name: &Bytes) -> bool
    ensures { result ≡ is_among (place.now ∷ (named_by left.now ++ named_if right.now)) name.now }
{
    let in_sum = names_operand(left, name) | names_if(right, name);
    is_same(name, place) | in_sum
}

fn names_in(statement: &Statement, name: &Bytes) -> bool
    ensures { result ≡ is_among (names_in statement.now) name.now }
{
    match statement {
        Statement::Assign { place, left, right } => names_sum(place, left, right, name),
        Statement::Write { count, .. } => names_operand(count, name),
        Statement::Exits(_) => false,
    }
}

#[tactic(auto, using(crate::proofs::Names::named_first))]
fn is_used(statements: &[Statement], name: &Bytes) -> bool
    ensures { result ≡ is_among (flat_map names_in statements.now) name.now }
{
    let mut rest = statements;
    while let [statement, after @ ..] = rest {
        if names_in(statement, name) {
            return true;
        }
        rest = after;
    }
    false
}

// System calls

fn calls_exits(statements: &[Statement]) -> bool
    ensures { result ≡ list_any is_exits statements.now }
{
    let mut rest = statements;
    while let [statement, after @ ..] = rest {
        if let Statement::Exits(_) = statement {
            return true;
        }
        rest = after;
    }
    false
}

fn calls_write(statements: &[Statement]) -> bool
    ensures { result ≡ list_any is_write statements.now }
{
    let mut rest = statements;
    while let [statement, after @ ..] = rest {
        if let Statement::Write { .. } = statement {
            return true;
        }
        rest = after;
    }
    false
}

// Puts a system call that is used.
fn put_if(
    alloc: Global,
    used: bool,
    name: &[u8],
    sig: &[u8],
    symbols: &mut Vec<Symbol>,
) -> Result<(), NoMemory>
    ensures { OnOk result (symbols.new.items ≡ symbols.old.items ++ used_if used (global name.now sig.now Body.Used)) }
{
    if used {
        symbols.push(global(alloc, name, sig, Body::Used)?)?;
    }
    Ok(())
}

fn put_system(
    alloc: Global,
    statements: &[Statement],
    symbols: &mut Vec<Symbol>,
) -> Result<(), NoMemory>
    ensures { OnOk result (symbols.new.items ≡ symbols.old.items ++ system_symbols statements.now) }
{
    put_if(alloc, calls_exits(statements), b"exits", b"(*c;)v", symbols)?;
    put_if(
        alloc,
        calls_write(statements),
        b"write",
        b"(i;*v;l;)l",
        symbols,
    )
}

// Variables

fn first_data(alloc: Global, value: u32) -> Result<Body, NoMemory>
    ensures { IfOk result (λ body. body ≡ Body.Data (DataPiece.Raw (word_bytes value) ∷ [])) }
{
    let word = bytes(alloc, &value.to_be_bytes())?;
    let mut list = Vec::new(alloc);
    list.push(DataPiece::Raw(word))?;
    Ok(Body::Data(Pieces { list }))
}

fn body_of(alloc: Global, first: &First, used: bool) -> Result<Body, NoMemory>
    ensures { IfOk result (λ body. body ≡ body_of first.now used) }
{
    match first {
        First::Extern => Ok(if used { Body::Used } else { Body::Declared }),
        First::Zero => Ok(Body::Common(4)),
        First::Number(value) => first_data(alloc, *value),
    }
}

fn signature_of(is_long: bool) -> &'static [u8]
    ensures { result.now ≡ signature_of is_long }
{
    if is_long { b"l" } else { b"i" }
}

fn variable(
    alloc: Global,
    statements: &[Statement],
    declaration: &Declaration,
) -> Result<Symbol, NoMemory>
    ensures { IfOk result (λ symbol. symbol ≡ variable_symbol (flat_map names_in statements.now) declaration.now) }
{
    let used = is_used(statements, &declaration.name);
    let body = body_of(alloc, &declaration.first, used)?;
    global(
        alloc,
        &declaration.name.list,
        signature_of(declaration.is_long),
        body,
    )
}

fn put_variables(
    alloc: Global,
    statements: &[Statement],
    declarations: &[Declaration],
    symbols: &mut Vec<Symbol>,
) -> Result<(), NoMemory>
    ensures { OnOk result (symbols.new.items ≡ symbols.old.items ++ map (variable_symbol (flat_map names_in statements.now)) declarations.now) }
{
    for declaration in declarations {
        symbols.push(variable(alloc, statements, declaration)?)?;
    }
    Ok(())
}

// `main`

fn main_body(alloc: Global) -> Result<Body, NoMemory>
    ensures { IfOk result (λ body. body ≡ main_symbol.body) }
{
    let operands = Operands {
        list: Vec::new(alloc),
    };
    let mut list = Vec::new(alloc);
    list.push(Abs {
        op: Op::Ret,
        operands,
    })?;
    Ok(Body::Text(TextDef {
        frame: 0,
        code: Code { list },
    }))
}

fn main_symbol(alloc: Global) -> Result<Symbol, NoMemory>
    ensures { IfOk result (λ symbol. symbol ≡ main_symbol) }
{
    let body = main_body(alloc)?;
    global(alloc, b"main", b"()v", body)
}

fn statements(file: &File) -> &[Statement]
    ensures { result.now ≡ Rattle.p9_form.specs.Sharing.statements file.now.main }
{
    match &file.main {
        None => &[],
        Some(statements) => &statements.list,
    }
}

fn put_main(alloc: Global, file: &File, symbols: &mut Vec<Symbol>) -> Result<(), NoMemory>
    ensures { OnOk result (symbols.new.items ≡ symbols.old.items ++ main_symbols file.now.main) }
{
    if file.main.is_some() {
        symbols.push(main_symbol(alloc)?)?;
    }
    Ok(())
}

/// The module of a file.
pub(crate) fn module_of(alloc: Global, file: &File) -> Result<AModule, NoMemory>
    ensures { IfOk result (λ m. m ≡ module_of file.now) }
{
    let statements = statements(file);
    let mut list = Vec::new(alloc);
    put_system(alloc, statements, &mut list)?;
    put_variables(alloc, statements, &file.before.list, &mut list)?;
    put_main(alloc, file, &mut list)?;
    put_variables(alloc, statements, &file.after.list, &mut list)?;
    Ok(AModule {
        symbols: Symbols { list },
    })
}
