// How many instructions `main` has, and where its parts begin.
ghost use Rattle.std.specs.Prelude.{◌≡◌, ◌<◌, ◌≤◌, ◌+◌, ◌*◌, ◌^◌, [], All, MatchOption, length, flat_map};
ghost use Rattle.p9_r3k.specs.Memory.{text_start};
ghost use Rattle.p9_r3k.specs.Start.{page_from};
ghost use Rattle.p9_form.specs.Sharing.{initial_in, declared_data, statements, statements_data, IsSmall};
ghost use Rattle.p9_straight.specs.Layout.{variables_of, texts_at};
ghost use Rattle.p9_straight.specs.Code.{main_of, code_size};
ghost use Rattle.p9_straight.specs.Building.{load_count, assign_count, statement_count};

use p9_form::{Declaration, Declarations, File, First, Operand, Statement, Statements};

/// The address of the text.
pub(crate) const TEXT_START: u32 = 0x1020;

// How many instructions load an operand.
fn load_count(operand: &Operand) -> usize
    ensures { result ≡ load_count operand.now }
{
    match operand {
        Operand::Variable(_) => 4,
        Operand::Number(_) => 2,
    }
}

// How many instructions an assignment has.
fn assign_count(left: &Operand, right: &Option<Operand>) -> usize
    ensures { result ≡ assign_count left.now right.now }
{
    match right {
        None => load_count(left) + 3,
        Some(right) => load_count(left) + load_count(right) + 4,
    }
}

// How many instructions a statement has.
fn statement_count(statement: &Statement) -> usize
    ensures { result ≡ statement_count statement.now }
{
    match statement {
        Statement::Assign { left, right, .. } => assign_count(left, right),
        Statement::Write { count, .. } => load_count(count) + 8,
        Statement::Exits(None) => 3,
        Statement::Exits(Some(_)) => 5,
    }
}

/// How many bytes the code of `main` has.
pub(crate) fn code_size(statements: &[Statement]) -> usize
    requires { length statements.now ≤ 65536 }
    ensures exact { result ≡ code_size statements.now }
    ensures small { result < 2 ^ 22 }
{
    let mut count = 6;
    let mut rest = statements;
    while let [statement, after @ ..] = rest {
        count += statement_count(statement);
        rest = after;
    }
    4 * count
}

/// The statements of the one `main`; none where there is no `main`.
pub(crate) fn main_of(files: &[File]) -> Option<&Statements>
    ensures { MatchOption result (main_of files.now ≡ []) (λ statements. main_of files.now ≡ statements.now) }
{
    let mut rest = files;
    while let [file, after @ ..] = rest {
        if let Some(statements) = &file.main {
            return Some(statements);
        }
        rest = after;
    }
    None
}

/// Where the data of a program with this `main` begin: on the page behind its code.
pub(crate) fn data_start(statements: &[Statement]) -> u32
    requires { length statements.now ≤ 65536 }
    ensures exact { result ≡ page_from (text_start + code_size statements.now) }
    ensures small { result < 2 ^ 23 }
{
    let end = TEXT_START + code_size(statements) as u32;
    (end + 4095) / 4096 * 4096
}

// How many first values declarations give.
fn values_count(declarations: &Declarations) -> u32
    requires { declared_data declarations.now < 2 ^ 32 }
    ensures exact { result ≡ length (flat_map initial_in declarations.now) }
    ensures small { 4 * result ≤ declared_data declarations.now }
{
    let mut count = 0;
    let mut rest = declarations.list.as_slice();
    while let [declaration, after @ ..] = rest {
        count += value_count(declaration);
        rest = after;
    }
    count
}

// How many first values a declaration gives.
fn value_count(declaration: &Declaration) -> u32
    ensures { result ≡ length (initial_in declaration.now) }
{
    match declaration.first {
        First::Number(_) => 1,
        _ => 0,
    }
}

// How many bytes the variables of a file have that are given first values.
fn variables_size(file: &File) -> u32
    requires { IsSmall file.now }
    ensures exact { result ≡ 4 * length (variables_of file.now) }
    ensures small { result + statements_data (statements file.now.main) ≤ 131072 }
{
    4 * (values_count(&file.before) + values_count(&file.after))
}

/// Where the texts of `main` lie, where the data of files begin at this address.
pub(crate) fn texts_at(at: u32, files: &[File]) -> u32
    requires files { All IsSmall files.now }
    requires room { at + 131072 * length files.now < 2 ^ 32 }
    ensures exact { result ≡ texts_at at files.now }
    ensures small { result + statements_data (main_of files.now) ≤ at + 131072 * length files.now }
{
    let mut here = at;
    let mut rest = files;
    while let [file, after @ ..] = rest {
        here += variables_size(file);
        if file.main.is_some() {
            return here;
        }
        rest = after;
    }
    here
}

/// The statements of the one `main`.
pub(crate) fn main_statements(files: &[File]) -> &[Statement]
    ensures { result.now ≡ main_of files.now }
{
    match main_of(files) {
        None => &[],
        Some(statements) => &statements.list,
    }
}
