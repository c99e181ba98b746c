// From tokens to a file.
ghost use Rattle.std.specs.Prelude.{◌≡◌, ◌≤◌, Some, None, IfOk, IfErr, IfSome, IsSome};
ghost use Rattle.p9_first.specs.Trees.{SyntaxRow};
ghost use Rattle.p9_first.specs.Tokens.{file_tokens};
ghost use Rattle.p9_first.specs.Form.{IsFile};
ghost use Rattle.p9_form.specs.Items.{items_of};
ghost use Rattle.p9_form.specs.Sharing.{IsSmall};
ghost use Rattle.p9_form.specs.Scanning.{seen, weights};
ghost use Rattle.p9_form.specs.Reading.{read_name_of_main, read_head};
ghost use Rattle.p9_form.specs.Found.{IsMainPart, HasNoMainPart, IsWritten, IsNotWritten};
ghost use Rattle.p9_form.specs.declared.parse.cursor.Refusal.TheVariants.{NoForm};

mod cursor;
mod declarations;
mod names;
mod statements;
mod text;

use crate::file::{File, Statements};
use crate::parse::cursor::{Cursor, Refusal};
use crate::parse::declarations::declarations;
use crate::parse::names::Names;
use crate::parse::statements::statements;
use crate::token::Token;
use p9_base::NoMemory;
use std::alloc::Global;

#[tactic(auto, using(crate::proofs::ParseSteps::after_some, crate::proofs::ParseSteps::after_none), unfolding(crate::specs::Reading::read_name_of_main))]
fn name_of_main(cursor: &mut Cursor) -> Result<(), Refusal>
    ensures ok { IfOk result (λ _. read_name_of_main cursor.old ≡ Some cursor.new) }
    ensures err { IfErr result (λ e. e ≡ NoForm → read_name_of_main cursor.old ≡ None) }
{
    cursor.this(b"void")?;
    cursor.this(b"main")
}

// `void main(void) {`
#[tactic(auto, using(crate::proofs::ParseSteps::after_some, crate::proofs::ParseSteps::after_none), unfolding(crate::specs::Reading::read_head))]
fn head(cursor: &mut Cursor) -> Result<(), Refusal>
    ensures ok { IfOk result (λ _. read_head cursor.old ≡ Some cursor.new) }
    ensures err { IfErr result (λ e. e ≡ NoForm → read_head cursor.old ≡ None) }
{
    name_of_main(cursor)?;
    cursor.mark(b'(')?;
    cursor.this(b"void")?;
    cursor.mark(b')')?;
    cursor.mark(b'{')
}

// `main`, unless the end is next.
fn main_part(
    alloc: Global,
    names: &Names,
    cursor: &mut Cursor,
) -> Result<Option<Statements>, Refusal>
    ensures ok { IfOk result (λ main. IsMainPart names.now cursor.old main cursor.new) }
    ensures err { IfErr result (λ e. e ≡ NoForm → HasNoMainPart names.now cursor.old) }
{
    if cursor.at_end() {
        return Ok(None);
    }
    head(cursor)?;
    let list = statements(alloc, names, cursor)?;
    Ok(Some(list))
}

// A whole file.
fn file(alloc: Global, tokens: &[Token]) -> Result<File, Refusal>
    ensures ok { IfOk result (λ file. IsWritten (seen tokens.now) file) }
    ensures err { IfErr result (λ e. e ≡ NoForm → IsNotWritten (seen tokens.now)) }
{
    let mut cursor = Cursor::new(tokens);
    let mut names = Names::new(alloc);
    let before = declarations(alloc, &mut names, &mut cursor)?;
    let main = main_part(alloc, &names, &mut cursor)?;
    let after = declarations(alloc, &mut names, &mut cursor)?;
    if !cursor.at_end() {
        return Err(Refusal::NoForm);
    }
    Ok(File {
        before,
        main,
        after,
    })
}

/// Reads tokens as a file; none where they aren't those of a file of the form.
pub(crate) fn parse(alloc: Global, tokens: &[Token]) -> Result<Option<File>, NoMemory>
    ensures written { IfOk result (λ answer. IfSome answer (λ file. IsFile (items_of file) × (file_tokens (items_of file) ≡ seen tokens.now))) }

    // Every file of the form is read.
    ensures complete { (items : SyntaxRow) → IsFile items → file_tokens items ≡ seen tokens.now → IfOk result (λ answer. IsSome answer) }

    ensures small { IfOk result (λ answer. IfSome answer (λ file. weights (seen tokens.now) ≤ 65536 → IsSmall file)) }
{
    match file(alloc, tokens) {
        Ok(file) => Ok(Some(file)),
        Err(Refusal::NoForm) => Ok(None),
        Err(Refusal::Memory) => Err(NoMemory),
    }
}
