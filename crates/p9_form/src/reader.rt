// The reader of a file of the form.
ghost use Rattle.std.specs.Prelude.{◌≡◌, Ok, None, IfOk, IfSome};
ghost use Rattle.p9_form.specs.Items.{items_of};
ghost use Rattle.p9_form.specs.Spelling.{HasForm, HasNoForm};
ghost use Rattle.p9_form.specs.Sharing.{IsSmall};

use crate::file::File;
use crate::parse::parse;
use crate::scan::scan;
use p9_base::{Bytes, NoMemory};
use std::alloc::Global;

const MAX_BYTES: usize = 65536;

/// Reads a file; none where the bytes don't have the form.
pub fn read_file(alloc: Global, bytes: &Bytes) -> Result<Option<File>, NoMemory>
    ensures form { IfOk result (λ answer. IfSome answer (λ file. HasForm bytes.now (items_of file))) }
    ensures small { IfOk result (λ answer. IfSome answer (λ file. IsSmall file)) }
    ensures no_form { result ≡ Ok None → HasNoForm bytes.now }
{
    if bytes.list.len() > MAX_BYTES {
        return Ok(None);
    }
    let Some(tokens) = scan(alloc, bytes.list.as_slice())? else {
        return Ok(None);
    };
    parse(alloc, tokens.list.as_slice())
}
