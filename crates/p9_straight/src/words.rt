// Words as bytes.
ghost use Rattle.std.specs.Prelude.{◌≡◌, ◌++◌, OnOk};
ghost use Rattle.p9_base.specs.Numbers.{word_bytes};

use p9_base::{NoMemory, put32};

/// Appends a word, its highest byte first.
pub(crate) fn push_word(out: &mut Vec<u8>, value: u32) -> Result<(), NoMemory>
    ensures { OnOk result (out.new.items ≡ out.old.items ++ word_bytes value) }
{
    let mut word = [0u8; 4];
    put32(&mut word, 0, value);
    out.extend_from_slice(&word)?;
    Ok(())
}
