// The characters of texts.
ghost use Rattle.std.specs.Prelude.{◌≡◌};
ghost use Rattle.std.specs.List.{list_all};
ghost use Rattle.p9_first.specs.Form.{is_text_byte};

use p9_base::Bytes;

// From the space to the tilde, but for the quotation mark and the backslash; or a newline.
fn is_text_byte(b: u8) -> bool
    ensures { result ≡ is_text_byte b }
{
    (b' ' <= b && b <= b'~' && b != b'"' && b != b'\\') || b == b'\n'
}

/// Whether the bytes may stand in a text.
pub(crate) fn is_text(bytes: &Bytes) -> bool
    ensures { result ≡ list_all is_text_byte bytes.now }
{
    bytes.list.iter().all(|b| is_text_byte(*b))
}
