// How names and signatures are spelled.
ghost use Rattle.std.specs.Prelude.{◌↔◌, IsTrue};
ghost use Rattle.p9_abs.specs.Validity.{IsGraphic, IsName, IsSignature, IsBoundWell};
ghost use Rattle.p9_obj.specs.Rules.{IsSignatureByte};

use p9_abs::{Body, Symbol};

fn is_graphic(byte: u8) -> bool
    ensures { IsTrue result ↔ IsGraphic byte }
{
    byte >= 33 && byte <= 126
}

/// Whether the bytes are a name: 1 to 255 bytes that show, none of them a blank.
pub(crate) fn is_name(name: &[u8]) -> bool
    ensures { IsTrue result ↔ IsName name.now }
{
    !name.is_empty() && name.len() <= 255 && name.iter().all(|b| is_graphic(*b))
}

fn is_signature_byte(byte: u8) -> bool
    ensures { IsTrue result ↔ IsSignatureByte byte }
{
    byte >= 33 && byte <= 126 && byte != 34 && byte != 92
}

/// Whether the bytes are a signature: at most 65,536 of those that a signature may have.
pub(crate) fn is_signature(sig: &[u8]) -> bool
    ensures { IsTrue result ↔ IsSignature sig.now }
{
    sig.len() <= 65536 && sig.iter().all(|b| is_signature_byte(*b))
}

/// Whether the symbol, where it is local, is a definition with no signature.
pub(crate) fn is_bound_well(symbol: &Symbol) -> bool
    ensures { IsTrue result ↔ IsBoundWell symbol.now }
{
    if !symbol.local {
        return true;
    }
    match &symbol.body {
        Body::Text(_) | Body::Data(_) | Body::Common(_) => symbol.sig.list.is_empty(),
        _ => false,
    }
}
