// Which two records of one global name do not go together.
ghost use Rattle.std.specs.Prelude.{◌≡◌, ℕ, ◌≤◌, IfSome, sum_by, List, length, take};
ghost use Rattle.p9_abs.specs.Modules.{size_of, piece_size, pieces_size, is_definition, is_text, is_full};
ghost use Rattle.p9_abs.specs.Validity.{HasSizeInRange};
ghost use Rattle.p9_names.specs.Rules.{clash, signatures_differ, sizes_differ, differ, breaks, is_main};

use p9_abs::{Body, DataPiece, Symbol};

/// A rule on two records of one global name.
#[derive(Clone, Copy, Debug, PartialEq, Eq)]
pub enum Rule {
    /// A name is defined once, but for common definitions.
    Once,
    /// Signatures and sizes that are given are the same.
    Agreement,
}

pub(crate) fn is_text(body: &Body) -> bool
    ensures { result ≡ is_text body.now }
{
    match body {
        Body::Text(_) => true,
        _ => false,
    }
}

pub(crate) fn is_full(body: &Body) -> bool
    ensures { result ≡ is_full body.now }
{
    match body {
        Body::Text(_) | Body::Data(_) => true,
        _ => false,
    }
}

pub(crate) fn is_definition(body: &Body) -> bool
    ensures { result ≡ is_definition body.now }
{
    match body {
        Body::Text(_) | Body::Data(_) | Body::Common(_) => true,
        _ => false,
    }
}

pub(crate) fn clash(a: &Body, b: &Body) -> bool
    ensures { result ≡ clash a.now b.now }
{
    match a {
        Body::Text(_) => is_definition(b),
        Body::Data(_) => is_full(b),
        Body::Common(_) => is_text(b),
        _ => false,
    }
}

fn piece_size(piece: &DataPiece) -> usize
    ensures { result ≡ piece_size piece.now }
{
    match piece {
        DataPiece::Raw(bytes) => bytes.list.len(),
        DataPiece::Address { .. } => 4,
    }
}

fn pieces_size(pieces: &[DataPiece]) -> u32
    requires { pieces_size pieces.now ≤ 16777216 }
    ensures { result ≡ pieces_size pieces.now }
{
    let mut size = 0;
    let mut rest = pieces;
    while let [piece, after @ ..] = rest {
        size += piece_size(piece);
        rest = after;
    }
    size as u32
}

fn size_of(body: &Body) -> Option<u32>
    requires { HasSizeInRange body.now }
    ensures { result ≡ size_of body.now }
{
    match body {
        Body::Data(pieces) => Some(pieces_size(&pieces.list)),
        Body::Common(size) => Some(*size),
        _ => None,
    }
}

fn signatures_differ(a: &[u8], b: &[u8]) -> bool
    ensures { result ≡ signatures_differ a.now b.now }
{
    !a.is_empty() && !b.is_empty() && a != b
}

fn sizes_differ(a: Option<u32>, b: Option<u32>) -> bool
    ensures { result ≡ sizes_differ a b }
{
    match (a, b) {
        (Some(a), Some(b)) => a != b,
        _ => false,
    }
}

/// Whether the two records break the rule.
pub(crate) fn breaks(rule: Rule, a: &Symbol, b: &Symbol) -> bool
    requires first { HasSizeInRange a.now.body }
    requires second { HasSizeInRange b.now.body }
    ensures { result ≡ breaks rule a.now b.now }
{
    match rule {
        Rule::Once => clash(&a.body, &b.body),
        Rule::Agreement => {
            signatures_differ(&a.sig.list, &b.sig.list)
                || sizes_differ(size_of(&a.body), size_of(&b.body))
        }
    }
}

/// Whether the record may be the program's main.
pub(crate) fn is_main(symbol: &Symbol) -> bool
    ensures { result ≡ is_main symbol.now }
{
    let sig = symbol.sig.list.as_slice();
    is_text(&symbol.body)
        && (sig.is_empty() || sig == b"()v".as_slice() || sig == b"(i;**c;)v".as_slice())
}
