// What a field makes of a place in a symbol before its body.
ghost use Rattle.std.specs.Prelude.{◌≡◌, ◌&&◌, [], ◌∷◌, not, IfOk};
ghost use Rattle.std.specs.List.{list_all, list_any};
ghost use Rattle.p9_abs.specs.declared.modules.Body.{Body};
ghost use Rattle.p9_object.specs.Fields.{Byte, Half, Word};
ghost use Rattle.p9_object.specs.Machine.{stay_if, is_graphic, is_of_signature, is_named, symbol_with, with_signature, kind_among, all_kinds, kind_step, defines, symbol_step, AtBinding, AtNameLength, AtSignatureLength, AtFrame, AtSize};
ghost use Rattle.p9_steps.specs.Places.{kind, head, symbol_place, symbol_turn};
ghost use Rattle.p9_steps.specs.Heads.{kind_option, name_read, signature_read};

use crate::places::{Found, Head, Kind, SymbolPlace, SymbolTurn};
use p9_abs::{Body, Symbol};
use p9_base::{Bytes, Name, NoMemory};
use std::alloc::Global;

fn is_graphic(byte: u8) -> bool
    ensures { result ≡ is_graphic byte }
{
    byte >= 33 && byte <= 126
}

fn is_of_signature(byte: u8) -> bool
    ensures { result ≡ is_of_signature byte }
{
    is_graphic(byte) && byte != 34 && byte != 92
}

fn are_graphic(bytes: &[u8]) -> bool
    ensures { result ≡ list_all is_graphic bytes.now }
{
    bytes.iter().all(|byte| is_graphic(*byte))
}

fn are_of_signature(bytes: &[u8]) -> bool
    ensures { result ≡ list_all is_of_signature bytes.now }
{
    bytes.iter().all(|byte| is_of_signature(*byte))
}

fn stay_if(goes: bool, place: SymbolPlace) -> SymbolTurn
    ensures { symbol_turn result ≡ stay_if goes (symbol_place place) }
{
    if goes {
        SymbolTurn::Stay(place)
    } else {
        SymbolTurn::Bad
    }
}

/// The symbol of a head and a body.
pub(crate) fn symbol_with(of: Head, body: Body) -> Symbol
    ensures { result ≡ symbol_with (head of) body }
{
    Symbol {
        name: of.name,
        local: of.local,
        sig: of.sig,
        body,
    }
}

pub(crate) fn binding_step(binding: u8) -> SymbolTurn
    ensures { symbol_turn result ≡ symbol_step 0 [] AtBinding (Byte binding) }
{
    match binding {
        0 => SymbolTurn::Stay(SymbolPlace::Kind(false)),
        1 => SymbolTurn::Stay(SymbolPlace::Kind(true)),
        _ => SymbolTurn::Bad,
    }
}

fn kind_of(number: u8) -> Option<Kind>
    ensures { kind_option result ≡ kind_among all_kinds number }
{
    match number {
        0 => Some(Kind::Declared),
        1 => Some(Kind::Used),
        2 => Some(Kind::Text),
        3 => Some(Kind::Data),
        4 => Some(Kind::Common),
        _ => None,
    }
}

fn defines(of: Kind) -> bool
    ensures { result ≡ defines (kind of) }
{
    match of {
        Kind::Declared | Kind::Used => false,
        Kind::Text | Kind::Data | Kind::Common => true,
    }
}

pub(crate) fn kind_step(local: bool, number: u8) -> SymbolTurn
    ensures { symbol_turn result ≡ kind_step local (kind_among all_kinds number) }
{
    match kind_of(number) {
        None => SymbolTurn::Bad,
        Some(found) => stay_if(
            !local || defines(found),
            SymbolPlace::NameLength(local, found),
        ),
    }
}

pub(crate) fn name_length_step(local: bool, of: Kind, size: u16) -> SymbolTurn
    ensures { symbol_turn result ≡ symbol_step 0 [] (AtNameLength local (kind of)) (Half size) }
{
    stay_if(size > 0 && size <= 255, SymbolPlace::Name(local, of, size))
}

fn is_new(found: &Found, local: bool, name: &Name) -> bool
    ensures { result ≡ not (list_any (is_named local name.now) found.now.symbols) }
{
    !found.names.has(local, name)
}

pub(crate) fn name_step(
    alloc: Global,
    found: &Found,
    local: bool,
    of: Kind,
    field: &[u8],
) -> Result<SymbolTurn, NoMemory>
    ensures { IfOk result (λ turn. symbol_turn turn ≡ name_read found.now.symbols local (kind of) field.now) }
{
    let list = Vec::from_slice(alloc, field)?;
    let name = Name { list };
    let goes = are_graphic(field) && is_new(found, local, &name);
    Ok(stay_if(goes, SymbolPlace::SignatureLength(local, of, name)))
}

fn with_signature(of: Head) -> SymbolTurn
    ensures { symbol_turn result ≡ with_signature of.local (kind of.kind) of.name of.sig }
{
    match of.kind {
        Kind::Declared => SymbolTurn::Whole(symbol_with(of, Body::Declared)),
        Kind::Used => SymbolTurn::Whole(symbol_with(of, Body::Used)),
        Kind::Text => SymbolTurn::Stay(SymbolPlace::Frame(of)),
        Kind::Data => SymbolTurn::Stay(SymbolPlace::Pieces(of)),
        Kind::Common => SymbolTurn::Stay(SymbolPlace::Size(of)),
    }
}

pub(crate) fn signature_length_step(
    alloc: Global,
    local: bool,
    of: Kind,
    name: Name,
    size: u32,
) -> SymbolTurn
    ensures { symbol_turn result ≡ symbol_step 0 [] (AtSignatureLength local (kind of) name) (Word size) }
{
    if size == 0 {
        let sig = Bytes {
            list: Vec::new(alloc),
        };
        with_signature(Head {
            local,
            kind: of,
            name,
            sig,
        })
    } else {
        stay_if(
            !local && size <= 65536,
            SymbolPlace::Signature(local, of, name, size),
        )
    }
}

pub(crate) fn signature_step(
    alloc: Global,
    local: bool,
    of: Kind,
    name: Name,
    field: &[u8],
) -> Result<SymbolTurn, NoMemory>
    ensures { IfOk result (λ turn. symbol_turn turn ≡ signature_read local (kind of) name field.now) }
{
    if are_of_signature(field) {
        let sig = Bytes {
            list: Vec::from_slice(alloc, field)?,
        };
        Ok(with_signature(Head {
            local,
            kind: of,
            name,
            sig,
        }))
    } else {
        Ok(SymbolTurn::Bad)
    }
}

pub(crate) fn frame_step(of: Head, frame: u32) -> SymbolTurn
    ensures { symbol_turn result ≡ symbol_step 0 [] (AtFrame (head of)) (Word frame) }
{
    stay_if(
        frame % 4 == 0 && frame <= 16777212,
        SymbolPlace::Total(of, frame),
    )
}

pub(crate) fn size_step(of: Head, size: u32) -> SymbolTurn
    ensures { symbol_turn result ≡ symbol_step 0 [] (AtSize (head of)) (Word size) }
{
    if size > 0 && size <= 16777216 {
        SymbolTurn::Whole(symbol_with(of, Body::Common(size)))
    } else {
        SymbolTurn::Bad
    }
}
