// What expressions are before the program runs.
use p9_lang::{CType, Ident};

/// What an address is counted from: an object or function of file scope, or a text or block static.
#[derive(Clone, Copy)]
pub enum Base<'a> {
    Outer(&'a Ident),
    Static(u32),
}

/// A number; an address that is moved by an amount, modulo 2^32; or nothing that is fixed.
#[derive(Clone, Copy)]
pub enum Fixed<'a> {
    Number(u32),
    Address { base: Base<'a>, offset: u32 },
    NotFixed,
}

/// An expression: its type, its value, and its address where it is an lvalue or a function.
#[derive(Clone, Copy)]
pub struct FixedPart<'a> {
    pub ty: &'a CType,
    pub value: Fixed<'a>,
    pub address: Fixed<'a>,
}
