/// A cell of an object as it is made: a byte, or a part of the address of a symbol, which is moved by
/// `offset` bytes. The parts of an address are 0 to 3.
#[derive(Clone, Copy)]
pub(crate) enum InitCell {
    Byte(u8),
    Part { part: u8, symbol: u32, offset: u32 },
}
