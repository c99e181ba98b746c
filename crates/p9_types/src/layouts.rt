/// How many bytes an object of a type has, and what its address is a multiple of.
#[derive(Clone, Copy, PartialEq, Eq, Debug)]
pub struct Layout {
    pub size: u32,
    pub align: u32,
}
