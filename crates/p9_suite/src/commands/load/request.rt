// What `vl`, `build` and `run` of assembler files and objects are asked for. It stands by itself, since
// definitions speak of it.
ghost use Rattle.std.specs.Prelude.{◌≤◌, length};

use p9_base::Name;

/// The files are loaded, the executable is written by the name `output`, and simulated for at most
/// `budget` instructions where there is a budget.
#[derive(Clone, Copy)]
pub(crate) struct Load<'a> {
    /// Whether a name that ends in `.s` is that of an assembler file. Any other file is an object.
    pub(crate) by_name: bool,
    pub(crate) budget: Option<u32>,
    pub(crate) output: &'a [u8],
    pub(crate) files: &'a [Name],
    ghost few: { length files.now ≤ 256 },
}
