// What `run` is asked for. It stands by itself, since definitions speak of it.
ghost use Rattle.std.specs.Prelude.{◌≤◌, length};

use p9_base::Name;

/// The files are compiled, the executable is written by the name `output`, and simulated for at most
/// `budget` instructions.
#[derive(Clone, Copy)]
pub(crate) struct Run<'a> {
    pub(crate) budget: u32,
    pub(crate) output: &'a [u8],
    pub(crate) files: &'a [Name],
    ghost few: { length files.now ≤ 16 },
}
