// Files behind options. The type stands by itself, since definitions speak of it.
ghost use Rattle.std.specs.Prelude.{◌≤◌, length};

use p9_base::Name;

/// Files, and the name by which what is made of them is written.
#[derive(Clone, Copy)]
pub(crate) struct Named<'a> {
    pub(crate) output: &'a [u8],
    pub(crate) files: &'a [Name],
    ghost few: { length files.now ≤ 256 },
}
