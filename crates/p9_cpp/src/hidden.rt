// Flags of hidden names, one for each place of the table.
ghost use Rattle.std.specs.Prelude.{◌≡◌};
ghost use Rattle.p9_cpp.specs.Reading.{flag_at, with_flag};

use crate::row::Row;

pub fn is_marked(flags: &Row<bool>, index: usize) -> bool
    ensures { result ≡ flag_at flags.now index }
{
    match flags.as_slice().get(index) {
        Some(flag) => *flag,
        None => false,
    }
}

pub fn mark(flags: &mut Row<bool>, index: usize, flag: bool)
    ensures { flags.new ≡ with_flag flags.old index flag }
{
    if index < flags.len() {
        flags.list[index] = flag;
    }
}
