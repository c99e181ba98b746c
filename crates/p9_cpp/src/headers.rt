// The headers that are built in.
ghost use Rattle.std.specs.Prelude.{◌≡◌, Some, None, MatchOption};
ghost use Rattle.p9_cpp.specs.Headers.{header};

use p9_base::Name;

const U_H: &[u8] =
    b"typedef unsigned char uchar; typedef signed char schar; typedef unsigned short ushort; typedef unsigned int uint; typedef unsigned long ulong;\n#define nil ((void*)0)\n";

const LIBC_H: &[u8] =
    b"extern void exits(char*); extern long read(int, void*, long); extern long write(int, void*, long);\n";

/// The text of a built-in header, which is included between `<` and `>`.
#[tactic(auto, unfolding(crate::specs::Headers::header))]
pub fn header(angled: bool, name: &Name) -> Option<&'static [u8]>
    ensures { MatchOption result (header angled name.now ≡ None) (λ text. header angled name.now ≡ Some text.now) }
{
    if !angled {
        return None;
    }
    if name.list.as_slice() == b"u.h".as_slice() {
        return Some(U_H);
    }
    if name.list.as_slice() == b"libc.h".as_slice() {
        return Some(LIBC_H);
    }
    None
}
