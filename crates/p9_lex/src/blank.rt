// Comments.
ghost use Rattle.std.specs.Prelude.{◌≡◌, ◌+◌, ◌^◌, ◌<◌, ◌≤◌, length};
ghost use Rattle.p9_lex.specs.Blank.{line_comment, block_comment, begins};
ghost use Rattle.p9_lex.specs.Broken.{IsInside};

use crate::broken::{Break, bad_byte, open_comment};

/// The length of a comment that goes to the line's end, of which `from` bytes stand before `rest`.
pub fn line_comment(from: usize, rest: &[u8]) -> Result<usize, Break>
    requires { from + length rest.now < 2 ^ 64 }
    ensures value { result ≡ line_comment from rest.now }
    ensures inside { IsInside from (from + length rest.now) (λ n. n) result }
{
    let mut length = from;
    let mut left = rest;
    while let [b, after @ ..] = left {
        if *b == b'\n' {
            return Ok(length);
        }
        if *b == 0 {
            return Err(bad_byte(length));
        }
        length += 1;
        left = after;
    }
    Ok(length)
}

fn begins(c: u8, rest: &[u8]) -> bool
    ensures { result ≡ begins c rest.now }
{
    match rest {
        [] => false,
        [b, ..] => *b == c,
    }
}

/// The length of a comment in `/*` and `*/`, of which `from` bytes stand before `rest`.
pub fn block_comment(from: usize, rest: &[u8]) -> Result<usize, Break>
    requires { from + length rest.now < 2 ^ 64 }
    ensures value { result ≡ block_comment from rest.now }
    ensures inside { IsInside from (from + length rest.now) (λ n. n) result }
{
    let mut length = from;
    let mut left = rest;
    while let [b, after @ ..] = left {
        if *b == 0 {
            return Err(bad_byte(length));
        }
        if *b == b'*' && begins(b'/', after) {
            return Ok(length + 2);
        }
        length += 1;
        left = after;
    }
    Err(open_comment(length))
}
