// Numbers of a command line.
ghost use Rattle.std.specs.Prelude.{◌≡◌};
ghost use Rattle.p9_suite.specs.CommandLine.{number_of, with_digit};

// The number that a digit makes behind those of `n`.
fn with_digit(n: u32, digit: u8) -> Option<u32>
    ensures { result ≡ with_digit n digit }
{
    if digit < b'0' || digit > b'9' {
        return None;
    }
    let next = u64::from(n) * 10 + u64::from(digit - b'0');
    if next < 0x1_0000_0000 {
        Some(next as u32)
    } else {
        None
    }
}

/// The number of a word of 1 to 10 decimal digits, where it is below 2^32.
pub(crate) fn number(word: &[u8]) -> Option<u32>
    ensures { result ≡ number_of word.now }
{
    if word.is_empty() || word.len() > 10 {
        return None;
    }
    let mut value = 0;
    let mut rest = word;
    while let [digit, after @ ..] = rest {
        let Some(next) = with_digit(value, *digit) else {
            return None;
        };
        value = next;
        rest = after;
    }
    Some(value)
}
