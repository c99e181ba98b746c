// The classes of bytes.
ghost use Rattle.std.specs.Prelude.{◌≡◌, ◌≤◌};
ghost use Rattle.p9_lex.specs.Classes.{is_newline, is_blank, is_digit, is_name_start, is_name_byte, digit_value, is_digit_of};

pub fn is_newline(b: u8) -> bool
    ensures { result ≡ is_newline b }
{
    b == b'\n'
}

pub fn is_blank(b: u8) -> bool
    ensures { result ≡ is_blank b }
{
    b == b' ' || b == b'\t' || b == b'\r' || b == b'\x0C'
}

pub fn is_digit(b: u8) -> bool
    ensures { result ≡ is_digit b }
{
    b'0' <= b && b <= b'9'
}

pub fn is_name_start(b: u8) -> bool
    ensures { result ≡ is_name_start b }
{
    b'a' <= b && b <= b'z' || b'A' <= b && b <= b'Z' || b == b'_'
}

pub fn is_name_byte(b: u8) -> bool
    ensures { result ≡ is_name_byte b }
{
    is_name_start(b) || is_digit(b)
}

pub fn digit_value(b: u8) -> u32
    ensures value { result ≡ digit_value b }
    ensures small { result ≤ 16 }
{
    if b'0' <= b && b <= b'9' {
        u32::from(b - b'0')
    } else if b'a' <= b && b <= b'f' {
        u32::from(b - b'a') + 10
    } else if b'A' <= b && b <= b'F' {
        u32::from(b - b'A') + 10
    } else {
        16
    }
}

pub fn is_digit_of(base: u32, b: u8) -> bool
    ensures { result ≡ is_digit_of base b }
{
    digit_value(b) < base
}
