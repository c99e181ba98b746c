// The numbers of fields, the highest byte first.
ghost use Rattle.std.specs.Prelude.{◌≡◌, length};
ghost use Rattle.p9_object.specs.Bytes.{number_of};

use p9_base::get32;

/// The number of a field of one byte.
#[tactic(auto, using(crate::proofs::Numbers::one_byte))]
pub fn byte(field: &[u8]) -> u8
    requires { length field.now ≡ 1 }
    ensures { result ≡ number_of field.now }
{
    field[0]
}

/// The number of a field of two bytes.
#[tactic(auto, using(crate::proofs::Numbers::two_bytes))]
pub fn half(field: &[u8]) -> u16
    requires { length field.now ≡ 2 }
    ensures { result ≡ number_of field.now }
{
    u16::from(field[0]) * 0x100 + u16::from(field[1])
}

/// The number of a field of four bytes.
#[tactic(auto, using(crate::proofs::Numbers::four_bytes))]
pub fn word(field: &[u8]) -> u32
    requires { length field.now ≡ 4 }
    ensures { result ≡ number_of field.now }
{
    get32(field, 0)
}
