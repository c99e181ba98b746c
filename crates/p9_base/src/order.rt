// Half words and words in lists of bytes, by the order of their bytes.
ghost use Rattle.std.specs.Prelude.{◌≡◌, ◌+◌, ◌≤◌, length};
ghost use Rattle.p9_base.specs.Core.{half_in, word_in, with_two, with_four, with_half_in, with_word_in};

/// Which byte of a half word or word lies at the lowest address: the highest, or the lowest.
#[derive(Clone, Copy, PartialEq, Eq, Debug)]
pub enum ByteOrder {
    Big,
    Little,
}

impl ByteOrder {
    /// The half word of the two bytes from `at` on.
    #[inline(always)]
    pub fn half(self, bytes: &[u8], at: usize) -> u32
        requires { at + 2 ≤ length bytes.now }
        ensures { result ≡ half_in self bytes.now at }
    {
        let first = u32::from(bytes[at]);
        let second = u32::from(bytes[at + 1]);
        match self {
            ByteOrder::Big => first * 0x100 + second,
            ByteOrder::Little => second * 0x100 + first,
        }
    }

    /// The word of the four bytes from `at` on.
    #[tactic(auto, using(crate::proofs::Orders::big_word_read, crate::proofs::Orders::little_word_read))]
    #[inline(always)]
    pub fn word(self, bytes: &[u8], at: usize) -> u32
        requires { at + 4 ≤ length bytes.now }
        ensures { result ≡ word_in self bytes.now at }
    {
        let mut word = [0; 4];
        word.copy_from_slice(&bytes[at..at + 4]);
        match self {
            ByteOrder::Big => u32::from_be_bytes(word),
            ByteOrder::Little => u32::from_le_bytes(word),
        }
    }

    /// Writes a half word into the two bytes from `at` on.
    #[inline(always)]
    pub fn set_half(self, bytes: &mut [u8], at: usize, half: u32)
        requires { at + 2 ≤ length bytes.old }
        ensures { bytes.new ≡ with_half_in self bytes.old at half }
    {
        let high = (half / 0x100 % 0x100) as u8;
        let low = (half % 0x100) as u8;
        match self {
            ByteOrder::Big => set_two(bytes, at, high, low),
            ByteOrder::Little => set_two(bytes, at, low, high),
        }
    }

    /// Writes a word into the four bytes from `at` on.
    #[inline(always)]
    pub fn set_word(self, bytes: &mut [u8], at: usize, word: u32)
        requires { at + 4 ≤ length bytes.old }
        ensures { bytes.new ≡ with_word_in self bytes.old at word }
    {
        let first = (word / 0x100_0000 % 0x100) as u8;
        let second = (word / 0x1_0000 % 0x100) as u8;
        let third = (word / 0x100 % 0x100) as u8;
        let fourth = (word % 0x100) as u8;
        match self {
            ByteOrder::Big => set_four(bytes, at, first, second, third, fourth),
            ByteOrder::Little => set_four(bytes, at, fourth, third, second, first),
        }
    }
}

#[inline(always)]
fn set_two(bytes: &mut [u8], at: usize, first: u8, second: u8)
    requires { at + 2 ≤ length bytes.old }
    ensures { bytes.new ≡ with_two bytes.old at first second }
{
    bytes[at] = first;
    bytes[at + 1] = second;
}

#[inline(always)]
fn set_four(bytes: &mut [u8], at: usize, first: u8, second: u8, third: u8, fourth: u8)
    requires { at + 4 ≤ length bytes.old }
    ensures { bytes.new ≡ with_four bytes.old at first second third fourth }
{
    bytes[at] = first;
    bytes[at + 1] = second;
    bytes[at + 2] = third;
    bytes[at + 3] = fourth;
}
