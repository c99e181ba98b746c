// Sizes and alignments, where all sizes above the limit count as alike.
ghost use Rattle.std.specs.Prelude.{◌≡◌, ◌≤◌, Some};
ghost use Rattle.p9_types.specs.Capping.{capped, Alike, AreAlike};
ghost use Rattle.p9_lang.specs.Layout.{scalar, repeated, rounded, member_offset, with_member, closed, nothing_yet};

// One byte more than any type may have.
const CAP: u32 = 16_777_217;

/// A size, told exactly up to the limit and as one byte more beyond it, and an alignment.
#[derive(Clone, Copy)]
pub(crate) struct Capped {
    pub(crate) size: u32,
    pub(crate) align: u32,
    ghost cut: { size ≤ 16777217 },
    ghost aligned: { 1 ≤ align },
    ghost small: { align ≤ 4 },
}

/// The number, or one more than the limit where it is larger.
pub(crate) fn capped_number(n: u64) -> u32
    ensures value { result ≡ capped n }
    ensures cut { result ≤ 16777217 }
{
    n.min(u64::from(CAP)) as u32
}

impl Capped {
    ghost use Rattle.p9_types.specs.Told.{told, told_option};

    /// No members yet.
    pub(crate) fn nothing() -> Capped
        ensures { told result ≡ nothing_yet }
    {
        Capped { size: 0, align: 1 }
    }

    /// A number or a pointer.
    pub(crate) fn scalar(size: u32) -> Capped
        requires from { 1 ≤ size }
        requires to { size ≤ 4 }
        ensures { Some (told result) ≡ scalar size }
    {
        Capped { size, align: size }
    }

    /// An array of this; without a length it has no extent.
    pub(crate) fn repeated(self, count: u32) -> Option<Capped>
        ensures { Alike (told_option result) (repeated count (told self)) }
    {
        if count == 0 {
            return None;
        }
        Some(Capped {
            size: capped_number(u64::from(self.size) * u64::from(count)),
            align: self.align,
        })
    }

    /// Where a member begins that comes behind this.
    pub(crate) fn offset_of(self, is_union: bool, member: Capped) -> u32
        ensures value { result ≡ member_offset is_union (told self) (told member) }
        ensures cut { result ≤ 16777220 }
    {
        if is_union {
            0
        } else {
            rounded(self.size, member.align)
        }
    }

    /// This with one member more.
    pub(crate) fn with_member(self, is_union: bool, member: Capped) -> Capped
        ensures { AreAlike (told result) (with_member is_union (told self) (told member)) }
    {
        let end = self.offset_of(is_union, member) + member.size;
        Capped {
            size: capped_number(u64::from(self.size.max(end))),
            align: self.align.max(member.align),
        }
    }

    /// This as a whole, which is filled up at its end.
    pub(crate) fn closed(self) -> Capped
        ensures { AreAlike (told result) (closed (told self)) }
    {
        Capped {
            size: capped_number(u64::from(rounded(self.size, self.align))),
            align: self.align,
        }
    }
}

// The next multiple of an alignment.
fn rounded(n: u32, align: u32) -> u32
    requires cut { n ≤ 16777217 }
    requires aligned { 1 ≤ align }
    requires small { align ≤ 4 }
    ensures value { result ≡ rounded n align }
    ensures cut { result ≤ 16777220 }
{
    (n + (align - 1)) / align * align
}
