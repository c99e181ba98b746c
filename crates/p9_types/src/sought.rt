// What is looked for in a list.
ghost use Rattle.std.specs.Prelude.{◌≡◌, if◌then◌else◌};
ghost use Rattle.p9_types.specs.Levels.{together};
ghost use Rattle.p9_types.specs.Sightings.{told_sought};

/// Where something stands: nowhere, at one place, or at several.
#[derive(Clone, Copy, Drop, PartialEq, Eq, Debug)]
pub(crate) enum Sought<T> {
    Nowhere,
    One(T),
    Several,
}

impl<T: Copy + Drop> Sought<T> {
    /// Where it stands in two lists together.
    pub(crate) fn and(self, other: Sought<T>) -> Sought<T>
        ensures { told_sought result ≡ together (told_sought self) (told_sought other) }
    {
        match self {
            Sought::Nowhere => other,
            Sought::One(_) => match other {
                Sought::Nowhere => self,
                Sought::One(_) | Sought::Several => Sought::Several,
            },
            Sought::Several => Sought::Several,
        }
    }

    /// Where it stands in a list that is taken once or twice.
    pub(crate) fn repeated(self, twice: bool) -> Sought<T>
        ensures { told_sought result ≡ (if twice then together (told_sought self) (told_sought self) else told_sought self) }
    {
        if twice { self.and(self) } else { self }
    }
}
