ghost use Rattle.std.specs.Prelude.{◌≡◌};
ghost use Rattle.type_kinds_sets.specs.Ends.{at_least, at_most, lower, raised, higher, lowered, low_of, high_of, bottom, top};

/// The lower end of an interval of integers.
#[derive(Clone, Copy, Debug, PartialEq, Eq)]
pub enum Low {
    /// There is no least number.
    Min,
    /// From 0 up.
    Zero,
    /// From 1 up.
    One,
}

/// The upper end of an interval of integers.
#[derive(Clone, Copy, Debug, PartialEq, Eq)]
pub enum High {
    /// Down from -1.
    MinusOne,
    /// Down from 255.
    Byte,
    /// Down from 1114111, the last character of Unicode.
    Unicode,
    /// There is no greatest number.
    Max,
}

impl Low {
    // Whether the number isn't under the end.
    pub(crate) fn admits(self, n: i128) -> bool
        ensures { result ≡ at_least self n }
    {
        match self {
            Low::Min => true,
            Low::Zero => n >= 0,
            Low::One => n >= 1,
        }
    }

    // Whether all that the other end lets in isn't under this one.
    pub(crate) fn holds(self, other: Low) -> bool
        ensures { result ≡ at_least self (bottom other) }
    {
        match (self, other) {
            (Low::Min, _) => true,
            (Low::Zero, Low::Min) => false,
            (Low::Zero, _) => true,
            (Low::One, Low::One) => true,
            (Low::One, _) => false,
        }
    }

    // The one of both that lets in more.
    pub(crate) fn lower(self, other: Low) -> Low
        ensures { result ≡ lower self other }
    {
        match (self, other) {
            (Low::Min, _) | (_, Low::Min) => Low::Min,
            (Low::Zero, _) | (_, Low::Zero) => Low::Zero,
            _ => Low::One,
        }
    }

    // The one of both that lets in fewer.
    pub(crate) fn raised(self, other: Low) -> Low
        ensures { result ≡ raised self other }
    {
        match (self, other) {
            (Low::One, _) | (_, Low::One) => Low::One,
            (Low::Zero, _) | (_, Low::Zero) => Low::Zero,
            _ => Low::Min,
        }
    }

    // The nearest end under a number.
    pub(crate) fn of(n: i128) -> Low
        ensures { result ≡ low_of n }
    {
        if n < 0 {
            Low::Min
        } else if n < 1 {
            Low::Zero
        } else {
            Low::One
        }
    }
}

impl High {
    // Whether the number isn't over the end.
    pub(crate) fn admits(self, n: i128) -> bool
        ensures { result ≡ at_most self n }
    {
        match self {
            High::MinusOne => n < 0,
            High::Byte => n < 256,
            High::Unicode => n < 1114112,
            High::Max => true,
        }
    }

    // Whether all that the other end lets in isn't over this one.
    pub(crate) fn holds(self, other: High) -> bool
        ensures { result ≡ at_most self (top other) }
    {
        match (self, other) {
            (High::Max, _) => true,
            (High::Unicode, High::Max) => false,
            (High::Unicode, _) => true,
            (High::Byte, High::MinusOne | High::Byte) => true,
            (High::MinusOne, High::MinusOne) => true,
            _ => false,
        }
    }

    // The one of both that lets in more.
    pub(crate) fn higher(self, other: High) -> High
        ensures { result ≡ higher self other }
    {
        match (self, other) {
            (High::Max, _) | (_, High::Max) => High::Max,
            (High::Unicode, _) | (_, High::Unicode) => High::Unicode,
            (High::Byte, _) | (_, High::Byte) => High::Byte,
            _ => High::MinusOne,
        }
    }

    // The one of both that lets in fewer.
    pub(crate) fn lowered(self, other: High) -> High
        ensures { result ≡ lowered self other }
    {
        match (self, other) {
            (High::MinusOne, _) | (_, High::MinusOne) => High::MinusOne,
            (High::Byte, _) | (_, High::Byte) => High::Byte,
            (High::Unicode, _) | (_, High::Unicode) => High::Unicode,
            _ => High::Max,
        }
    }

    // The nearest end over a number.
    pub(crate) fn of(n: i128) -> High
        ensures { result ≡ high_of n }
    {
        if n < 0 {
            High::MinusOne
        } else if n < 256 {
            High::Byte
        } else if n < 1114112 {
            High::Unicode
        } else {
            High::Max
        }
    }
}
