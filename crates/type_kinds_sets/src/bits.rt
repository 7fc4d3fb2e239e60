ghost use Rattle.std.specs.Prelude.{◌≡◌, ◌↔◌, ◌&&◌, ℕ, IsTrue};
ghost use Rattle.type_kinds_sets.specs.BitLengths.{has, Below, meet, join};

/// A set of bit strings, told by their lengths.
#[derive(Clone, Copy, Debug, PartialEq, Eq)]
pub enum Bits {
    /// No bit string.
    No,
    /// Those of a whole number of bytes.
    Whole,
    /// Every bit string.
    Any,
}

impl Bits {
    /// Whether each bit string of this set is in the other. Takes no memory.
    pub fn leq(&self, other: &Bits) -> bool
        ensures { IsTrue result ↔ Below self.now other.now }
    {
        match self {
            Bits::No => true,
            Bits::Whole => match other {
                Bits::No => false,
                Bits::Whole | Bits::Any => true,
            },
            Bits::Any => match other {
                Bits::No => false,
                Bits::Whole => false,
                Bits::Any => true,
            },
        }
    }

    /// The bit strings of both sets. Takes no memory.
    pub fn meet(&self, other: &Bits) -> Bits
        ensures value { result ≡ meet self.now other.now }
        ensures both { (n : ℕ) → has result n ≡ (has self.now n && has other.now n) }
    {
        match (self, other) {
            (Bits::No, _) | (_, Bits::No) => Bits::No,
            (Bits::Whole, _) | (_, Bits::Whole) => Bits::Whole,
            _ => Bits::Any,
        }
    }

    /// The least of the three sets that has the bit strings of both. Takes no memory.
    pub fn join(&self, other: &Bits) -> Bits
        ensures value { result ≡ join self.now other.now }
        ensures left { Below self.now result }
        ensures right { Below other.now result }
        ensures least { (u : Bits) → Below self.now u → Below other.now u → Below result u }
    {
        match (self, other) {
            (Bits::Any, _) | (_, Bits::Any) => Bits::Any,
            (Bits::Whole, _) | (_, Bits::Whole) => Bits::Whole,
            _ => Bits::No,
        }
    }
}
