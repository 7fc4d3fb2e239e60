/// How many values a place asks for.
#[derive(Clone, Copy, Debug, PartialEq, Eq)]
pub enum Ask {
    /// Any number: nothing takes the values, as those of the first expression of a `do`.
    AnyNumber,
    /// This number, and no other.
    Exactly(usize),
}
