/// A type has the tuples of at most this many sizes, or all tuples.
pub const MAX_SIZES: usize = 8;

/// A size has tuples of at most this many elements. Longer tuples are in the types that have all
/// tuples.
pub const MAX_ELEMENTS: usize = 64;
