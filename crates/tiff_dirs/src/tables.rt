//! Where the offsets and lengths of picture ranges stand.

/// Numbers of a file, one after another.
#[derive(Clone, Copy)]
pub struct Table {
    pub start: u64,
    /// The bytes of each number.
    pub width: u64,
}

/// Offsets, and as many lengths.
#[derive(Clone, Copy)]
pub struct Pair {
    /// Where the entry of the offsets stands.
    pub place: u64,
    pub offsets: Table,
    pub lens: Table,
    pub count: u64,
}

/// A pair, and the indices of the pieces that have its offsets and its lengths.
#[derive(Clone, Copy)]
pub struct PlacedPair {
    pub pair: Pair,
    pub offsets: usize,
    pub lens: usize,
}

/// A pair that names so many ranges, after so many of the pairs before it.
#[derive(Clone, Copy)]
pub struct CountedPair {
    pub placed: PlacedPair,
    pub first: u64,
    pub shown: u64,
}

/// The pairs of a file, which name so many ranges in all.
#[derive(Drop)]
pub struct Pairs {
    pub list: Vec<CountedPair>,
    pub total: u64,
}
