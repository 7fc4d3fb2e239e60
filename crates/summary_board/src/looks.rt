/// How many words and counts were read. It stands still at its type's end.
#[derive(Clone, Copy, Debug)]
pub struct Looks {
    count: u64,
}

impl Looks {
    /// Nothing was read.
    pub fn new() -> Looks {
        Looks { count: 0 }
    }

    /// One more was read.
    pub fn add(&mut self) {
        self.count = self.count.saturating_add(1);
    }

    /// How many were read.
    pub fn count(&self) -> u64 {
        self.count
    }
}
