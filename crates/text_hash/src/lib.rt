//! The seed of the hashes of texts.
#![tactic(auto)]

use std::hash::{BuildHasher, DefaultHasher, Hasher};

/// The seed of the hashes of texts. Each run draws one, so nobody can choose texts that share a hash. No answer depends on it.
#[derive(Clone, Copy)]
pub struct Seed {
    start: DefaultHasher,
}

impl Seed {
    /// Makes a seed from a drawn number. Does not allocate.
    pub fn new(drawn: u128) -> Seed {
        let mut start = DefaultHasher::new();
        start.write(&drawn.to_le_bytes());
        Seed { start }
    }
}

impl BuildHasher for Seed {
    type Hasher = DefaultHasher;

    ghost build_hasher = { λ seed. seed.start };

    fn build_hasher(&self) -> DefaultHasher {
        self.start
    }
}
