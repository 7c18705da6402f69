use std::hash::{BuildHasher, DefaultHasher, Hasher};

/// By what texts are hashed. Strangers choose the texts of a log: who knows the key can choose many that fall together, so that each
/// is looked for among all of them. No answer rests on it.
#[derive(Clone, Copy)]
pub struct NamesKey {
    /// A hasher that has read the key.
    begun: DefaultHasher,
}

impl NamesKey {
    /// The key of two numbers, which are best drawn at random.
    pub fn new(first: u64, second: u64) -> NamesKey {
        let mut begun = DefaultHasher::new();
        begun.write_u64(first);
        begun.write_u64(second);
        NamesKey { begun }
    }
}

impl BuildHasher for NamesKey {
    type Hasher = DefaultHasher;

    ghost build_hasher = { λ key. key.begun };

    fn build_hasher(&self) -> DefaultHasher {
        self.begun
    }
}
