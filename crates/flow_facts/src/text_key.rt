use std::hash::{BuildHasher, DefaultHasher, Hasher};

/// What begins the hashes of a table: two words made of the names that a text declares.
///
/// The writer of a text chooses its names. With one hash for every text he could choose many that fall together, so that each is
/// looked for among all of them; here the names that he chooses decide by which hash they are found. No answer rests on it.
#[derive(Clone, Copy)]
pub struct TextKey {
    /// A hasher that has read the two words.
    begun: DefaultHasher,
}

impl TextKey {
    /// The key of what the hasher has read.
    pub fn of(read: &DefaultHasher) -> TextKey {
        let mut more = *read;
        let first = more.finish();
        more.write_u64(first);
        let second = more.finish();
        let mut begun = DefaultHasher::new();
        begun.write_u64(first);
        begun.write_u64(second);
        TextKey { begun }
    }
}

impl BuildHasher for TextKey {
    type Hasher = DefaultHasher;

    ghost build_hasher = { λ key. key.begun };

    fn build_hasher(&self) -> DefaultHasher {
        self.begun
    }
}
