ghost use Rattle.std.specs.Prelude.{◌≡◌, ◌∷◌, [], ◌++◌, ◌<◌, ◌≤◌, ◌+◌, ◌^◌, ◌↔◌, length, true, IfOk, OnOk, OnErr, IsNone, IfSome, slice_get};
ghost use Rattle.flow_model.specs.Lists.{◌∈◌, AreDistinct};
ghost use Rattle.flow_workflow.specs.Numbered.{IsAdded};

use flow_facts::{Fact, Name, TextKey};
use indexmap::IndexSet;
use std::alloc::{AllocError, Global};
use std::hash::Hash;
use std::marker::Model;

/// What can be numbered: two keys that compare equal are the same.
pub trait Key: Eq + Hash + Drop {
    /// The same key in memory of its own.
    fn twin(&self, alloc: Global) -> Result<Self, AllocError>
        ensures { IfOk result (λ key. key ≡ self.now) };

    ghost same: { (one other : Self) → Self.eq one other ≡ true → one ≡ other };
}

impl Key for Name {
    ghost use Rattle.flow_facts.specs.Same.{names_same};

    fn twin(&self, alloc: Global) -> Result<Name, AllocError> {
        self.copy(alloc)
    }

    ghost same = { names_same };
}

impl Key for Fact {
    ghost use Rattle.flow_facts.specs.Same.{atoms_same};

    fn twin(&self, alloc: Global) -> Result<Fact, AllocError> {
        self.copy(alloc)
    }

    ghost same = { atoms_same };
}

/// Keys by their numbers: each has its place in the order in which they were put in. They are hashed by a key of the text that they
/// come from, so that a writer who chooses keys to fall together changes with them how they are hashed.
#[derive(Drop)]
pub struct Numbered<K: Key> {
    places: IndexSet<K, TextKey>,
}

impl<K: Key> Model for Numbered<K> {
    ghost use Rattle.std.specs.Prelude.{List};
    ghost use Rattle.flow_workflow.specs.Numbered.{AreNumbered};

    ghost Value = { List K };

    ghost view = { λ t. t.places.keys };

    ghost invariant = { λ t. AreNumbered t.places.keys };
}

impl<K: Key> Numbered<K> {
    /// No keys. Those that are put in are hashed by the key of the text.
    pub fn new(alloc: Global, text: TextKey) -> Numbered<K>
        ensures { result ≡ [] }
    {
        Numbered {
            places: IndexSet::with_hasher(alloc, text),
        }
    }

    /// The number of the key.
    pub fn number_of(&self, key: &K) -> Option<u32>
        ensures none { IsNone result ↔ ¬ (key.now ∈ self.now) }
        ensures found { IfSome result (λ n. slice_get self.now n ≡ Some key.now) }
    {
        let place = self.places.get_index_of(key)?;
        Some(place as u32)
    }

    /// The number of the key, which is put in where it is new. There is room for as many keys as have numbers.
    pub fn add(&mut self, alloc: Global, key: &K) -> Result<u32, AllocError>
        ensures keys { OnOk result (IsAdded self.old key.now self.new) }
        ensures number { IfOk result (λ n. slice_get self.new n ≡ Some key.now) }
        ensures distinct { AreDistinct self.new }
        ensures few { length self.new ≤ length self.old + 1 }
        ensures err { OnErr result (self.new ≡ self.old) }
    {
        if self.places.len() < u32::MAX as usize {
            return self.put(key.twin(alloc)?);
        }
        self.number_of(key).ok_or(AllocError)
    }

    /// Puts the key in where it is new: it is hashed once.
    fn put(&mut self, key: K) -> Result<u32, AllocError>
        requires { length self.old + 1 < 2 ^ 32 }
        ensures keys { OnOk result (IsAdded self.old key self.new) }
        ensures number { IfOk result (λ n. slice_get self.new n ≡ Some key) }
        ensures distinct { AreDistinct self.new }
        ensures few { length self.new ≤ length self.old + 1 }
        ensures err { OnErr result (self.new ≡ self.old) }
    {
        let (place, _) = self.places.insert_full(key)?;
        Ok(place as u32)
    }

    /// The key of the text, for another table of what stands there.
    pub fn text(&self) -> TextKey {
        *self.places.hasher()
    }

    /// How many keys there are.
    pub fn count(&self) -> u32
        ensures { result ≡ length self.now }
    {
        self.places.len() as u32
    }

    /// The keys by their numbers.
    pub fn as_slice(&self) -> &[K]
        ensures keys { result.now ≡ self.now }
        ensures distinct { AreDistinct self.now }
        ensures few { length self.now < 2 ^ 32 }
    {
        self.places.as_slice()
    }
}
