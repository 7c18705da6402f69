ghost use Rattle.std.specs.Prelude.{◌≡◌, ℕ, ◌<◌, ◌==◌, length, IfOk, All, not, true, false, if◌then◌else◌};
ghost use Rattle.std.specs.List.{list_any};
ghost use Rattle.flow_facts.specs.Held.{is_held};

use std::alloc::{AllocError, Global};
use std::marker::Model;

/// A set of facts, by their numbers below a count. Nothing but `new` takes memory.
#[derive(Drop)]
pub struct Database {
    count: u32,
    words: Vec<u64>,
}

impl Model for Database {
    ghost use Rattle.std.specs.Prelude.{List, Bool, length, ◌≤◌, ◌*◌};
    ghost use Rattle.flow_facts.specs.Held.{flags_of};

    ghost Value = { List Bool };

    ghost view = { λ d. flags_of d.count d.words.items };

    ghost invariant = { λ d. d.count ≤ 64 * length d.words.items };
}

impl Database {
    /// The set of the listed facts, of so many that there may be.
    pub fn new(alloc: Global, count: u32, held: &[u32]) -> Result<Database, AllocError>
        requires { All (λ n. n < count) held.now }
        ensures count { IfOk result (λ facts. length facts ≡ count) }
        ensures held { IfOk result (λ facts. (n : ℕ) → is_held facts n ≡ list_any (λ h. h == n) held.now) }
    {
        let words = vec![in alloc; 0; count.div_ceil(64) as usize]?;
        let mut facts = Database { count, words };
        for fact in held {
            facts.insert(*fact);
        }
        Ok(facts)
    }

    /// How many facts there may be.
    pub fn count(&self) -> u32
        ensures { result ≡ length self.now }
    {
        self.count
    }

    /// Whether the fact is in the set.
    pub fn has(&self, fact: u32) -> bool
        requires { fact < length self.now }
        ensures { result ≡ is_held self.now fact }
    {
        self.words[(fact / 64) as usize] >> (fact % 64) & 1 == 1
    }

    /// Puts the fact in, and says whether it was not there.
    pub fn insert(&mut self, fact: u32) -> bool
        requires { fact < length self.old }
        ensures changed { result ≡ not (is_held self.old fact) }
        ensures held { (n : ℕ) → is_held self.new n ≡ (if n == fact then true else is_held self.old n) }
        ensures count { length self.new ≡ length self.old }
    {
        let was_held = self.has(fact);
        self.words[(fact / 64) as usize] |= 1 << (fact % 64);
        !was_held
    }

    /// Takes the fact out, and says whether it was there.
    pub fn delete(&mut self, fact: u32) -> bool
        requires { fact < length self.old }
        ensures changed { result ≡ is_held self.old fact }
        ensures held { (n : ℕ) → is_held self.new n ≡ (if n == fact then false else is_held self.old n) }
        ensures count { length self.new ≡ length self.old }
    {
        let was_held = self.has(fact);
        self.words[(fact / 64) as usize] &= !(1 << (fact % 64));
        was_held
    }

    /// Puts the fact in or takes it out, as it was before.
    pub fn restore(&mut self, fact: u32, held: bool)
        requires { fact < length self.old }
        ensures held { (n : ℕ) → is_held self.new n ≡ (if n == fact then held else is_held self.old n) }
        ensures count { length self.new ≡ length self.old }
    {
        if held {
            self.insert(fact);
        } else {
            self.delete(fact);
        }
    }
}
