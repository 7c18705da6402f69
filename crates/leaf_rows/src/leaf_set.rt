ghost use Rattle.std.specs.Prelude.{◌≤◌};

/// Does so for each word of a set, by its number.
macro_rules! each_word {
    ($word:ident => $block:block) => {
        for $word in 0..W $block
    };
}

/// A set of numbers below `64 * W`.
#[derive(Clone, Copy)]
pub struct LeafSet<const W: usize> {
    words: [u64; W],
    ghost sized: { W ≤ 64 },
}

impl<const W: usize> LeafSet<W> {
    ghost use Rattle.std.specs.Prelude.{◌≡◌, ℕ, ◌*◌, ◌<◌, ◌↔◌, ◌==◌, ◌&&◌, ◌||◌, not, false, nat_lt, IsTrue, IfNone, IfSome, length, Contains};
    ghost use Rattle.std.specs.List.Sorted.{IsStrictlyIncreasing};
    ghost use Rattle.leaf_rows.specs.Leaves.{has_leaf, members, LiesIn};

    /// The empty set.
    #[tactic(auto, using(crate::proofs::Rows::has_bit_empty), unfolding(crate::specs::Leaves::has_leaf))]
    pub fn new() -> Self
        requires { W ≤ 64 }
        ensures { (n : ℕ) → has_leaf result n ≡ false }
    {
        LeafSet { words: [0; W] }
    }

    /// Whether the number is a member.
    #[tactic(auto, using(crate::proofs::Rows::has_bit_shift), unfolding(crate::specs::Leaves::has_leaf))]
    pub fn has(&self, n: u32) -> bool
        requires { n < 64 * W }
        ensures { result ≡ has_leaf self.now n }
    {
        self.words[(n / 64) as usize] >> (n % 64) & 1 == 1
    }

    /// Puts the number in.
    #[tactic(auto, using(crate::proofs::Rows::has_bit_insert), unfolding(crate::specs::Leaves::has_leaf))]
    pub fn insert(&mut self, n: u32)
        requires { n < 64 * W }
        ensures { (k : ℕ) → has_leaf self.new k ≡ (k == n || has_leaf self.old k) }
    {
        self.words[(n / 64) as usize] |= 1 << (n % 64);
    }

    /// Takes the number out.
    #[tactic(auto, using(crate::proofs::Rows::has_bit_remove), unfolding(crate::specs::Leaves::has_leaf))]
    pub fn remove(&mut self, n: u32)
        requires { n < 64 * W }
        ensures { (k : ℕ) → has_leaf self.new k ≡ (not (k == n) && has_leaf self.old k) }
    {
        self.words[(n / 64) as usize] &= !(1 << (n % 64));
    }

    /// Puts each member of the other in.
    #[tactic(auto, using(crate::proofs::Members::lies_within))]
    pub fn union_with(&mut self, other: &Self)
        ensures { (k : ℕ) → has_leaf self.new k ≡ (has_leaf self.old k || has_leaf other.now k) }
    {
        self.union_between(other, 0, W);
    }

    /// Puts each member of the other in, where these stand in those words alone.
    pub fn union_between(&mut self, other: &Self, from: usize, to: usize)
        requires within { to ≤ W }
        requires lies { LiesIn from to other.now }
        ensures { (k : ℕ) → has_leaf self.new k ≡ (has_leaf self.old k || has_leaf other.now k) }
    {
        for i in from..to {
            self.words[i] |= other.words[i];
        }
    }

    /// Puts each member of a set that is as wide or narrower in. It touches no word that the other lacks.
    pub fn union_narrow<const V: usize>(&mut self, other: &LeafSet<V>)
        requires { V ≤ W }
        ensures { (k : ℕ) → has_leaf self.new k ≡ (has_leaf self.old k || has_leaf other.now k) }
    {
        for i in 0..V {
            self.words[i] |= other.words[i];
        }
    }

    /// Takes each member of the other out.
    #[tactic(auto, using(crate::proofs::Members::lies_within))]
    pub fn remove_all(&mut self, other: &Self)
        ensures { (k : ℕ) → has_leaf self.new k ≡ (not (has_leaf other.now k) && has_leaf self.old k) }
    {
        self.remove_between(other, 0, W);
    }

    /// Takes each member of the other out, where these stand in those words alone.
    pub fn remove_between(&mut self, other: &Self, from: usize, to: usize)
        requires within { to ≤ W }
        requires lies { LiesIn from to other.now }
        ensures { (k : ℕ) → has_leaf self.new k ≡ (not (has_leaf other.now k) && has_leaf self.old k) }
    {
        for i in from..to {
            self.words[i] &= !other.words[i];
        }
    }

    /// Whether each member is one of the other.
    #[tactic(auto, using(crate::proofs::Members::lies_within))]
    pub fn is_subset(&self, other: &Self) -> bool
        ensures { IsTrue result ↔ ((k : ℕ) → IsTrue (has_leaf self.now k) → IsTrue (has_leaf other.now k)) }
    {
        self.is_subset_between(other, 0, W)
    }

    /// Whether each member is one of the other, where the members stand in those words alone.
    pub fn is_subset_between(&self, other: &Self, from: usize, to: usize) -> bool
        requires within { to ≤ W }
        requires lies { LiesIn from to self.now }
        ensures { IsTrue result ↔ ((k : ℕ) → IsTrue (has_leaf self.now k) → IsTrue (has_leaf other.now k)) }
    {
        for i in from..to {
            if self.words[i] & !other.words[i] != 0 {
                return false;
            }
        }
        true
    }

    /// The members that a set of another width has room for.
    #[tactic(auto, using(crate::proofs::Rows::has_bit_resized), unfolding(crate::specs::Leaves::has_leaf))]
    pub fn resized<const V: usize>(&self) -> LeafSet<V>
        requires { V ≤ 64 }
        ensures { (n : ℕ) → has_leaf result n ≡ (nat_lt n (64 * V) && has_leaf self.now n) }
    {
        let mut words = [0; V];
        for i in 0..V {
            if i < W {
                words[i] = self.words[i];
            }
        }
        LeafSet { words }
    }

    /// Whether a set of that width has room for each member.
    pub fn is_within<const V: usize>(&self) -> bool
        ensures { IsTrue result ↔ ((k : ℕ) → IsTrue (has_leaf self.now k) → k < 64 * V) }
    {
        for i in V..W {
            if self.words[i] != 0 {
                return false;
            }
        }
        true
    }

    /// Whether the two have a common member.
    pub fn meets(&self, other: &Self) -> bool
        ensures { IsTrue result ↔ ((k : ℕ) × IsTrue (has_leaf self.now k) × IsTrue (has_leaf other.now k)) }
    {
        self.first_common(other).is_some()
    }

    /// Whether the two have a common member, where the members of the first stand in those words alone.
    pub fn meets_between(&self, other: &Self, from: usize, to: usize) -> bool
        requires within { to ≤ W }
        requires lies { LiesIn from to self.now }
        ensures { IsTrue result ↔ ((k : ℕ) × IsTrue (has_leaf self.now k) × IsTrue (has_leaf other.now k)) }
    {
        self.first_common_between(other, from, to).is_some()
    }

    /// The least common member of the two.
    #[tactic(auto, using(crate::proofs::Members::lies_within))]
    pub fn first_common(&self, other: &Self) -> Option<u32>
        ensures none { IfNone result ((k : ℕ) → IsTrue (has_leaf self.now k) → ¬ IsTrue (has_leaf other.now k)) }
        ensures member { IfSome result (λ n. IsTrue (has_leaf self.now n) × IsTrue (has_leaf other.now n)) }
        ensures least { IfSome result (λ n. (k : ℕ) → k < n → IsTrue (has_leaf self.now k) → ¬ IsTrue (has_leaf other.now k)) }
        ensures within { IfSome result (λ n. n < 64 * W) }
    {
        self.first_common_between(other, 0, W)
    }

    /// The least common member of the two, where the members of the first stand in those words alone.
    fn first_common_between(&self, other: &Self, from: usize, to: usize) -> Option<u32>
        requires within { to ≤ W }
        requires lies { LiesIn from to self.now }
        ensures none { IfNone result ((k : ℕ) → IsTrue (has_leaf self.now k) → ¬ IsTrue (has_leaf other.now k)) }
        ensures member { IfSome result (λ n. IsTrue (has_leaf self.now n) × IsTrue (has_leaf other.now n)) }
        ensures least { IfSome result (λ n. (k : ℕ) → k < n → IsTrue (has_leaf self.now k) → ¬ IsTrue (has_leaf other.now k)) }
        ensures within { IfSome result (λ n. n < 64 * W) }
    {
        for i in from..to {
            let common = self.words[i] & other.words[i];
            if common != 0 {
                return Some(64 * i as u32 + common.trailing_zeros());
            }
        }
        None
    }

    /// The least member.
    #[tactic(auto, using(crate::proofs::Rows::has_bit_before_least, crate::proofs::Rows::has_bit_least, crate::proofs::Rows::has_bit_none), unfolding(crate::specs::Leaves::has_leaf))]
    pub fn first(&self) -> Option<u32>
        ensures none { IfNone result ((k : ℕ) → has_leaf self.now k ≡ false) }
        ensures member { IfSome result (λ n. IsTrue (has_leaf self.now n)) }
        ensures least { IfSome result (λ n. (k : ℕ) → k < n → has_leaf self.now k ≡ false) }
        ensures within { IfSome result (λ n. n < 64 * W) }
    {
        each_word!(i => {
            let word = self.words[i];
            if word != 0 {
                return Some(64 * i as u32 + word.trailing_zeros());
            }
        });
        None
    }

    /// How many members there are.
    #[tactic(auto, using(crate::proofs::Members::contains_members, crate::proofs::Members::members_rise), unfolding(crate::specs::Leaves::has_leaf, crate::specs::Leaves::members, crate::specs::Leaves::passing_below))]
    pub fn count(&self) -> u32
        ensures counted { result ≡ length (members self.now) }
        ensures listed { (n : ℕ) → Contains (members self.now) n ↔ IsTrue (has_leaf self.now n) }
        ensures rising { IsStrictlyIncreasing (members self.now) }
    {
        let mut count = 0;
        each_word!(i => {
            count += self.words[i].count_ones();
        });
        count
    }
}
