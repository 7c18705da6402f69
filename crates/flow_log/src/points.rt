//! Points of the search, in the order in which they are made.
ghost use Rattle.std.specs.Prelude.{◌≡◌, ◌⊎◌, ◌∷◌, ◌++◌, [], ℕ, IsTrue, IfOk, OnOk};
ghost use Rattle.leaf_rows.specs.Leaves.{has_leaf};
ghost use Rattle.flow_log.specs.Search.{IsKnown};

use crate::point::Point;
use leaf_rows::LeafSet;
use std::alloc::{AllocError, Global};

/// Keys are kept by their last bits.
const BUCKETS: usize = 4096;

/// The points, and where those of a key are found.
#[derive(Drop)]
pub(crate) struct Points<const W: usize> {
    pub(crate) points: Vec<Point<W>>,
    /// For each bucket of keys one more than the place of its last point, or 0. No answer rests on it.
    heads: Vec<usize>,
    /// For each point one more than the place of the one before it in its bucket, or 0. No answer rests on it.
    links: Vec<usize>,
}

/// The bucket of a key.
fn bucket_of(key: u64) -> usize {
    (key >> 40) as usize % BUCKETS
}

impl<const W: usize> Points<W> {
    /// No points.
    pub(crate) fn new(alloc: Global) -> Result<Points<W>, AllocError>
        ensures { IfOk result (λ points. points.points.items ≡ []) }
    {
        Ok(Points {
            points: Vec::new(alloc),
            heads: vec![in alloc; 0; BUCKETS]?,
            links: Vec::new(alloc),
        })
    }

    /// Puts the point behind the others.
    pub(crate) fn push(&mut self, point: Point<W>) -> Result<(), AllocError>
        ensures { OnOk result (self.new.points.items ≡ self.old.points.items ++ point.entry ∷ []) }
    {
        let bucket = bucket_of(point.key);
        let last = self.heads.get(bucket).copied().unwrap_or(0);
        self.links.push(last)?;
        self.points.push(point)?;
        let count = self.points.len();
        if let Some(head) = self.heads.get_mut(bucket) {
            *head = count;
        }
        Ok(())
    }

    /// Those of the options that no point like this one has.
    pub(crate) fn fresh(&self, like: &Point<W>, options: &LeafSet<W>) -> LeafSet<W>
        ensures among { (j : ℕ) → IsTrue (has_leaf result j) → IsTrue (has_leaf options.now j) }
        ensures all { (j : ℕ) → IsTrue (has_leaf options.now j) → IsTrue (has_leaf result j) ⊎ IsKnown self.now.points.items j like.now }
    {
        let mut fresh = *options;
        let mut end = self.heads.get(bucket_of(like.key)).copied().unwrap_or(0);
        while 0 < end && end <= self.points.len() {
            let place = end - 1;
            let point = self.points[place];
            if point.is_like(like) {
                fresh.remove_all(&point.options);
            }
            end = self.links.get(place).copied().unwrap_or(0).min(place);
        }
        fresh
    }
}
