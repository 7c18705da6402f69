ghost use Rattle.std.specs.Prelude.{◌≡◌, ◌<◌, ◌-◌, ◌^◌, ℕ, Bool, List, min, length, IfOk, Some, slice_get};
ghost use Rattle.flow_model.specs.Folding.{fixed_leaves, folded_count, folded_resolutions};
ghost use Rattle.flow_model.specs.Process;
ghost use Rattle.flow_goal.specs.Choices.{AreChoicesOf, HoldsThose, IsNumbered};
ghost use Rattle.flow_goal.specs.Folds.{AreFoldsOf, named_by};
ghost use Rattle.flow_goal.specs.Pattern.{IsCounted, IsLineOf, lines_in, lines_of};

use crate::choiceless::Choiceless;
use crate::draft::pattern_of;
use crate::folds::Folds;
use crate::pattern::{Pattern, write};
use crate::text::Text;
use crate::tree::Tree;
use std::alloc::{AllocError, Global};

/// In how many ways the choices of a tree that do not stay can be resolved, or the greatest `u64` where there are more.
pub fn resolutions(tree: &Tree, folds: &Folds) -> u64
    requires made { (events : List ℕ) × AreFoldsOf tree.now events folds.now }
    ensures { (events : List ℕ) → AreFoldsOf tree.now events folds.now →
        result ≡ min (folded_count (named_by tree.now.labels events) tree.now.process) (2 ^ 64 - 1) }
{
    folds.count()
}

/// The resolution of that number as a text. There is room for so many leaves at first.
pub(crate) fn written(
    alloc: Global,
    pattern: &Pattern,
    number: u64,
    room: u32,
) -> Result<Text, AllocError>
    requires counted { IsCounted pattern.now }
    requires numbered { number < length (lines_of pattern.now) }
    requires exact { length (lines_of pattern.now) < 2 ^ 64 - 1 }
    ensures { IfOk result (λ out. (apart : ℕ → Bool) (g : Process.Process) → lines_of pattern.now ≡ lines_in apart g → IsLineOf apart g number out) }
{
    let mut out = Text::with_room(alloc, room)?;
    write(pattern, number, &mut out)?;
    Ok(out)
}

/// The leaves of a resolution.
#[derive(Drop)]
pub struct Held {
    /// How many they are.
    pub leaves: usize,
    /// Those outside choices, from left to right.
    pub fixed: Vec<u32>,
}

/// The resolutions of a tree, prepared: what they have in common is written once.
#[derive(Drop)]
pub struct Choices {
    pattern: Pattern,
}

impl Choices {
    /// Prepares them, where the folds were made of this tree. It walks the goal of the tree once.
    pub fn of(alloc: Global, tree: &Tree, folds: &Folds) -> Result<Choices, AllocError>
        requires made { (events : List ℕ) × AreFoldsOf tree.now events folds.now }
        ensures { IfOk result (λ choices. (events : List ℕ) → AreFoldsOf tree.now events folds.now →
            AreChoicesOf (named_by tree.now.labels events) tree.now.process choices) }
    {
        let pattern = pattern_of(alloc, tree.goal(), folds.flags())?;
        Ok(Choices { pattern })
    }

    /// As `resolve`, where the resolutions are prepared.
    pub fn resolve(&self, alloc: Global, tree: &Tree, number: u64) -> Result<Choiceless, AllocError>
        requires numbered { (apart : ℕ → Bool) × AreChoicesOf apart tree.now.process self.now × IsNumbered apart tree.now.process number }
        ensures resolution { IfOk result (λ q. (apart : ℕ → Bool) → AreChoicesOf apart tree.now.process self.now →
            slice_get (folded_resolutions apart tree.now.process) number ≡ Some q.process) }
        ensures leaves { IfOk result (λ q. q.leaves ≡ Process.leaves q.process) }
        ensures fixed { IfOk result (λ q. q.fixed ≡ fixed_leaves q.process) }
    {
        let room = tree.leaves();
        let out = written(alloc, &self.pattern, number, room)?;
        Ok(Choiceless::new(out.nodes, out.leaves, out.fixed))
    }

    /// What the resolution of that number holds.
    pub fn held(&self, alloc: Global, tree: &Tree, number: u64) -> Result<Held, AllocError>
        requires numbered { (apart : ℕ → Bool) × AreChoicesOf apart tree.now.process self.now × IsNumbered apart tree.now.process number }
        ensures { IfOk result (λ held. (apart : ℕ → Bool) → AreChoicesOf apart tree.now.process self.now →
            HoldsThose apart tree.now.process number held) }
    {
        let room = tree.leaves();
        let out = written(alloc, &self.pattern, number, room)?;
        Ok(Held {
            leaves: out.leaves.len(),
            fixed: out.fixed,
        })
    }
}

/// The resolution of that number, where the folds were made of this tree: one side is taken at each choice that does not
/// stay, and the right one of two parts that both stay runs faster.
pub fn resolve(
    alloc: Global,
    tree: &Tree,
    folds: &Folds,
    number: u64,
) -> Result<Choiceless, AllocError>
    requires made { (events : List ℕ) × AreFoldsOf tree.now events folds.now × IsNumbered (named_by tree.now.labels events) tree.now.process number }
    ensures resolution { IfOk result (λ q. (events : List ℕ) → AreFoldsOf tree.now events folds.now →
        slice_get (folded_resolutions (named_by tree.now.labels events) tree.now.process) number ≡ Some q.process) }
    ensures leaves { IfOk result (λ q. q.leaves ≡ Process.leaves q.process) }
    ensures fixed { IfOk result (λ q. q.fixed ≡ fixed_leaves q.process) }
{
    let choices = Choices::of(alloc, tree, folds)?;
    let resolution = choices.resolve(alloc, tree, number);
    drop(choices);
    resolution
}
