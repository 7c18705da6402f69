ghost use Rattle.std.specs.Prelude.{◌≡◌, ◌<◌, ◌≤◌, ◌+◌, ◌∷◌, [], ◌++◌, ℕ, Bool, false, IfOk, OnOk, length};
ghost use Rattle.flow_model.specs.Lists.{Each, each_with_each};
ghost use Rattle.flow_goal.specs.Goal.{process_of};
ghost use Rattle.flow_goal.specs.Folds.{flags_in};
ghost use Rattle.flow_goal.specs.Pattern.{GathersBy, IsCounted, Lays, LaysBy, LaysSides, drafted, line, line_of, lines_in, lines_of, lines_of_all, nothing, then};

use crate::flags::{after_choices, after_flag, first_flag};
use crate::goal::Goal;
use crate::keeping::{Kept, put_goal};
use crate::node::Node;
use crate::pattern::Pattern;
use crate::text::Text;
use std::alloc::{AllocError, Global};
use std::mem;

/// A pattern that grows to the right.
#[derive(Drop)]
struct Draft {
    /// What ends with a choice.
    before: Pattern,
    /// What follows, which stands in each resolution.
    last: Text,
}

/// The first pattern before the second one. What is nothing is left out.
#[tactic(auto, using(crate::proofs::PatternLemmas::both_counted))]
fn both(alloc: Global, first: Pattern, second: Pattern) -> Result<Pattern, AllocError>
    requires first { IsCounted first }
    requires second { IsCounted second }
    ensures counted { IfOk result IsCounted }
    ensures lines { IfOk result (λ new. lines_of new ≡ each_with_each then (lines_of first) (lines_of second)) }
{
    if first.is_nothing() {
        drop(first);
        return Ok(second);
    }
    if second.is_nothing() {
        drop(second);
        return Ok(first);
    }
    let count = first.count().saturating_mul(second.count());
    let first = match Box::new(alloc, first) {
        Ok(first) => first,
        Err(refused) => {
            drop(second);
            return Err(refused.into());
        }
    };
    let second = Box::new(alloc, second)?;
    Ok(Pattern::Both(count, first, second))
}

/// One of the two patterns.
fn either(alloc: Global, left: Pattern, right: Pattern) -> Result<Pattern, AllocError>
    requires left { IsCounted left }
    requires right { IsCounted right }
    ensures counted { IfOk result IsCounted }
    ensures lines { IfOk result (λ new. lines_of new ≡ lines_of left ++ lines_of right) }
{
    let count = left.count().saturating_add(right.count());
    let left = match Box::new(alloc, left) {
        Ok(left) => left,
        Err(refused) => {
            drop(right);
            return Err(refused.into());
        }
    };
    let right = Box::new(alloc, right)?;
    Ok(Pattern::Either(count, left, right))
}

/// Takes the last patterns off the list, so many of them, and makes one of them: a choice of two that have as many each.
fn halved(alloc: Global, sides: &mut Vec<Pattern>, count: usize) -> Result<Pattern, AllocError>
    requires some { 0 < count }
    requires within { count ≤ length sides.old.items }
    requires counted { Each IsCounted sides.old.items }
    ensures counted { IfOk result IsCounted }
    ensures before { OnOk result (Each IsCounted sides.new.items) }
    ensures left { OnOk result (length sides.new.items + count ≡ length sides.old.items) }
    ensures lines { IfOk result (λ new. lines_of_all sides.old.items ≡ lines_of_all sides.new.items ++ lines_of new) }
{
    if count == 1 {
        return match sides.pop() {
            Some(side) => Ok(side),
            None => unreachable!(),
        };
    }
    let half = count / 2;
    let right = halved(alloc, sides, count - half)?;
    match halved(alloc, sides, half) {
        Ok(left) => either(alloc, left, right),
        Err(refused) => {
            drop(right);
            Err(refused)
        }
    }
}

/// One of the patterns. It is found by halves, so each takes as long as any other.
fn one_of(alloc: Global, sides: Vec<Pattern>) -> Result<Pattern, AllocError>
    requires some { 0 < length sides.items }
    requires counted { Each IsCounted sides.items }
    ensures counted { IfOk result IsCounted }
    ensures lines { IfOk result (λ new. lines_of new ≡ lines_of_all sides.items) }
{
    let mut sides = sides;
    let count = sides.len();
    halved(alloc, &mut sides, count)
}

impl Draft {
    /// Nothing is written yet.
    fn new(alloc: Global) -> Draft
        ensures counted { IsCounted result.before }
        ensures before { lines_of result.before ≡ nothing ∷ [] }
        ensures last { line_of result.last ≡ nothing }
    {
        Draft {
            before: Pattern::Fixed(Text::new(alloc)),
            last: Text::new(alloc),
        }
    }

    /// The pattern that was drafted.
    fn finish(self, alloc: Global) -> Result<Pattern, AllocError>
        requires { IsCounted self.before }
        ensures counted { IfOk result IsCounted }
        ensures lines { IfOk result (λ new. lines_of new ≡ drafted self) }
    {
        both(alloc, self.before, Pattern::Fixed(self.last))
    }

    fn put(&mut self, node: Node) -> Result<(), AllocError>
        ensures { OnOk result (Lays (record { nodes = node ∷ []; leaves = []; fixed = [] } ∷ []) self.old self.new) }
    {
        self.last.put(node)
    }

    /// A goal whose choices all stay comes next.
    fn put_goal(&mut self, goal: &Goal) -> Result<(), AllocError>
        ensures { OnOk result (Lays (line (process_of goal.now) ∷ []) self.old self.new) }
    {
        put_goal(goal, Kept::All, &mut self.last)
    }

    /// The pattern of a choice comes next.
    fn choose(&mut self, alloc: Global, sides: Pattern) -> Result<(), AllocError>
        requires before { IsCounted self.old.before }
        requires sides { IsCounted sides }
        ensures { OnOk result (Lays (lines_of sides) self.old self.new) }
    {
        let front = match mem::replace(self, Draft::new(alloc)).finish(alloc) {
            Ok(front) => front,
            Err(refused) => {
                drop(sides);
                return Err(refused);
            }
        };
        self.before = both(alloc, front, sides)?;
        Ok(())
    }
}

/// Puts the resolutions of a goal behind what is drafted. The flags begin with those of its choices; returns the others.
#[cycle(laying)]
fn lay<'a>(
    alloc: Global,
    goal: &Goal,
    flags: &'a [bool],
    draft: &mut Draft,
) -> Result<&'a [bool], AllocError>
    requires { IsCounted draft.old.before }
    ensures counted { OnOk result (IsCounted draft.new.before) }
    ensures laid { IfOk result (λ left. LaysBy (process_of goal.now) flags.now left.now draft.old draft.new) }
{
    match goal {
        Goal::Nop | Goal::Leaf(_) => {
            draft.put_goal(goal)?;
            Ok(flags)
        }
        Goal::Serial(left, right) => {
            let after = lay(alloc, left, flags, draft)?;
            let after = lay(alloc, right, after, draft)?;
            draft.put(Node::Serial)?;
            Ok(after)
        }
        Goal::Beside(left, right) => {
            draft.put(Node::Fork)?;
            let after = lay(alloc, left, flags, draft)?;
            draft.put(Node::Split)?;
            let after = lay(alloc, right, after, draft)?;
            draft.put(Node::Join)?;
            Ok(after)
        }
        Goal::Either(left, right) => {
            if first_flag(flags) {
                draft.put_goal(goal)?;
                return Ok(after_choices(goal, flags));
            }
            lay_sides(alloc, left, right, after_flag(flags), draft)
        }
        Goal::Iso(part) => {
            draft.put(Node::Open)?;
            let after = lay(alloc, part, flags, draft)?;
            draft.put(Node::Close)?;
            Ok(after)
        }
    }
}

/// Puts those of the two sides of a choice that does not stay behind what is drafted. The flags begin with those of the
/// choices inside.
#[cycle(laying)]
fn lay_sides<'a>(
    alloc: Global,
    left: &Goal,
    right: &Goal,
    flags: &'a [bool],
    draft: &mut Draft,
) -> Result<&'a [bool], AllocError>
    requires { IsCounted draft.old.before }
    ensures counted { OnOk result (IsCounted draft.new.before) }
    ensures laid { IfOk result (λ more. LaysSides (process_of left.now) (process_of right.now) flags.now more.now draft.old draft.new) }
{
    let mut sides = Vec::new(alloc);
    let after = gather(alloc, left, flags, &mut sides)?;
    let after = gather(alloc, right, after, &mut sides)?;
    let sides = one_of(alloc, sides)?;
    draft.choose(alloc, sides)?;
    Ok(after)
}

/// Puts the patterns of the sides of a goal behind others. Where one side of a choice is a choice that does not stay, its
/// sides are taken in its place. The flags begin with those of the goal's choices; returns the others.
#[cycle(laying)]
fn gather<'a>(
    alloc: Global,
    goal: &Goal,
    flags: &'a [bool],
    sides: &mut Vec<Pattern>,
) -> Result<&'a [bool], AllocError>
    requires { Each IsCounted sides.old.items }
    ensures counted { OnOk result (Each IsCounted sides.new.items) }
    ensures more { OnOk result (length sides.old.items < length sides.new.items) }
    ensures lines { IfOk result (λ left. GathersBy (process_of goal.now) flags.now left.now sides.old.items sides.new.items) }
{
    if let Goal::Either(left, right) = goal {
        if !first_flag(flags) {
            let after = gather(alloc, left, after_flag(flags), sides)?;
            return gather(alloc, right, after, sides);
        }
    }
    add_side(alloc, goal, flags, sides)
}

/// Puts the pattern of a goal behind others. The flags begin with those of its choices; returns the others.
#[cycle(laying)]
fn add_side<'a>(
    alloc: Global,
    goal: &Goal,
    flags: &'a [bool],
    sides: &mut Vec<Pattern>,
) -> Result<&'a [bool], AllocError>
    requires { Each IsCounted sides.old.items }
    ensures counted { OnOk result (Each IsCounted sides.new.items) }
    ensures more { OnOk result (length sides.old.items < length sides.new.items) }
    ensures lines { IfOk result (λ left. GathersBy (process_of goal.now) flags.now left.now sides.old.items sides.new.items) }
{
    let mut draft = Draft::new(alloc);
    let after = lay(alloc, goal, flags, &mut draft)?;
    let side = draft.finish(alloc)?;
    sides.push(side)?;
    Ok(after)
}

/// The resolutions of a goal, where the flags say of its choices which stay. It walks the goal once, and what stays once more.
pub(crate) fn pattern_of(alloc: Global, goal: &Goal, flags: &[bool]) -> Result<Pattern, AllocError>
    ensures counted { IfOk result IsCounted }
    ensures lines { IfOk result (λ new. (apart : ℕ → Bool) → flags.now ≡ flags_in apart false (process_of goal.now) →
        lines_of new ≡ lines_in apart (process_of goal.now)) }
{
    let mut draft = Draft::new(alloc);
    match lay(alloc, goal, flags, &mut draft) {
        Ok(_) => draft.finish(alloc),
        Err(refused) => {
            drop(draft);
            Err(refused)
        }
    }
}
