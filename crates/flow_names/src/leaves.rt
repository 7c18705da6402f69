//! The leaves that a name may mean.
ghost use Rattle.std.specs.Prelude.{◌≡◌, ◌↔◌, ℕ, IsTrue, IfOk, IfErr, MatchOption, Some};
ghost use Rattle.flow_model.specs.Facts.{event_at};
ghost use Rattle.flow_model.specs.Lists.{◌∈◌};
ghost use Rattle.flow_model.specs.Verdict.{AreJust};
ghost use Rattle.flow_workflow.specs.Label.{leaf_text, IsLeaf};
ghost use Rattle.flow_core.specs.Run.{schema, now, IsUncommitted, HasEntryLeft};
ghost use Rattle.flow_core.specs.Answers.{IsLeast};
ghost use Rattle.flow_core.specs.Holding.{IsTakeable};
ghost use Rattle.flow_names.specs.Meaning.{IsSought, MayNow, IsFree, IsMeant, IsNotMeant};
ghost use Rattle.flow_names.specs.Leaves.{IsListed};

use crate::refusal::NameRefusal;
use flow_core::Core;
use flow_facts::Name;
use flow_record::print_label;
use std::alloc::{AllocError, Global};

/// What is sought among the leaves of a run.
#[derive(Drop)]
pub(crate) enum Sought {
    /// The leaves of this event, to be taken.
    Event(u32),
    /// The leaves with this label, to be done.
    Label(Name),
}

/// Which of the leaves that are sought are listed.
#[derive(Clone, Copy)]
pub(crate) enum Listed {
    All,
    /// Those that are not done.
    Left,
}

impl Sought {
    /// Whether the leaf is one that is sought.
    fn is_at(&self, alloc: Global, core: &Core, leaf: u32) -> Result<bool, AllocError>
        ensures { IfOk result (λ found. IsTrue found ↔ IsSought core.now self.now leaf) }
    {
        match self {
            Sought::Event(event) => Ok(has_event(core, leaf, *event)),
            Sought::Label(label) => has_label(alloc, core, leaf, label),
        }
    }

    /// Whether the leaf may be taken now, or done now, whatever holds.
    fn may_now(&self, core: &Core, leaf: u32) -> bool
        ensures { IsTrue result ↔ MayNow core.now self.now leaf }
    {
        match self {
            Sought::Event(_) => may_take(core, leaf),
            Sought::Label(_) => goes_on(core) && core.can_do_aside(leaf),
        }
    }

    /// Whether the leaf is sought, and may be taken or done now.
    fn is_free_at(&self, alloc: Global, core: &Core, leaf: u32) -> Result<bool, AllocError>
        ensures { IfOk result (λ free. IsTrue free ↔ IsFree core.now self.now leaf) }
    {
        if self.is_at(alloc, core, leaf)? {
            Ok(self.may_now(core, leaf))
        } else {
            Ok(false)
        }
    }

    /// Whether the leaf is listed.
    fn is_listed_at(
        &self,
        alloc: Global,
        core: &Core,
        listed: Listed,
        leaf: u32,
    ) -> Result<bool, AllocError>
        ensures { IfOk result (λ is. IsTrue is ↔ IsListed core.now self.now listed leaf) }
    {
        match listed {
            Listed::All => self.is_at(alloc, core, leaf),
            Listed::Left => {
                if is_done(core, leaf) {
                    Ok(false)
                } else {
                    self.is_at(alloc, core, leaf)
                }
            }
        }
    }

    /// The leaves that are sought and may be taken or done now, rising.
    fn free_leaves(&self, alloc: Global, core: &Core) -> Result<Vec<u32>, AllocError>
        ensures { IfOk result (λ leaves. AreJust (IsFree core.now self.now) leaves.items) }
    {
        let mut leaves = Vec::new(alloc);
        for leaf in 0..core.workflow().tree().leaves() {
            if self.is_free_at(alloc, core, leaf)? {
                leaves.push(leaf)?;
            }
        }
        Ok(leaves)
    }

    /// The least of the leaves that are listed.
    fn least(&self, alloc: Global, core: &Core, listed: Listed) -> Result<Option<u32>, AllocError>
        ensures { IfOk result (λ found.
            MatchOption found ((leaf : ℕ) → ¬ (IsListed core.now self.now listed leaf)) (IsLeast (IsListed core.now self.now listed))) }
    {
        for leaf in 0..core.workflow().tree().leaves() {
            if self.is_listed_at(alloc, core, listed, leaf)? {
                return Ok(Some(leaf));
            }
        }
        Ok(None)
    }

    /// The leaf that is meant.
    pub(crate) fn meant(&self, alloc: Global, core: &Core) -> Result<u32, NameRefusal>
        ensures meant { IfOk result (IsMeant core.now self.now) }
        ensures refused { IfErr result (IsNotMeant core.now self.now) }
    {
        let free = self.free_leaves(alloc, core)?;
        if free.len() > 1 {
            return Err(NameRefusal::Several(free));
        }
        if let Some(leaf) = free.first() {
            return Ok(*leaf);
        }
        if let Some(leaf) = self.least(alloc, core, Listed::Left)? {
            return Ok(leaf);
        }
        match self.least(alloc, core, Listed::All)? {
            Some(leaf) => Ok(leaf),
            None => Err(NameRefusal::NoLeaf),
        }
    }
}

/// Whether the leaf is of the event.
pub(crate) fn has_event(core: &Core, leaf: u32, event: u32) -> bool
    ensures { IsTrue result ↔ (event_at (schema core.now).labels leaf ≡ Some event) }
{
    match core.workflow().tree().event(leaf) {
        Some(other) => other == event,
        None => false,
    }
}

/// Whether there is such a leaf, and it has that label.
fn has_label(alloc: Global, core: &Core, leaf: u32, label: &Name) -> Result<bool, AllocError>
    ensures { IfOk result (λ found. IsTrue found ↔ (IsLeaf core.now.definition leaf × (leaf_text core.now.definition leaf ≡ label.now))) }
{
    let workflow = core.workflow();
    if leaf >= workflow.tree().leaves() {
        return Ok(false);
    }
    let printed = print_label(alloc, workflow, leaf)?;
    Ok(printed.as_slice() == label.bytes())
}

/// Whether the leaf is done.
fn is_done(core: &Core, leaf: u32) -> bool
    ensures { IsTrue result ↔ (leaf ∈ (now core.now).journal) }
{
    core.journal().contains(&leaf)
}

/// Whether a claim on the leaf may be given now.
pub(crate) fn may_take(core: &Core, leaf: u32) -> bool
    ensures { IsTrue result ↔ IsTakeable core.now leaf }
{
    core.may_take(leaf).is_ok()
}

/// Whether the run is not over, and there is room for one entry more.
pub(crate) fn goes_on(core: &Core) -> bool
    ensures { IsTrue result ↔ (IsUncommitted core.now × HasEntryLeft core.now) }
{
    !core.committed() && core.history().len() < core.limit() as usize
}
