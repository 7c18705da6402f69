ghost use Rattle.std.specs.Prelude.{◌≡◌, ◌↔◌, ◌∷◌, [], ◌++◌, ◌<◌, ◌≤◌, ◌+◌, ◌-◌, IsTrue, length, IfOk, IfSome, OnOk, IfErr, MatchOption, take, Some, slice_get, slice_set, vec_len, ℕ};
ghost use Rattle.flow_expand.specs.declared.lay.Stage.TheVariants as stage;
ghost use Rattle.flow_expand.specs.declared.layout.Root.{Root};
ghost use Rattle.flow_expand.specs.Directory.{IsDirectory, decls_of};
ghost use Rattle.flow_expand.specs.Lay.{IsLaidAt};
ghost use Rattle.flow_expand.specs.Calls.{IsSettlement};
ghost use Rattle.flow_expand.specs.Settlement.{NumberStep, IsPath, Stays, IsIdle, IsFound, work_left};

use crate::calls::calls_of;
use crate::chain::chain_of;
use crate::directory::Directory;
use crate::lay::{Stage, lay, stage_of};
use crate::layout::Layout;
use flow_workflow::ExpandRefusal;
use std::alloc::{AllocError, Global};

fn is_laid(laid: &[Stage], flow: usize) -> bool
    ensures { IsTrue result ↔ IsLaidAt laid.now flow }
{
    matches!(stage_of(laid, flow), Some(Stage::Laid(_)))
}

/// The place of the first call from there on that is not laid, or of the end.
fn first_unlaid(laid: &[Stage], calls: &[usize], start: usize) -> usize
    ensures passed { (i j : ℕ) → start ≤ i → i < result → slice_get calls.now i ≡ Some j → IsLaidAt laid.now j }
    ensures next { (j : ℕ) → slice_get calls.now result ≡ Some j → ¬ (IsLaidAt laid.now j) }
{
    for place in start..calls.len() {
        if !is_laid(laid, calls[place]) {
            return place;
        }
    }
    calls.len()
}

/// The call at a place.
fn call_at(calls: &[usize], place: usize) -> Option<usize>
    ensures { result ≡ slice_get calls.now place }
{
    calls.get(place).copied()
}

/// Sub-workflows on their way into a layout, by their numbers.
#[derive(Drop)]
pub(crate) struct Settlement<'a> {
    /// Those that each one's goal names.
    pub(crate) calls: Vec<Vec<usize>>,
    /// How many of these were seen laid.
    pub(crate) seen: Vec<usize>,
    pub(crate) laid: Vec<Stage>,
    pub(crate) layout: Layout<'a>,
}

impl<'a> Settlement<'a> {
    /// None is laid.
    pub(crate) fn new(
        alloc: Global,
        directory: &Directory<'a>,
    ) -> Result<Settlement<'a>, AllocError>
        requires { IsDirectory directory.now }
        ensures settlement { IfOk result (IsSettlement directory.now) }
        ensures idle { IfOk result (λ s. IsIdle s.laid.items) }
    {
        Ok(Settlement {
            seen: vec![in alloc; 0; directory.goals.len()]?,
            laid: vec![in alloc; Stage::Unlaid; directory.goals.len()]?,
            calls: calls_of(alloc, directory)?,
            layout: Vec::new(alloc),
        })
    }

    /// Lays a sub-workflow, or says which one it waits for: the first that its goal names and that is not laid. What was
    /// seen laid is not looked at again.
    fn attempt(
        &mut self,
        directory: &Directory<'a>,
        flow: usize,
    ) -> Result<Option<usize>, AllocError>
        requires within { flow < vec_len directory.now.goals }
        requires settlement { IsSettlement directory.now self.old }
        ensures settlement { OnOk result (IsSettlement directory.now self.new) }
        ensures laid { IfOk result (λ next. MatchOption next ((root : Root) × (self.new.laid.items ≡ slice_set self.old.laid.items flow (stage.Laid root))) (λ k. self.new.laid.items ≡ self.old.laid.items)) }
        ensures waits { IfOk result (λ next. IfSome next (λ k. NumberStep (decls_of directory.now) flow k × ¬ (IsLaidAt self.new.laid.items k))) }
    {
        let named = self.calls[flow].as_slice();
        let ahead = first_unlaid(&self.laid, named, self.seen[flow]);
        let next = call_at(named, ahead);
        self.seen[flow] = ahead;
        if next.is_some() {
            return Ok(next);
        }
        let root = lay(
            directory,
            &self.laid,
            directory.goals[flow],
            &mut self.layout,
        )?;
        self.laid[flow] = Stage::Laid(root);
        Ok(None)
    }

    /// Lets the next sub-workflow wait too, unless it waits already: then they all wait for one another.
    fn wait_for(
        &mut self,
        alloc: Global,
        directory: &Directory<'a>,
        flow: usize,
        next: usize,
        path: &mut Vec<usize>,
    ) -> Result<(), ExpandRefusal>
        requires settlement { IsSettlement directory.now self.old }
        requires path { IsPath (decls_of directory.now) self.old.laid.items path.old.items }
        requires last { path.old.items ≡ take (vec_len path.old - 1) path.old.items ++ flow ∷ [] }
        requires step { NumberStep (decls_of directory.now) flow next }
        requires unlaid { ¬ (IsLaidAt self.old.laid.items next) }
        ensures settlement { OnOk result (IsSettlement directory.now self.new) }
        ensures path { OnOk result (IsPath (decls_of directory.now) self.new.laid.items path.new.items) }
        ensures stays { OnOk result (Stays self.old.laid.items self.new.laid.items) }
        ensures less { OnOk result (work_left self.new.laid.items + 1 ≡ work_left self.old.laid.items) }
        ensures found { IfErr result (IsFound (decls_of directory.now)) }
    {
        match stage_of(&self.laid, next) {
            Some(Stage::Unlaid) => {
                self.laid[next] = Stage::Begun;
                path.push(next)?;
                Ok(())
            }
            Some(Stage::Begun) => Err(ExpandRefusal::Recursive {
                chain: chain_of(alloc, directory, path, flow, next)?,
            }),
            Some(Stage::Laid(_)) => unreachable!(),
            None => unreachable!(),
        }
    }

    /// One step: the last sub-workflow of the path is laid, or waits.
    fn advance(
        &mut self,
        alloc: Global,
        directory: &Directory<'a>,
        flow: usize,
        path: &mut Vec<usize>,
    ) -> Result<(), ExpandRefusal>
        requires settlement { IsSettlement directory.now self.old }
        requires path { IsPath (decls_of directory.now) self.old.laid.items path.old.items }
        requires last { path.old.items ≡ take (vec_len path.old - 1) path.old.items ++ flow ∷ [] }
        ensures settlement { OnOk result (IsSettlement directory.now self.new) }
        ensures path { OnOk result (IsPath (decls_of directory.now) self.new.laid.items path.new.items) }
        ensures stays { OnOk result (Stays self.old.laid.items self.new.laid.items) }
        ensures less { OnOk result (work_left self.new.laid.items + 1 ≡ work_left self.old.laid.items) }
        ensures found { IfErr result (IsFound (decls_of directory.now)) }
    {
        match self.attempt(directory, flow)? {
            Some(next) => self.wait_for(alloc, directory, flow, next, path),
            None => {
                path.pop();
                Ok(())
            }
        }
    }

    /// Lays a sub-workflow, and those that it waits for.
    fn settle(
        &mut self,
        alloc: Global,
        directory: &Directory<'a>,
        start: usize,
    ) -> Result<(), ExpandRefusal>
        requires settlement { IsSettlement directory.now self.old }
        requires idle { IsIdle self.old.laid.items }
        requires unlaid { slice_get self.old.laid.items start ≡ Some stage.Unlaid }
        ensures settlement { OnOk result (IsSettlement directory.now self.new) }
        ensures idle { OnOk result (IsIdle self.new.laid.items) }
        ensures stays { OnOk result (Stays self.old.laid.items self.new.laid.items) }
        ensures start { OnOk result (IsLaidAt self.new.laid.items start) }
        ensures found { IfErr result (IsFound (decls_of directory.now)) }
    {
        let mut path = vec![in alloc; start]?;
        self.laid[start] = Stage::Begun;
        while let Some(flow) = path.last().copied() {
            self.advance(alloc, directory, flow, &mut path)?;
        }
        Ok(())
    }

    /// Lays every sub-workflow.
    pub(crate) fn settle_all(
        &mut self,
        alloc: Global,
        directory: &Directory<'a>,
    ) -> Result<(), ExpandRefusal>
        requires settlement { IsSettlement directory.now self.old }
        requires idle { IsIdle self.old.laid.items }
        ensures settlement { OnOk result (IsSettlement directory.now self.new) }
        ensures all { OnOk result ((k : ℕ) → k < vec_len directory.now.goals → IsLaidAt self.new.laid.items k) }
        ensures found { IfErr result (IsFound (decls_of directory.now)) }
    {
        for flow in 0..directory.goals.len() {
            if !is_laid(&self.laid, flow) {
                self.settle(alloc, directory, flow)?;
            }
        }
        Ok(())
    }
}
