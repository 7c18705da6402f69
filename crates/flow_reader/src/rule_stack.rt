ghost use Rattle.std.specs.Prelude.{◌≡◌, ◌∷◌, ◌+◌, ◌-◌, ◌<◌, ◌^◌, [], OnOk, IfNone, IfSome};
ghost use Rattle.flow_grammar.specs.Machine as machine;
ghost use Rattle.flow_reader.specs.RuleLevels.{rule_frame_of, rule_frames_of, rule_level_of};

use crate::rule_levels::{RuleFrame, RuleLevel};
use flow_form::Wanted;
use std::alloc::{AllocError, Global};
use std::mem;

/// The open parentheses, the innermost last, and what stands in it.
#[derive(Drop)]
pub(crate) struct RuleStack {
    pub(crate) frames: Vec<RuleFrame>,
    pub(crate) level: RuleLevel,
    /// How many parentheses and nots are open.
    pub(crate) height: usize,
    pub(crate) ghost counted: { height ≡ machine.rule_height (rule_frames_of frames.items) },
}

impl RuleStack {
    pub(crate) fn new(alloc: Global) -> RuleStack
        ensures frames { rule_frames_of result.frames.items ≡ [] }
        ensures level { rule_level_of result.level ≡ machine.rule_level [] [] }
    {
        RuleStack {
            frames: Vec::new(alloc),
            level: RuleLevel::new(alloc),
            height: 0,
        }
    }

    /// Begins anew, with nothing open and nothing read.
    pub(crate) fn restart(&mut self, alloc: Global)
        ensures frames { rule_frames_of self.new.frames.items ≡ [] }
        ensures level { rule_level_of self.new.level ≡ machine.rule_level [] [] }
    {
        drop(mem::replace(self, RuleStack::new(alloc)));
    }

    /// Goes inside a further parenthesis, which so many nots precede.
    #[tactic(auto, using(crate::proofs::Heights::height_more))]
    pub(crate) fn open(&mut self, alloc: Global, nots: usize) -> Result<(), AllocError>
        requires { self.old.height + nots < 2 ^ 64 - 1 }
        ensures frames { OnOk result (rule_frames_of self.new.frames.items
            ≡ machine.rule_parenthesis (rule_level_of self.old.level) nots ∷ rule_frames_of self.old.frames.items) }
        ensures level { OnOk result (rule_level_of self.new.level ≡ machine.rule_level [] []) }
    {
        let level = mem::replace(&mut self.level, RuleLevel::new(alloc));
        self.frames.push(RuleFrame { level, nots })?;
        self.height += nots + 1;
        Ok(())
    }

    /// Goes outside the innermost parenthesis, if one is open, and hands out its frame.
    #[tactic(auto, using(crate::proofs::Heights::height_less))]
    pub(crate) fn close(&mut self) -> Option<RuleFrame>
        ensures none { IfNone result (rule_frames_of self.old.frames.items ≡ []) }
        ensures some { IfSome result (λ inner. rule_frames_of self.old.frames.items ≡ rule_frame_of inner ∷ rule_frames_of self.new.frames.items) }
        ensures level { self.new.level ≡ self.old.level }
    {
        let Some(frame) = self.frames.pop() else {
            return None;
        };
        self.height = self.height - frame.nots - 1;
        Some(frame)
    }

    /// What could come after a unit.
    pub(crate) fn wanted(&self) -> Wanted
        ensures { result ≡ machine.wanted_join (rule_frames_of self.now.frames.items) }
    {
        if self.frames.is_empty() {
            Wanted::Semicolon
        } else {
            Wanted::Closing
        }
    }
}
