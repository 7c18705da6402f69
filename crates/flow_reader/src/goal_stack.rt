ghost use Rattle.std.specs.Prelude.{◌≡◌, ◌∷◌, [], map, Bool, IfOk, OnOk, IfNone, IfSome, length, if◌then◌else◌};
ghost use Rattle.flow_form.specs.Form as form;
ghost use Rattle.flow_form.specs.Form.{shape_of};
ghost use Rattle.flow_grammar.specs.Grammar as grammar;
ghost use Rattle.flow_grammar.specs.Machine as machine;
ghost use Rattle.flow_reader.specs.Goals.{goal_list, frame, frame_of, frames_of, level_of};

use flow_form::{Form, Wanted};
use flow_model::Operator;
use std::alloc::{AllocError, Global};
use std::mem;

/// The list of the members.
fn list(operator: Operator, members: Vec<Form>) -> Form
    ensures { shape_of result ≡ goal_list operator (map shape_of members.items) }
{
    match operator {
        Operator::Serial => Form::Serial(members),
        Operator::Beside => Form::Beside(members),
        Operator::Either => Form::Either(members),
    }
}

/// The list of the members; of one member, that member.
fn gathered(operator: Operator, mut members: Vec<Form>) -> Form
    ensures { shape_of result ≡ grammar.gather (goal_list operator) (map shape_of members.items) }
{
    if members.len() == 1 {
        members.swap_remove(0)
    } else {
        list(operator, members)
    }
}

/// The members that are whole, of the three lists that are being read.
#[derive(Drop)]
pub(crate) struct Level {
    eithers: Vec<Form>,
    besides: Vec<Form>,
    serials: Vec<Form>,
}

impl Level {
    pub(crate) fn new(alloc: Global) -> Level
        ensures { level_of result ≡ machine.level [] [] [] }
    {
        Level {
            eithers: Vec::new(alloc),
            besides: Vec::new(alloc),
            serials: Vec::new(alloc),
        }
    }

    pub(crate) fn push(&mut self, form: Form) -> Result<(), AllocError>
        ensures { OnOk result (level_of self.new ≡ machine.push (level_of self.old) (shape_of form)) }
    {
        self.serials.push(form)?;
        Ok(())
    }

    pub(crate) fn close_serial(&mut self, alloc: Global) -> Result<(), AllocError>
        ensures { OnOk result (level_of self.new ≡ machine.close_serial (level_of self.old)) }
    {
        let serials = mem::replace(&mut self.serials, Vec::new(alloc));
        self.besides.push(gathered(Operator::Serial, serials))?;
        Ok(())
    }

    pub(crate) fn close_beside(&mut self, alloc: Global) -> Result<(), AllocError>
        ensures { OnOk result (level_of self.new ≡ machine.close_beside (level_of self.old)) }
    {
        self.close_serial(alloc)?;
        let besides = mem::replace(&mut self.besides, Vec::new(alloc));
        self.eithers.push(gathered(Operator::Beside, besides))?;
        Ok(())
    }

    pub(crate) fn closed(mut self, alloc: Global) -> Result<Form, AllocError>
        ensures { IfOk result (λ form. shape_of form ≡ machine.close (level_of self)) }
    {
        self.close_beside(alloc)?;
        Ok(gathered(Operator::Either, self.eithers))
    }
}

/// An open parenthesis, with what stands outside it, and whether it isolates what stands inside.
#[derive(Drop)]
pub(crate) struct Frame {
    pub(crate) level: Level,
    pub(crate) isolates: bool,
}

/// The open parentheses, the innermost last, and what stands in it.
#[derive(Drop)]
pub(crate) struct Stack {
    pub(crate) frames: Vec<Frame>,
    pub(crate) level: Level,
}

impl Stack {
    pub(crate) fn new(alloc: Global) -> Stack
        ensures frames { frames_of result.frames.items ≡ [] }
        ensures level { level_of result.level ≡ machine.level [] [] [] }
    {
        Stack {
            frames: Vec::new(alloc),
            level: Level::new(alloc),
        }
    }

    /// Begins anew, with nothing open and nothing read.
    pub(crate) fn restart(&mut self, alloc: Global)
        ensures frames { frames_of self.new.frames.items ≡ [] }
        ensures level { level_of self.new.level ≡ machine.level [] [] [] }
    {
        drop(mem::replace(self, Stack::new(alloc)));
    }

    /// Goes inside a further parenthesis.
    pub(crate) fn open(&mut self, alloc: Global, isolates: bool) -> Result<(), AllocError>
        ensures frames { OnOk result (frames_of self.new.frames.items
            ≡ frame isolates (level_of self.old.level) ∷ frames_of self.old.frames.items) }
        ensures level { OnOk result (level_of self.new.level ≡ machine.level [] [] []) }
    {
        let level = mem::replace(&mut self.level, Level::new(alloc));
        self.frames.push(Frame { level, isolates })?;
        Ok(())
    }

    /// Goes outside the innermost parenthesis, if one is open, and hands out its frame.
    pub(crate) fn close(&mut self) -> Option<Frame>
        ensures none { IfNone result (frames_of self.old.frames.items ≡ []) }
        ensures some { IfSome result (λ inner. frames_of self.old.frames.items ≡ frame_of inner ∷ frames_of self.new.frames.items) }
        ensures level { self.new.level ≡ self.old.level }
    {
        self.frames.pop()
    }

    /// What could come after an atom.
    pub(crate) fn wanted(&self) -> Wanted
        ensures { result ≡ machine.wanted_join (frames_of self.now.frames.items) }
    {
        if self.frames.is_empty() {
            Wanted::Semicolon
        } else {
            Wanted::Closing
        }
    }
}
