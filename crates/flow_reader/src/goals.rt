ghost use Rattle.std.specs.Prelude.{◌≡◌, IfOk};
ghost use Rattle.flow_form.specs.Form.{shape_of};
ghost use Rattle.flow_grammar.specs.Grammar as grammar;
ghost use Rattle.flow_grammar.specs.Machine as machine;
ghost use Rattle.flow_grammar.specs.Symbol as grammar_symbol;
ghost use Rattle.flow_reader.specs.Symbols.{meant};
ghost use Rattle.flow_reader.specs.Goals.{prefix_of, frames_of, level_of, goal_state, goal_step};

use crate::arguments::{ArgReader, ArgStep};
use crate::goal_stack::{Level, Stack};
use crate::symbol::Symbol;
use flow_form::{Fact, Form, Name, Wanted};
use flow_model::Deed;
use std::alloc::{AllocError, Global};
use std::mem;

/// The leaf that does it with the fact.
fn leaf(deed: Deed, fact: Fact) -> Form
    ensures { shape_of result ≡ grammar.prefixed (prefix_of deed) fact }
{
    match deed {
        Deed::Test => Form::Test(fact),
        Deed::Absent => Form::Absent(fact),
        Deed::Ins => Form::Ins(fact),
        Deed::Del => Form::Del(fact),
    }
}

/// Where the reading of a goal stands, beside its stack.
#[derive(Drop)]
pub(crate) enum GoalPlace {
    AtomNeeded,
    AfterAtom,
    OpeningNeeded,
    FactNeeded(Deed),
    AfterRelation(Deed, Name),
    InArgs(Deed, ArgReader),
}

/// What a symbol makes of it.
#[derive(Drop)]
pub(crate) enum GoalStep {
    Reading(GoalPlace),
    Whole(Form),
    Stuck,
}

/// A goal that is an atom, and then what may follow it.
fn after_form(stack: &mut Stack, form: Form) -> Result<GoalStep, AllocError>
    ensures { IfOk result (λ step. goal_step stack.new step ≡ machine.reading
        (machine.after_atom (frames_of stack.old.frames.items) (machine.push (level_of stack.old.level) (shape_of form)))) }
{
    stack.level.push(form)?;
    Ok(GoalStep::Reading(GoalPlace::AfterAtom))
}

fn start_atom(alloc: Global, stack: &mut Stack, symbol: Symbol<'_>) -> Result<GoalStep, AllocError>
    ensures { IfOk result (λ step. goal_step stack.new step
        ≡ machine.start_atom (frames_of stack.old.frames.items) (level_of stack.old.level) (meant symbol.entry)) }
{
    match symbol {
        Symbol::Nop => after_form(stack, Form::Nop),
        Symbol::Name(name) => after_form(stack, Form::Name(Name::new(alloc, name)?)),
        Symbol::Question => Ok(GoalStep::Reading(GoalPlace::FactNeeded(Deed::Test))),
        Symbol::Exclamation => Ok(GoalStep::Reading(GoalPlace::FactNeeded(Deed::Absent))),
        Symbol::Ins => Ok(GoalStep::Reading(GoalPlace::FactNeeded(Deed::Ins))),
        Symbol::Del => Ok(GoalStep::Reading(GoalPlace::FactNeeded(Deed::Del))),
        Symbol::Iso => Ok(GoalStep::Reading(GoalPlace::OpeningNeeded)),
        Symbol::Opening => {
            stack.open(alloc, false)?;
            Ok(GoalStep::Reading(GoalPlace::AtomNeeded))
        }
        _ => Ok(GoalStep::Stuck),
    }
}

fn join_atom(alloc: Global, stack: &mut Stack, symbol: Symbol<'_>) -> Result<GoalStep, AllocError>
    ensures { IfOk result (λ step. goal_step stack.new step
        ≡ machine.join_atom (frames_of stack.old.frames.items) (level_of stack.old.level) (meant symbol.entry)) }
{
    match symbol {
        Symbol::Star => Ok(GoalStep::Reading(GoalPlace::AtomNeeded)),
        Symbol::Bar => {
            stack.level.close_serial(alloc)?;
            Ok(GoalStep::Reading(GoalPlace::AtomNeeded))
        }
        Symbol::Plus => {
            stack.level.close_beside(alloc)?;
            Ok(GoalStep::Reading(GoalPlace::AtomNeeded))
        }
        Symbol::Semicolon => end_goal(alloc, stack),
        Symbol::Closing => close_parenthesis(alloc, stack),
        _ => Ok(GoalStep::Stuck),
    }
}

fn end_goal(alloc: Global, stack: &mut Stack) -> Result<GoalStep, AllocError>
    ensures { IfOk result (λ step. goal_step stack.new step
        ≡ machine.join_atom (frames_of stack.old.frames.items) (level_of stack.old.level) grammar_symbol.semicolon) }
{
    if !stack.frames.is_empty() {
        return Ok(GoalStep::Stuck);
    }
    let level = mem::replace(&mut stack.level, Level::new(alloc));
    Ok(GoalStep::Whole(level.closed(alloc)?))
}

fn close_parenthesis(alloc: Global, stack: &mut Stack) -> Result<GoalStep, AllocError>
    ensures { IfOk result (λ step. goal_step stack.new step
        ≡ machine.join_atom (frames_of stack.old.frames.items) (level_of stack.old.level) grammar_symbol.closing) }
{
    let Some(frame) = stack.close() else {
        return Ok(GoalStep::Stuck);
    };
    let inside = mem::replace(&mut stack.level, frame.level).closed(alloc)?;
    if frame.isolates {
        after_form(stack, Form::Iso(Box::new(alloc, inside)?))
    } else {
        after_form(stack, inside)
    }
}

fn open_args(
    alloc: Global,
    stack: &mut Stack,
    deed: Deed,
    relation: Name,
    symbol: Symbol<'_>,
) -> Result<GoalStep, AllocError>
    ensures { IfOk result (λ step. goal_step stack.new step
        ≡ machine.open_args (prefix_of deed) relation (frames_of stack.old.frames.items) (level_of stack.old.level) (meant symbol.entry)) }
{
    match symbol {
        Symbol::Opening => {
            let args = ArgReader::ConstantNeeded(relation, Vec::new(alloc));
            Ok(GoalStep::Reading(GoalPlace::InArgs(deed, args)))
        }
        _ => {
            let fact = Fact::new(relation, Vec::new(alloc));
            stack.level.push(leaf(deed, fact))?;
            join_atom(alloc, stack, symbol)
        }
    }
}

impl GoalPlace {
    pub(crate) fn step(
        self,
        alloc: Global,
        stack: &mut Stack,
        symbol: Symbol<'_>,
    ) -> Result<GoalStep, AllocError>
        ensures { IfOk result (λ step. goal_step stack.new step ≡ machine.step_goal (goal_state stack.old self) (meant symbol.entry)) }
    {
        match self {
            GoalPlace::AtomNeeded => start_atom(alloc, stack, symbol),
            GoalPlace::AfterAtom => join_atom(alloc, stack, symbol),
            GoalPlace::OpeningNeeded => match symbol {
                Symbol::Opening => {
                    stack.open(alloc, true)?;
                    Ok(GoalStep::Reading(GoalPlace::AtomNeeded))
                }
                _ => Ok(GoalStep::Stuck),
            },
            GoalPlace::FactNeeded(deed) => match symbol {
                Symbol::Name(name) => {
                    let relation = Name::new(alloc, name)?;
                    Ok(GoalStep::Reading(GoalPlace::AfterRelation(deed, relation)))
                }
                _ => Ok(GoalStep::Stuck),
            },
            GoalPlace::AfterRelation(deed, relation) => {
                open_args(alloc, stack, deed, relation, symbol)
            }
            GoalPlace::InArgs(deed, args) => match args.step(alloc, symbol)? {
                ArgStep::Reading(args) => Ok(GoalStep::Reading(GoalPlace::InArgs(deed, args))),
                ArgStep::Whole(fact) => after_form(stack, leaf(deed, fact)),
                ArgStep::Stuck => Ok(GoalStep::Stuck),
            },
        }
    }

    /// What could come next.
    pub(crate) fn wanted(&self, stack: &Stack) -> Wanted
        ensures { result ≡ machine.wanted_goal (goal_state stack.now self.now) }
    {
        match self {
            GoalPlace::AtomNeeded => Wanted::Atom,
            GoalPlace::AfterAtom | GoalPlace::AfterRelation(..) => stack.wanted(),
            GoalPlace::OpeningNeeded => Wanted::Opening,
            GoalPlace::FactNeeded(_) => Wanted::Fact,
            GoalPlace::InArgs(_, args) => args.wanted(),
        }
    }

    /// In how many parentheses the next symbol stands.
    pub(crate) fn depth(&self, stack: &Stack) -> usize
        ensures { result ≡ machine.depth_goal (goal_state stack.now self.now) }
    {
        match self {
            GoalPlace::AtomNeeded
            | GoalPlace::AfterAtom
            | GoalPlace::OpeningNeeded
            | GoalPlace::FactNeeded(_)
            | GoalPlace::AfterRelation(..) => stack.frames.len(),
            GoalPlace::InArgs(..) => stack.frames.len() + 1,
        }
    }
}
