ghost use Rattle.std.specs.Prelude.{◌≡◌, ◌+◌, ◌-◌, ◌^◌, ◌<◌, IfOk};
ghost use Rattle.flow_form.specs.RuleForm.{rule_shape_of};
ghost use Rattle.flow_grammar.specs.Machine as machine;
ghost use Rattle.flow_grammar.specs.Symbol as grammar_symbol;
ghost use Rattle.flow_reader.specs.Symbols.{meant};
ghost use Rattle.flow_reader.specs.RuleLevels.{rule_frames_of, rule_level_of};
ghost use Rattle.flow_reader.specs.Rules.{missing_names, rule_state, rule_step};

use crate::rule_levels::RuleLevel;
use crate::rule_stack::RuleStack;
use crate::symbol::Symbol;
use flow_form::{Name, RuleForm, Wanted};
use std::alloc::{AllocError, Global};
use std::mem;

/// A rule on one event.
#[derive(Clone, Copy)]
pub(crate) enum Single {
    Must,
    Never,
}

/// A rule on two events.
#[derive(Clone, Copy)]
pub(crate) enum Pair {
    Precedes,
    Needs,
}

/// The names that must still come.
#[derive(Drop)]
pub(crate) enum MissingNames {
    One(Single),
    Two(Pair),
    Second(Pair, Name),
    TwoOrMore,
    OneOrMore(Name),
}

/// Where the reading of a rule stands, beside its stack. The number is that of the nots directly before.
#[derive(Drop)]
pub(crate) enum RulePlace {
    UnitNeeded(usize),
    AfterUnit,
    NameNeeded(MissingNames, usize),
    AfterNames(Vec<Name>, usize),
}

/// What a symbol makes of it.
#[derive(Drop)]
pub(crate) enum RuleStep {
    Reading(RulePlace),
    Whole(RuleForm),
    Stuck,
}

fn start_unit(
    alloc: Global,
    stack: &mut RuleStack,
    nots: usize,
    symbol: Symbol<'_>,
) -> Result<RuleStep, AllocError>
    requires { stack.old.height + nots < 2 ^ 64 - 1 }
    ensures { IfOk result (λ step. rule_step stack.new step
        ≡ machine.start_unit (rule_frames_of stack.old.frames.items) (rule_level_of stack.old.level) nots (meant symbol.entry)) }
{
    let names = match symbol {
        Symbol::Not => return Ok(RuleStep::Reading(RulePlace::UnitNeeded(nots + 1))),
        Symbol::Opening => {
            stack.open(alloc, nots)?;
            return Ok(RuleStep::Reading(RulePlace::UnitNeeded(0)));
        }
        Symbol::Must => MissingNames::One(Single::Must),
        Symbol::Never => MissingNames::One(Single::Never),
        Symbol::Order => MissingNames::TwoOrMore,
        Symbol::Precedes => MissingNames::Two(Pair::Precedes),
        Symbol::Needs => MissingNames::Two(Pair::Needs),
        _ => return Ok(RuleStep::Stuck),
    };
    Ok(RuleStep::Reading(RulePlace::NameNeeded(names, nots)))
}

fn end_rule(alloc: Global, stack: &mut RuleStack) -> Result<RuleStep, AllocError>
    ensures { IfOk result (λ step. rule_step stack.new step
        ≡ machine.join_unit (rule_frames_of stack.old.frames.items) (rule_level_of stack.old.level) grammar_symbol.semicolon) }
{
    if !stack.frames.is_empty() {
        return Ok(RuleStep::Stuck);
    }
    let level = mem::replace(&mut stack.level, RuleLevel::new(alloc));
    Ok(RuleStep::Whole(level.closed(alloc)?))
}

fn close_parenthesis(alloc: Global, stack: &mut RuleStack) -> Result<RuleStep, AllocError>
    ensures { IfOk result (λ step. rule_step stack.new step
        ≡ machine.join_unit (rule_frames_of stack.old.frames.items) (rule_level_of stack.old.level) grammar_symbol.closing) }
{
    let Some(frame) = stack.close() else {
        return Ok(RuleStep::Stuck);
    };
    let inside = mem::replace(&mut stack.level, frame.level).closed(alloc)?;
    stack.level.push(alloc, frame.nots, inside)?;
    Ok(RuleStep::Reading(RulePlace::AfterUnit))
}

fn join_unit(
    alloc: Global,
    stack: &mut RuleStack,
    symbol: Symbol<'_>,
) -> Result<RuleStep, AllocError>
    ensures { IfOk result (λ step. rule_step stack.new step
        ≡ machine.join_unit (rule_frames_of stack.old.frames.items) (rule_level_of stack.old.level) (meant symbol.entry)) }
{
    match symbol {
        Symbol::And => Ok(RuleStep::Reading(RulePlace::UnitNeeded(0))),
        Symbol::Or => {
            stack.level.close_all(alloc)?;
            Ok(RuleStep::Reading(RulePlace::UnitNeeded(0)))
        }
        Symbol::Semicolon => end_rule(alloc, stack),
        Symbol::Closing => close_parenthesis(alloc, stack),
        _ => Ok(RuleStep::Stuck),
    }
}

/// A rule under its nots, as a unit that is whole.
fn after_rule(
    alloc: Global,
    stack: &mut RuleStack,
    nots: usize,
    rule: RuleForm,
) -> Result<RulePlace, AllocError>
    ensures { IfOk result (λ place. rule_state stack.new place ≡ machine.after_unit (rule_frames_of stack.old.frames.items)
        (machine.push_rule (rule_level_of stack.old.level) (machine.negate nots (rule_shape_of rule)))) }
{
    stack.level.push(alloc, nots, rule)?;
    Ok(RulePlace::AfterUnit)
}

fn take_name(
    alloc: Global,
    stack: &mut RuleStack,
    names: MissingNames,
    nots: usize,
    name: Name,
) -> Result<RulePlace, AllocError>
    ensures { IfOk result (λ place. rule_state stack.new place
        ≡ machine.take_name (missing_names names) (rule_frames_of stack.old.frames.items) (rule_level_of stack.old.level) nots name) }
{
    match names {
        MissingNames::One(Single::Must) => after_rule(alloc, stack, nots, RuleForm::Must(name)),
        MissingNames::One(Single::Never) => after_rule(alloc, stack, nots, RuleForm::Never(name)),
        MissingNames::Two(pair) => {
            Ok(RulePlace::NameNeeded(MissingNames::Second(pair, name), nots))
        }
        MissingNames::Second(Pair::Precedes, first) => {
            after_rule(alloc, stack, nots, RuleForm::Precedes(first, name))
        }
        MissingNames::Second(Pair::Needs, first) => {
            after_rule(alloc, stack, nots, RuleForm::Needs(first, name))
        }
        MissingNames::TwoOrMore => Ok(RulePlace::NameNeeded(MissingNames::OneOrMore(name), nots)),
        MissingNames::OneOrMore(first) => {
            let both = vec![in alloc; first, name]?;
            Ok(RulePlace::AfterNames(both, nots))
        }
    }
}

fn read_name(
    alloc: Global,
    stack: &mut RuleStack,
    names: MissingNames,
    nots: usize,
    symbol: Symbol<'_>,
) -> Result<RuleStep, AllocError>
    ensures { IfOk result (λ step. rule_step stack.new step
        ≡ machine.read_name (missing_names names) (rule_frames_of stack.old.frames.items) (rule_level_of stack.old.level) nots (meant symbol.entry)) }
{
    match symbol {
        Symbol::Name(name) => {
            let name = Name::new(alloc, name)?;
            Ok(RuleStep::Reading(take_name(alloc, stack, names, nots, name)?))
        }
        _ => {
            drop(names);
            Ok(RuleStep::Stuck)
        }
    }
}

fn more_names(
    alloc: Global,
    stack: &mut RuleStack,
    mut names: Vec<Name>,
    nots: usize,
    symbol: Symbol<'_>,
) -> Result<RuleStep, AllocError>
    ensures { IfOk result (λ step. rule_step stack.new step
        ≡ machine.more_names names.items (rule_frames_of stack.old.frames.items) (rule_level_of stack.old.level) nots (meant symbol.entry)) }
{
    match symbol {
        Symbol::Name(name) => {
            names.push(Name::new(alloc, name)?)?;
            Ok(RuleStep::Reading(RulePlace::AfterNames(names, nots)))
        }
        _ => {
            stack.level.push(alloc, nots, RuleForm::Order(names))?;
            join_unit(alloc, stack, symbol)
        }
    }
}

impl RulePlace {
    #[tactic(auto, using(crate::proofs::Heights::nots_added))]
    pub(crate) fn step(
        self,
        alloc: Global,
        stack: &mut RuleStack,
        symbol: Symbol<'_>,
    ) -> Result<RuleStep, AllocError>
        requires { machine.depth_rule (rule_state stack.old self) < 2 ^ 64 - 1 }
        ensures { IfOk result (λ step. rule_step stack.new step ≡ machine.step_rule (rule_state stack.old self) (meant symbol.entry)) }
    {
        match self {
            RulePlace::UnitNeeded(nots) => start_unit(alloc, stack, nots, symbol),
            RulePlace::AfterUnit => join_unit(alloc, stack, symbol),
            RulePlace::NameNeeded(names, nots) => read_name(alloc, stack, names, nots, symbol),
            RulePlace::AfterNames(names, nots) => more_names(alloc, stack, names, nots, symbol),
        }
    }

    /// What could come next.
    pub(crate) fn wanted(&self, stack: &RuleStack) -> Wanted
        ensures { result ≡ machine.wanted_rule (rule_state stack.now self.now) }
    {
        match self {
            RulePlace::UnitNeeded(_) => Wanted::Rule,
            RulePlace::NameNeeded(..) => Wanted::Name,
            RulePlace::AfterUnit | RulePlace::AfterNames(..) => stack.wanted(),
        }
    }

    /// In how many parentheses and nots the next symbol stands.
    #[tactic(auto, using(crate::proofs::Heights::nots_added))]
    pub(crate) fn depth(&self, stack: &RuleStack) -> usize
        requires { machine.depth_rule (rule_state stack.now self.now) < 2 ^ 64 - 1 }
        ensures { result ≡ machine.depth_rule (rule_state stack.now self.now) }
    {
        match self {
            RulePlace::UnitNeeded(nots) | RulePlace::NameNeeded(_, nots) => stack.height + *nots,
            RulePlace::AfterUnit | RulePlace::AfterNames(..) => stack.height,
        }
    }
}
