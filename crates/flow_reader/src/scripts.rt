ghost use Rattle.std.specs.Prelude.{◌≡◌, ◌∷◌, ◌++◌, ◌-◌, ◌^◌, ◌<◌, [], option_map, if◌then◌else◌, IfOk, OnOk};
ghost use Rattle.flow_facts.specs.Atom.{atom};
ghost use Rattle.flow_form.specs.Form.{shape_of};
ghost use Rattle.flow_form.specs.Script as form;
ghost use Rattle.flow_form.specs.Script.{said};
ghost use Rattle.flow_grammar.specs.Machine as machine;
ghost use Rattle.flow_reader.specs.Symbols.{meant};
ghost use Rattle.flow_reader.specs.Goals.{goal_step};
ghost use Rattle.flow_reader.specs.Rules.{rule_step};
ghost use Rattle.flow_reader.specs.Scripts.{declared_so_far, fact_state, event_state, flow_state, script_state};

use crate::arguments::{ArgReader, ArgStep};
use crate::goal_stack::Stack;
use crate::goals::{GoalPlace, GoalStep};
use crate::rule_stack::RuleStack;
use crate::rules::{RulePlace, RuleStep};
use crate::symbol::Symbol;
use flow_form::{Decl, Fact, Form, Name, Note, Script, Wanted};
use std::alloc::{AllocError, Global};
use std::mem;

/// What a text has said so far, and the stacks of the goal and of the rule that are being read.
#[derive(Drop)]
pub(crate) struct ScriptParts {
    pub(crate) script: Script,
    pub(crate) goals: Stack,
    pub(crate) rules: RuleStack,
}

/// Where the reading of declared facts stands.
#[derive(Drop)]
pub(crate) enum FactPlace {
    FactNeeded,
    AfterRelation(Name),
    InArgs(ArgReader),
    AfterFact,
}

/// Where the reading of declared events stands.
#[derive(Drop)]
pub(crate) enum EventPlace {
    NameNeeded,
    AfterName(Name),
    AfterFail(Name),
    AfterNote,
}

/// Where the reading of a sub-workflow stands.
#[derive(Drop)]
pub(crate) enum FlowPlace {
    NameNeeded,
    EqualsNeeded(Name),
    InGoal(Name, GoalPlace),
}

/// Where the reading of a text stands, beside its parts.
#[derive(Drop)]
pub(crate) enum ScriptPlace {
    DeclarationNeeded,
    InFact(FactPlace),
    InEvent(EventPlace),
    InFlow(FlowPlace),
    InGoal(GoalPlace),
    ConstraintNeeded,
    InConstraint(RulePlace),
}

impl ScriptParts {
    /// Nothing yet.
    pub(crate) fn new(alloc: Global) -> ScriptParts
        ensures { declared_so_far result ≡ [] }
    {
        ScriptParts {
            script: Script {
                decls: Vec::new(alloc),
                goal: Form::Nop,
                rules: Vec::new(alloc),
            },
            goals: Stack::new(alloc),
            rules: RuleStack::new(alloc),
        }
    }

    /// Says one more declaration.
    fn declare(&mut self, decl: Decl) -> Result<(), AllocError>
        ensures { OnOk result (declared_so_far self.new ≡ declared_so_far self.old ++ form.declared decl ∷ []) }
    {
        self.script.decls.push(decl)?;
        Ok(())
    }

    fn start_declaration(&mut self, alloc: Global, symbol: Symbol<'_>) -> Option<ScriptPlace>
        ensures { option_map (script_state self.new) result ≡ machine.start_declaration (declared_so_far self.old) (meant symbol.entry) }
    {
        match symbol {
            Symbol::Fact => Some(ScriptPlace::InFact(FactPlace::FactNeeded)),
            Symbol::Event => Some(ScriptPlace::InEvent(EventPlace::NameNeeded)),
            Symbol::Flow => Some(ScriptPlace::InFlow(FlowPlace::NameNeeded)),
            Symbol::Goal => {
                self.goals.restart(alloc);
                Some(ScriptPlace::InGoal(GoalPlace::AtomNeeded))
            }
            _ => None,
        }
    }

    fn join_fact(&self, symbol: Symbol<'_>) -> Option<ScriptPlace>
        ensures { option_map (script_state self.now) result ≡ machine.join_item machine.fact_to_declare (declared_so_far self.now) (meant symbol.entry) }
    {
        match symbol {
            Symbol::Comma => Some(ScriptPlace::InFact(FactPlace::FactNeeded)),
            Symbol::Semicolon => Some(ScriptPlace::DeclarationNeeded),
            _ => None,
        }
    }

    fn open_args(
        &mut self,
        alloc: Global,
        relation: Name,
        symbol: Symbol<'_>,
    ) -> Result<Option<ScriptPlace>, AllocError>
        ensures { IfOk result (λ step. option_map (script_state self.new) step
            ≡ machine.open_declared_args (declared_so_far self.old) relation (meant symbol.entry)) }
    {
        match symbol {
            Symbol::Opening => {
                let args = ArgReader::ConstantNeeded(relation, Vec::new(alloc));
                Ok(Some(ScriptPlace::InFact(FactPlace::InArgs(args))))
            }
            _ => {
                let fact = Fact::new(relation, Vec::new(alloc));
                self.declare(Decl::Fact(fact))?;
                Ok(self.join_fact(symbol))
            }
        }
    }

    fn step_fact(
        &mut self,
        alloc: Global,
        place: FactPlace,
        symbol: Symbol<'_>,
    ) -> Result<Option<ScriptPlace>, AllocError>
        ensures { IfOk result (λ step. option_map (script_state self.new) step
            ≡ machine.step_script (fact_state (declared_so_far self.old) place) (meant symbol.entry)) }
    {
        match place {
            FactPlace::FactNeeded => match symbol {
                Symbol::Name(name) => {
                    let relation = Name::new(alloc, name)?;
                    Ok(Some(ScriptPlace::InFact(FactPlace::AfterRelation(relation))))
                }
                _ => Ok(None),
            },
            FactPlace::AfterRelation(relation) => self.open_args(alloc, relation, symbol),
            FactPlace::InArgs(args) => match args.step(alloc, symbol)? {
                ArgStep::Reading(args) => Ok(Some(ScriptPlace::InFact(FactPlace::InArgs(args)))),
                ArgStep::Whole(fact) => {
                    self.declare(Decl::Fact(fact))?;
                    Ok(Some(ScriptPlace::InFact(FactPlace::AfterFact)))
                }
                ArgStep::Stuck => Ok(None),
            },
            FactPlace::AfterFact => Ok(self.join_fact(symbol)),
        }
    }

    fn join_event(&self, symbol: Symbol<'_>) -> Option<ScriptPlace>
        ensures { option_map (script_state self.now) result ≡ machine.join_item machine.event_to_declare (declared_so_far self.now) (meant symbol.entry) }
    {
        match symbol {
            Symbol::Comma => Some(ScriptPlace::InEvent(EventPlace::NameNeeded)),
            Symbol::Semicolon => Some(ScriptPlace::DeclarationNeeded),
            _ => None,
        }
    }

    fn note_event(
        &mut self,
        event: Name,
        symbol: Symbol<'_>,
    ) -> Result<Option<ScriptPlace>, AllocError>
        ensures { IfOk result (λ step. option_map (script_state self.new) step
            ≡ machine.note_event (declared_so_far self.old) event (meant symbol.entry)) }
    {
        if let Symbol::Fail = symbol {
            return Ok(Some(ScriptPlace::InEvent(EventPlace::AfterFail(event))));
        }
        self.declare(Decl::Event(event, Note::Done))?;
        match symbol {
            Symbol::Done => Ok(Some(ScriptPlace::InEvent(EventPlace::AfterNote))),
            _ => Ok(self.join_event(symbol)),
        }
    }

    fn count_failures(
        &mut self,
        event: Name,
        symbol: Symbol<'_>,
    ) -> Result<Option<ScriptPlace>, AllocError>
        ensures { IfOk result (λ step. option_map (script_state self.new) step
            ≡ machine.count_failures (declared_so_far self.old) event (meant symbol.entry)) }
    {
        match symbol {
            Symbol::Number(count) => {
                let note = Note::FailFirst(count);
                self.declare(Decl::Event(event, note))?;
                Ok(Some(ScriptPlace::InEvent(EventPlace::AfterNote)))
            }
            _ => {
                self.declare(Decl::Event(event, Note::Fail))?;
                Ok(self.join_event(symbol))
            }
        }
    }

    fn step_event(
        &mut self,
        alloc: Global,
        place: EventPlace,
        symbol: Symbol<'_>,
    ) -> Result<Option<ScriptPlace>, AllocError>
        ensures { IfOk result (λ step. option_map (script_state self.new) step
            ≡ machine.step_script (event_state (declared_so_far self.old) place) (meant symbol.entry)) }
    {
        match place {
            EventPlace::NameNeeded => match symbol {
                Symbol::Name(name) => {
                    let event = Name::new(alloc, name)?;
                    Ok(Some(ScriptPlace::InEvent(EventPlace::AfterName(event))))
                }
                _ => Ok(None),
            },
            EventPlace::AfterName(event) => self.note_event(event, symbol),
            EventPlace::AfterFail(event) => self.count_failures(event, symbol),
            EventPlace::AfterNote => Ok(self.join_event(symbol)),
        }
    }

    fn after_flow(&mut self, flow: Name, step: GoalStep) -> Result<Option<ScriptPlace>, AllocError>
        ensures { IfOk result (λ made. option_map (script_state self.new) made
            ≡ machine.after_flow_step (declared_so_far self.old) flow (goal_step self.old.goals step)) }
    {
        match step {
            GoalStep::Reading(goal) => Ok(Some(ScriptPlace::InFlow(FlowPlace::InGoal(flow, goal)))),
            GoalStep::Whole(form) => {
                self.declare(Decl::Flow(flow, form))?;
                Ok(Some(ScriptPlace::DeclarationNeeded))
            }
            GoalStep::Stuck => Ok(None),
        }
    }

    fn step_flow(
        &mut self,
        alloc: Global,
        place: FlowPlace,
        symbol: Symbol<'_>,
    ) -> Result<Option<ScriptPlace>, AllocError>
        ensures { IfOk result (λ step. option_map (script_state self.new) step
            ≡ machine.step_script (flow_state (declared_so_far self.old) self.old.goals place) (meant symbol.entry)) }
    {
        match place {
            FlowPlace::NameNeeded => match symbol {
                Symbol::Name(name) => {
                    let flow = Name::new(alloc, name)?;
                    Ok(Some(ScriptPlace::InFlow(FlowPlace::EqualsNeeded(flow))))
                }
                _ => Ok(None),
            },
            FlowPlace::EqualsNeeded(flow) => match symbol {
                Symbol::Equals => {
                    self.goals.restart(alloc);
                    Ok(Some(ScriptPlace::InFlow(FlowPlace::InGoal(flow, GoalPlace::AtomNeeded))))
                }
                _ => Ok(None),
            },
            FlowPlace::InGoal(flow, goal) => {
                let step = goal.step(alloc, &mut self.goals, symbol)?;
                self.after_flow(flow, step)
            }
        }
    }

    fn after_goal(&mut self, alloc: Global, step: GoalStep) -> Option<ScriptPlace>
        ensures { option_map (script_state self.new) result
            ≡ machine.after_goal_step (declared_so_far self.old) (goal_step self.old.goals step) }
    {
        match step {
            GoalStep::Reading(goal) => Some(ScriptPlace::InGoal(goal)),
            GoalStep::Whole(form) => {
                drop(mem::replace(&mut self.script.goal, form));
                drop(mem::replace(&mut self.script.rules, Vec::new(alloc)));
                Some(ScriptPlace::ConstraintNeeded)
            }
            GoalStep::Stuck => None,
        }
    }

    fn after_constraint(&mut self, step: RuleStep) -> Result<Option<ScriptPlace>, AllocError>
        ensures { IfOk result (λ made. option_map (script_state self.new) made ≡ machine.after_rule_step
            (declared_so_far self.old) (said self.old.script).goal (said self.old.script).rules (rule_step self.old.rules step)) }
    {
        match step {
            RuleStep::Reading(rule) => Ok(Some(ScriptPlace::InConstraint(rule))),
            RuleStep::Whole(rule) => {
                self.script.rules.push(rule)?;
                Ok(Some(ScriptPlace::ConstraintNeeded))
            }
            RuleStep::Stuck => Ok(None),
        }
    }

    /// What a symbol makes of it. `None` where no text goes on with it.
    pub(crate) fn step(
        &mut self,
        alloc: Global,
        place: ScriptPlace,
        symbol: Symbol<'_>,
    ) -> Result<Option<ScriptPlace>, AllocError>
        requires { machine.depth_script (script_state self.old place) < 2 ^ 64 - 1 }
        ensures { IfOk result (λ step. option_map (script_state self.new) step
            ≡ machine.step_script (script_state self.old place) (meant symbol.entry)) }
    {
        match place {
            ScriptPlace::DeclarationNeeded => Ok(self.start_declaration(alloc, symbol)),
            ScriptPlace::InFact(place) => self.step_fact(alloc, place, symbol),
            ScriptPlace::InEvent(place) => self.step_event(alloc, place, symbol),
            ScriptPlace::InFlow(place) => self.step_flow(alloc, place, symbol),
            ScriptPlace::InGoal(goal) => {
                let step = goal.step(alloc, &mut self.goals, symbol)?;
                Ok(self.after_goal(alloc, step))
            }
            ScriptPlace::ConstraintNeeded => match symbol {
                Symbol::Constraint => {
                    self.rules.restart(alloc);
                    Ok(Some(ScriptPlace::InConstraint(RulePlace::UnitNeeded(0))))
                }
                _ => Ok(None),
            },
            ScriptPlace::InConstraint(rule) => {
                let step = rule.step(alloc, &mut self.rules, symbol)?;
                self.after_constraint(step)
            }
        }
    }

    /// What could come next.
    pub(crate) fn wanted(&self, place: &ScriptPlace) -> Wanted
        ensures { result ≡ machine.wanted_script (script_state self.now place.now) }
    {
        match place {
            ScriptPlace::DeclarationNeeded => Wanted::Declaration,
            ScriptPlace::InFact(FactPlace::FactNeeded) => Wanted::Fact,
            ScriptPlace::InFact(FactPlace::InArgs(args)) => args.wanted(),
            ScriptPlace::InEvent(EventPlace::NameNeeded)
            | ScriptPlace::InFlow(FlowPlace::NameNeeded) => Wanted::Name,
            ScriptPlace::InFact(_) | ScriptPlace::InEvent(_) => Wanted::Semicolon,
            ScriptPlace::InFlow(FlowPlace::EqualsNeeded(_)) => Wanted::Equals,
            ScriptPlace::InFlow(FlowPlace::InGoal(_, goal)) | ScriptPlace::InGoal(goal) => {
                goal.wanted(&self.goals)
            }
            ScriptPlace::ConstraintNeeded => Wanted::Constraint,
            ScriptPlace::InConstraint(rule) => rule.wanted(&self.rules),
        }
    }

    /// In how many parentheses and nots the next symbol stands.
    pub(crate) fn depth(&self, place: &ScriptPlace) -> usize
        requires { machine.depth_script (script_state self.now place.now) < 2 ^ 64 - 1 }
        ensures { result ≡ machine.depth_script (script_state self.now place.now) }
    {
        match place {
            ScriptPlace::InFact(FactPlace::InArgs(_)) => 1,
            ScriptPlace::InFlow(FlowPlace::InGoal(_, goal)) | ScriptPlace::InGoal(goal) => {
                goal.depth(&self.goals)
            }
            ScriptPlace::InConstraint(rule) => rule.depth(&self.rules),
            _ => 0,
        }
    }

    /// Whether a text may end here. It drops the place.
    pub(crate) fn is_whole(&self, place: ScriptPlace) -> bool
        ensures { machine.finish_script (script_state self.now place) ≡ (if result then Some (said self.now.script) else None) }
    {
        match place {
            ScriptPlace::ConstraintNeeded => true,
            unfinished => {
                drop(unfinished);
                false
            }
        }
    }
}
