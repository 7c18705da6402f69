ghost use Rattle.std.specs.Prelude.{◌≡◌, ◌-◌, ◌^◌, ◌<◌, option_map, IfOk};
ghost use Rattle.flow_form.specs.Script.{asked};
ghost use Rattle.flow_grammar.specs.Machine as machine;
ghost use Rattle.flow_reader.specs.Symbols.{meant};
ghost use Rattle.flow_reader.specs.Rules.{rule_step};
ghost use Rattle.flow_reader.specs.declared.rule_stack.RuleStack.{RuleStack};
ghost use Rattle.flow_reader.specs.Queries.{query_state};

use crate::rule_stack::RuleStack;
use crate::rules::{RulePlace, RuleStep};
use crate::symbol::Symbol;
use flow_form::{Query, Wanted};
use std::alloc::{AllocError, Global};

/// Where the reading of a query stands, beside the stack of its rule.
#[derive(Drop)]
pub(crate) enum QueryPlace {
    QueryNeeded,
    InProperty(RulePlace),
    NumberNeeded,
    AfterNumber(u32),
    QueryRead(Query),
}

fn start_query(alloc: Global, stack: &mut RuleStack, symbol: Symbol<'_>) -> Option<QueryPlace>
    ensures { option_map (query_state stack.new) result ≡ machine.start_query (meant symbol.entry) }
{
    match symbol {
        Symbol::Holds => {
            stack.restart(alloc);
            Some(QueryPlace::InProperty(RulePlace::UnitNeeded(0)))
        }
        Symbol::Redundant => Some(QueryPlace::NumberNeeded),
        _ => None,
    }
}

fn after_property(stack: &RuleStack, step: RuleStep) -> Option<QueryPlace>
    ensures { option_map (query_state stack.now) result ≡ machine.after_property_step (rule_step stack.now step) }
{
    match step {
        RuleStep::Reading(rule) => Some(QueryPlace::InProperty(rule)),
        RuleStep::Whole(rule) => Some(QueryPlace::QueryRead(Query::Holds(rule))),
        RuleStep::Stuck => None,
    }
}

impl QueryPlace {
    /// What a symbol makes of it. `None` where no query goes on with it.
    pub(crate) fn step(
        self,
        alloc: Global,
        stack: &mut RuleStack,
        symbol: Symbol<'_>,
    ) -> Result<Option<QueryPlace>, AllocError>
        requires { machine.depth_query (query_state stack.old self) < 2 ^ 64 - 1 }
        ensures { IfOk result (λ step. option_map (query_state stack.new) step
            ≡ machine.step_query (query_state stack.old self) (meant symbol.entry)) }
    {
        match self {
            QueryPlace::QueryNeeded => Ok(start_query(alloc, stack, symbol)),
            QueryPlace::InProperty(rule) => {
                let step = rule.step(alloc, stack, symbol)?;
                Ok(after_property(stack, step))
            }
            QueryPlace::NumberNeeded => match symbol {
                Symbol::Number(number) => Ok(Some(QueryPlace::AfterNumber(number))),
                _ => Ok(None),
            },
            QueryPlace::AfterNumber(number) => match symbol {
                Symbol::Semicolon => Ok(Some(QueryPlace::QueryRead(Query::Redundant(number)))),
                _ => Ok(None),
            },
            QueryPlace::QueryRead(query) => {
                drop(query);
                Ok(None)
            }
        }
    }

    /// What the text asks if it ends here.
    pub(crate) fn finish(self) -> Option<Query>
        ensures { (stack : RuleStack) → option_map asked result ≡ machine.finish_query (query_state stack self) }
    {
        match self {
            QueryPlace::QueryRead(query) => Some(query),
            unfinished => {
                drop(unfinished);
                None
            }
        }
    }

    /// What could come next.
    pub(crate) fn wanted(&self, stack: &RuleStack) -> Wanted
        ensures { result ≡ machine.wanted_query (query_state stack.now self.now) }
    {
        match self {
            QueryPlace::QueryNeeded => Wanted::Query,
            QueryPlace::InProperty(rule) => rule.wanted(stack),
            QueryPlace::NumberNeeded => Wanted::Number,
            QueryPlace::AfterNumber(_) => Wanted::Semicolon,
            QueryPlace::QueryRead(_) => Wanted::End,
        }
    }

    /// In how many parentheses and nots the next symbol stands.
    pub(crate) fn depth(&self, stack: &RuleStack) -> usize
        requires { machine.depth_query (query_state stack.now self.now) < 2 ^ 64 - 1 }
        ensures { result ≡ machine.depth_query (query_state stack.now self.now) }
    {
        match self {
            QueryPlace::InProperty(rule) => rule.depth(stack),
            _ => 0,
        }
    }
}
