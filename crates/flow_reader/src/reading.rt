ghost use Rattle.std.specs.Prelude.{◌≡◌, ◌-◌, ◌^◌, ◌<◌, [], length, OnOk, IfOk, IfErr};
ghost use Rattle.flow_model.specs.Lists.{Each};
ghost use Rattle.flow_form.specs.Script.{said, asked};
ghost use Rattle.flow_lex.specs.Tokens.{AreSpans, IsSmall};
ghost use Rattle.flow_grammar.specs.Machine as machine;
ghost use Rattle.flow_reader.specs.Symbols.{meant, symbols_of};
ghost use Rattle.flow_reader.specs.Scripts.{declared_so_far, script_state};
ghost use Rattle.flow_reader.specs.Queries.{query_state};
ghost use Rattle.flow_reader.specs.Reading.{IsReadRefusal, StepsTo, IsStepRefusal, settled};

use crate::depth::is_too_deep;
use crate::queries::QueryPlace;
use crate::rule_stack::RuleStack;
use crate::scripts::{ScriptParts, ScriptPlace};
use crate::symbol::Symbol;
use crate::tokens::symbol_of;
use flow_form::{Query, Script, TextRefusal, Wanted};
use flow_lex::Token;
use std::alloc::{AllocError, Global};

/// The reader after a symbol, or why there is none: no text goes on with the symbol, or it stands too deep.
fn settled<R: Drop>(
    step: Result<Option<R>, AllocError>,
    deep: bool,
    place: usize,
    kind: Wanted,
) -> Result<R, TextRefusal>
    ensures { result ≡ settled step deep place kind }
{
    match step? {
        None => Err(TextRefusal::Expected { place, kind }),
        Some(_) if deep => Err(TextRefusal::TooDeep { place }),
        Some(next) => Ok(next),
    }
}

/// What a symbol makes of a text so far, which has been read up to that place.
#[tactic(auto, using(crate::proofs::Loops::settled_step, crate::proofs::Loops::settled_refusal))]
fn step_script(
    alloc: Global,
    parts: &mut ScriptParts,
    reached: ScriptPlace,
    symbol: Symbol<'_>,
    place: usize,
) -> Result<ScriptPlace, TextRefusal>
    requires { machine.depth_script (script_state parts.old reached) < 2 ^ 64 - 1 }
    ensures ok { IfOk result (λ next. StepsTo machine.step_script machine.depth_script
        (script_state parts.old reached) (meant symbol.entry) (script_state parts.new next)) }
    ensures refused { IfErr result (λ refusal. IsStepRefusal machine.step_script machine.wanted_script machine.depth_script
        (script_state parts.old reached) (meant symbol.entry) place refusal) }
{
    let deep = is_too_deep(symbol, parts.depth(&reached));
    let kind = parts.wanted(&reached);
    settled(parts.step(alloc, reached, symbol), deep, place, kind)
}

/// Reads a script into parts that say nothing yet.
fn read_parts(
    alloc: Global,
    parts: &mut ScriptParts,
    text: &[u8],
    tokens: &[Token],
) -> Result<(), TextRefusal>
    requires fresh { declared_so_far parts.old ≡ [] }
    requires spans { AreSpans 0 (length text.now) tokens.now }
    requires small { Each (IsSmall text.now) tokens.now }
    ensures ok { OnOk result (machine.read_script (symbols_of text.now tokens.now) ≡ machine.gives (said parts.new.script)) }
    ensures refused { IfErr result (λ refusal.
        IsReadRefusal text.now tokens.now (machine.read_script (symbols_of text.now tokens.now)) refusal) }
{
    let mut reached = ScriptPlace::DeclarationNeeded;
    let mut rest = tokens;
    while let Some((token, more)) = rest.split_first() {
        reached = step_script(alloc, parts, reached, symbol_of(text, *token), token.start)?;
        rest = more;
    }
    let kind = parts.wanted(&reached);
    if parts.is_whole(reached) {
        Ok(())
    } else {
        Err(TextRefusal::Expected {
            place: text.len(),
            kind,
        })
    }
}

/// Reads a script from the tokens of a text.
pub fn read_script(alloc: Global, text: &[u8], tokens: &[Token]) -> Result<Script, TextRefusal>
    requires spans { AreSpans 0 (length text.now) tokens.now }
    requires small { Each (IsSmall text.now) tokens.now }
    ensures ok { IfOk result (λ script. machine.read_script (symbols_of text.now tokens.now) ≡ machine.gives (said script)) }
    ensures refused { IfErr result (λ refusal.
        IsReadRefusal text.now tokens.now (machine.read_script (symbols_of text.now tokens.now)) refusal) }
{
    let mut parts = ScriptParts::new(alloc);
    let read = read_parts(alloc, &mut parts, text, tokens);
    let ScriptParts {
        script,
        goals,
        rules,
    } = parts;
    drop(goals);
    drop(rules);
    match read {
        Ok(()) => Ok(script),
        Err(refusal) => {
            drop(script);
            Err(refusal)
        }
    }
}

/// What a symbol makes of a query so far, which has been read up to that place.
#[tactic(auto, using(crate::proofs::Loops::settled_step, crate::proofs::Loops::settled_refusal))]
fn step_query(
    alloc: Global,
    stack: &mut RuleStack,
    reached: QueryPlace,
    symbol: Symbol<'_>,
    place: usize,
) -> Result<QueryPlace, TextRefusal>
    requires { machine.depth_query (query_state stack.old reached) < 2 ^ 64 - 1 }
    ensures ok { IfOk result (λ next. StepsTo machine.step_query machine.depth_query
        (query_state stack.old reached) (meant symbol.entry) (query_state stack.new next)) }
    ensures refused { IfErr result (λ refusal. IsStepRefusal machine.step_query machine.wanted_query machine.depth_query
        (query_state stack.old reached) (meant symbol.entry) place refusal) }
{
    let deep = is_too_deep(symbol, reached.depth(stack));
    let kind = reached.wanted(stack);
    settled(reached.step(alloc, stack, symbol), deep, place, kind)
}

/// Reads a query from the tokens of a text.
pub fn read_query(alloc: Global, text: &[u8], tokens: &[Token]) -> Result<Query, TextRefusal>
    requires spans { AreSpans 0 (length text.now) tokens.now }
    requires small { Each (IsSmall text.now) tokens.now }
    ensures ok { IfOk result (λ query. machine.read_query (symbols_of text.now tokens.now) ≡ machine.gives (asked query)) }
    ensures refused { IfErr result (λ refusal.
        IsReadRefusal text.now tokens.now (machine.read_query (symbols_of text.now tokens.now)) refusal) }
{
    let mut stack = RuleStack::new(alloc);
    let mut reached = QueryPlace::QueryNeeded;
    let mut rest = tokens;
    while let Some((token, more)) = rest.split_first() {
        reached = step_query(
            alloc,
            &mut stack,
            reached,
            symbol_of(text, *token),
            token.start,
        )?;
        rest = more;
    }
    let kind = reached.wanted(&stack);
    drop(stack);
    match reached.finish() {
        Some(query) => Ok(query),
        None => Err(TextRefusal::Expected {
            place: text.len(),
            kind,
        }),
    }
}
