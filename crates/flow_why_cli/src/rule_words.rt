ghost use Rattle.std.specs.Prelude.{◌≡◌, ◌++◌, true, [], IfOk, OnOk, map};
ghost use Rattle.std.specs.Option.{option_map};
ghost use Rattle.flow_lex.specs.Tokens.{lexed};
ghost use Rattle.flow_reader.specs.Symbols.{meant};
ghost use Rattle.flow_why_cli.specs.Rules.{HasTokens, begins_rule, blank_before, ends_rule, opens, rule_of, rule_words, rules_of};

use crate::tokens::{bytes_of, symbol_at};
use flow_form::TextRefusal;
use flow_lex::{Token, lex};
use flow_reader::Symbol;
use std::alloc::{AllocError, Global};

/// A constraint as it is written.
#[derive(Drop)]
pub struct WrittenRule {
    /// Where its word `constraint` stands.
    pub place: usize,
    /// What stands between that word and the semicolon, with a blank between two words.
    pub text: Vec<u8>,
}

/// Whether a constraint begins with that symbol.
fn begins_rule(symbol: Option<Symbol<'_>>) -> bool
    ensures { result ≡ begins_rule (option_map meant symbol.entry) }
{
    matches!(symbol, Some(Symbol::Constraint))
}

/// Whether a constraint ends with that symbol.
fn ends_rule(symbol: Option<Symbol<'_>>) -> bool
    ensures { result ≡ ends_rule (option_map meant symbol.entry) }
{
    matches!(symbol, Some(Symbol::Semicolon))
}

/// Whether what stands behind that symbol is joined to it.
fn opens(symbol: Option<Symbol<'_>>) -> bool
    ensures { result ≡ opens (option_map meant symbol.entry) }
{
    matches!(symbol, Some(Symbol::Opening))
}

/// What stands between the words so far and a token: a blank, unless the token is joined to them.
fn blank_before(joined: bool, symbol: Option<Symbol<'_>>) -> &'static [u8]
    ensures { result.now ≡ blank_before joined (option_map meant symbol.entry) }
{
    if joined || matches!(symbol, Some(Symbol::Closing)) {
        b""
    } else {
        b" "
    }
}

/// Adds the words of a constraint that go on so, up to its semicolon.
fn push_words(words: &mut Vec<u8>, text: &[u8], tokens: &[Token]) -> Result<(), AllocError>
    ensures { OnOk result (words.new.items ≡ words.old.items ++ rule_words text.now true tokens.now) }
{
    let mut joined = true;
    for token in tokens {
        let symbol = symbol_at(text, *token);
        if ends_rule(symbol) {
            return Ok(());
        }
        words.extend_from_slice(blank_before(joined, symbol))?;
        words.extend_from_slice(bytes_of(text, *token))?;
        joined = opens(symbol);
    }
    Ok(())
}

/// The constraint whose word stands at the place, and that goes on so.
fn written_rule(
    alloc: Global,
    text: &[u8],
    place: usize,
    tokens: &[Token],
) -> Result<WrittenRule, AllocError>
    ensures { IfOk result (λ rule. rule_of rule ≡ record { place = place; words = rule_words text.now true tokens.now }) }
{
    let mut words = Vec::new(alloc);
    push_words(&mut words, text, tokens)?;
    Ok(WrittenRule { place, text: words })
}

/// Adds the constraints that the tokens write.
fn push_rules(
    alloc: Global,
    rules: &mut Vec<WrittenRule>,
    text: &[u8],
    tokens: &[Token],
) -> Result<(), AllocError>
    ensures { OnOk result (map rule_of rules.new.items ≡ map rule_of rules.old.items ++ rules_of text.now tokens.now) }
{
    for (number, token) in tokens.iter().enumerate() {
        if begins_rule(symbol_at(text, *token)) {
            rules.push(written_rule(alloc, text, token.start, &tokens[number + 1..])?)?;
        }
    }
    Ok(())
}

/// The constraints of a text, in order, whatever else it says. Of a text that has no tokens there are none.
pub fn written_rules(alloc: Global, text: &[u8]) -> Result<Vec<WrittenRule>, AllocError>
    ensures rules { IfOk result (λ rules. HasTokens text.now → map rule_of rules.items ≡ rules_of text.now (lexed text.now).tokens) }
    ensures none { IfOk result (λ rules. ¬ (HasTokens text.now) → map rule_of rules.items ≡ []) }
{
    let mut rules = Vec::new(alloc);
    match lex(alloc, text) {
        Ok(tokens) => push_rules(alloc, &mut rules, text, &tokens)?,
        Err(TextRefusal::NoMemory) => return Err(AllocError),
        Err(refusal) => drop(refusal),
    }
    Ok(rules)
}
