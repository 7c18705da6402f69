ghost use Rattle.std.specs.Prelude.{◌≡◌, option_map};
ghost use Rattle.flow_reader.specs.Symbols;
ghost use Rattle.flow_reader.specs.Symbols.{meant};

use crate::symbol::Symbol;

fn is(word: &[u8], text: &str) -> bool
    ensures { result ≡ Symbols.is word.now text.now }
{
    word == text.as_bytes()
}

/// The reserved word of declarations that it is, if any.
fn word_of_declarations(word: &[u8]) -> Option<Symbol<'static>>
    ensures { option_map meant result ≡ Symbols.word_of_declarations word.now }
{
    if is(word, "event") {
        Some(Symbol::Event)
    } else if is(word, "fact") {
        Some(Symbol::Fact)
    } else if is(word, "flow") {
        Some(Symbol::Flow)
    } else if is(word, "goal") {
        Some(Symbol::Goal)
    } else if is(word, "constraint") {
        Some(Symbol::Constraint)
    } else if is(word, "done") {
        Some(Symbol::Done)
    } else if is(word, "fail") {
        Some(Symbol::Fail)
    } else {
        None
    }
}

/// The reserved word of goals and queries that it is, if any.
fn word_of_goals(word: &[u8]) -> Option<Symbol<'static>>
    ensures { option_map meant result ≡ Symbols.word_of_goals word.now }
{
    if is(word, "nop") {
        Some(Symbol::Nop)
    } else if is(word, "iso") {
        Some(Symbol::Iso)
    } else if is(word, "ins") {
        Some(Symbol::Ins)
    } else if is(word, "del") {
        Some(Symbol::Del)
    } else if is(word, "holds") {
        Some(Symbol::Holds)
    } else if is(word, "redundant") {
        Some(Symbol::Redundant)
    } else {
        None
    }
}

/// The reserved word of constraints that it is, if any.
fn word_of_constraints(word: &[u8]) -> Option<Symbol<'static>>
    ensures { option_map meant result ≡ Symbols.word_of_constraints word.now }
{
    if is(word, "must") {
        Some(Symbol::Must)
    } else if is(word, "never") {
        Some(Symbol::Never)
    } else if is(word, "order") {
        Some(Symbol::Order)
    } else if is(word, "precedes") {
        Some(Symbol::Precedes)
    } else if is(word, "needs") {
        Some(Symbol::Needs)
    } else if is(word, "not") {
        Some(Symbol::Not)
    } else if is(word, "and") {
        Some(Symbol::And)
    } else if is(word, "or") {
        Some(Symbol::Or)
    } else {
        None
    }
}

/// A word as its symbol: the reserved word that it is, or else a name.
pub(crate) fn word_symbol(word: &[u8]) -> Symbol<'_>
    ensures { meant result ≡ Symbols.word_symbol word.now }
{
    if let Some(symbol) = word_of_declarations(word) {
        return symbol;
    }
    if let Some(symbol) = word_of_goals(word) {
        return symbol;
    }
    if let Some(symbol) = word_of_constraints(word) {
        return symbol;
    }
    Symbol::Name(word)
}

/// A mark as its symbol; every other byte counts as an exclamation mark.
pub(crate) fn mark_symbol(byte: u8) -> Symbol<'static>
    ensures { meant result ≡ Symbols.mark_symbol byte }
{
    match byte {
        b'*' => Symbol::Star,
        b'|' => Symbol::Bar,
        b'+' => Symbol::Plus,
        b'(' => Symbol::Opening,
        b')' => Symbol::Closing,
        b',' => Symbol::Comma,
        b';' => Symbol::Semicolon,
        b'=' => Symbol::Equals,
        b'?' => Symbol::Question,
        _ => Symbol::Exclamation,
    }
}
