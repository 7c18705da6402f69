//! What the statements of a policy begin with.
ghost use Rattle.std.specs.Prelude.{◌≡◌, ◌++◌, [], List, length, map, IfOk, OnOk};
ghost use Rattle.flow_model.specs.Lists.{Each};
ghost use Rattle.flow_lex.specs.Tokens.{AreSpans, IsSmall};
ghost use Rattle.flow_reader.specs.Symbols.{meant, symbols_of};
ghost use Rattle.flow_policy.specs.Statement.{Statement};
ghost use Rattle.flow_policy.specs.Texts.{SaysPolicy};
ghost use Rattle.flow_policy_lint.specs.declared.heads.Reading.TheVariants.{Begins};
ghost use Rattle.flow_policy_lint.specs.Heads as heads;

use flow_lex::{Token, lex};
use flow_reader::{Symbol, symbol_of};
use std::alloc::{AllocError, Global};

/// The word with which a statement begins.
#[derive(Clone, Copy)]
pub enum Word {
    Role,
    Allow,
    Separate,
    Bind,
}

/// What a statement begins with, lent by the text.
#[derive(Clone, Copy)]
pub struct Head<'a> {
    pub word: Word,
    /// The first name in the statement.
    pub name: &'a [u8],
    /// The place of that name in the text.
    pub place: usize,
}

/// Where the reading of a policy stands.
#[derive(Clone, Copy)]
enum Reading {
    /// A statement begins, or the text ends.
    Begins,
    /// Behind the word of a statement.
    Behind(Word),
    /// Further on in a statement, or in one with another word.
    Other,
}

/// The word of a statement that is spelled so.
fn word_of(name: &[u8]) -> Option<Word>
    ensures { result ≡ heads.word_of name.now }
{
    if name == "role".as_bytes() {
        Some(Word::Role)
    } else if name == "allow".as_bytes() {
        Some(Word::Allow)
    } else if name == "separate".as_bytes() {
        Some(Word::Separate)
    } else if name == "bind".as_bytes() {
        Some(Word::Bind)
    } else {
        None
    }
}

impl Reading {
    /// Behind a name with which a statement begins.
    fn behind(name: &[u8]) -> Reading
        ensures { result ≡ heads.reading_by (heads.word_of name.now) }
    {
        match word_of(name) {
            Some(word) => Reading::Behind(word),
            None => Reading::Other,
        }
    }

    fn after(self, symbol: Symbol<'_>) -> Reading
        ensures { result ≡ heads.reading_after self (meant symbol.entry) }
    {
        match (self, symbol) {
            (_, Symbol::Semicolon) => Reading::Begins,
            (Reading::Begins, Symbol::Name(name)) => Reading::behind(name),
            _ => Reading::Other,
        }
    }
}

/// Adds what the statement begins with, if the symbol is its first name.
fn add<'a>(
    found: &mut Vec<Head<'a>>,
    reading: Reading,
    symbol: Symbol<'a>,
    place: usize,
) -> Result<(), AllocError>
    ensures { OnOk result (map heads.said found.new.items ≡ map heads.said found.old.items ++ heads.head_at reading (meant symbol.entry)) }
{
    if let Reading::Behind(word) = reading {
        if let Symbol::Name(name) = symbol {
            found.push(Head { word, name, place })?;
        }
    }
    Ok(())
}

/// What the statements begin with, in the order in which they stand among the tokens.
#[tactic(auto, using(crate::proofs::HeadSteps::left_first, crate::proofs::HeadSteps::left_next, crate::proofs::HeadSteps::left_token, crate::proofs::HeadSteps::heads_next))]
fn heads_in<'a>(
    alloc: Global,
    text: &'a [u8],
    tokens: &[Token],
) -> Result<Vec<Head<'a>>, AllocError>
    requires spans { AreSpans 0 (length text.now) tokens.now }
    requires small { Each (IsSmall text.now) tokens.now }
    ensures { IfOk result (λ found. map heads.said found.items ≡ heads.heads_from Begins (symbols_of text.now tokens.now)) }
{
    let mut found = Vec::new(alloc);
    let mut reading = Reading::Begins;
    let mut rest = tokens;
    while let Some((token, more)) = rest.split_first() {
        let symbol = symbol_of(text, *token);
        add(&mut found, reading, symbol, token.start)?;
        reading = reading.after(symbol);
        rest = more;
    }
    Ok(found)
}

/// What the statements of a policy's text begin with, in the order in which they stand. Statements with other words are passed over.
pub fn heads_of<'a>(alloc: Global, policy: &'a [u8]) -> Result<Vec<Head<'a>>, AllocError>
    ensures { (statements : List Statement) → SaysPolicy policy.now statements → IfOk result (λ found. map heads.said found.items ≡ map heads.head_of statements) }
{
    // a policy has tokens
    let Ok(tokens) = lex(alloc, policy) else {
        return Err(AllocError);
    };
    heads_in(alloc, policy, &tokens)
}
