ghost use Rattle.std.specs.Prelude.{◌≡◌, ◌++◌, length, IfOk, OnOk};
ghost use Rattle.flow_model.specs.Lists.{Each};
ghost use Rattle.flow_lex.specs.Tokens.{AreSpans, IsSmall};
ghost use Rattle.flow_reader.specs.Symbols.{meant};
ghost use Rattle.flow_case.specs.declared.split.Side.TheVariants.{Begins};
ghost use Rattle.flow_case.specs.Split as split;

use crate::kind::kind_of;
use flow_lex::Token;
use flow_reader::{Symbol, symbol_of};
use std::alloc::{AllocError, Global};

/// To what the statement belongs at which the cutting of a text stands.
#[derive(Clone, Copy)]
pub(crate) enum Side {
    /// A statement begins, or the text ends.
    Begins,
    /// To what the duties of a policy are made of.
    Policy,
    /// To the rules of a case.
    Rules,
}

impl Side {
    /// To what the symbol belongs.
    fn of(self, symbol: Symbol<'_>) -> Side
        ensures { result ≡ split.side_of self (meant symbol.entry) }
    {
        match (self, symbol) {
            (Side::Begins, Symbol::Name(word)) => match kind_of(word) {
                Some(_) => Side::Rules,
                None => Side::Policy,
            },
            (Side::Begins, _) => Side::Policy,
            (side, _) => side,
        }
    }

    /// What stands behind the symbol, which belongs to that side.
    fn behind(self, symbol: Symbol<'_>) -> Side
        ensures { result ≡ split.side_behind self (meant symbol.entry) }
    {
        match symbol {
            Symbol::Semicolon => Side::Begins,
            _ => self,
        }
    }
}

/// Adds the token, if it belongs to the rules.
fn add(tokens: &mut Vec<Token>, side: Side, token: Token) -> Result<(), AllocError>
    ensures { OnOk result (tokens.new.items ≡ tokens.old.items ++ split.of_rules side token) }
{
    if let Side::Rules = side {
        tokens.push(token)?;
    }
    Ok(())
}

#[tactic(auto, using(crate::proofs::TokenSteps::left_first, crate::proofs::TokenSteps::left_next, crate::proofs::TokenSteps::left_token, crate::proofs::SplitSteps::split_next, crate::proofs::SplitSteps::rules_span, crate::proofs::SplitSteps::rules_small))]
/// The tokens of the statements that begin with `final`, `back` or `close`.
pub(crate) fn rule_tokens(
    alloc: Global,
    text: &[u8],
    tokens: &[Token],
) -> Result<Vec<Token>, AllocError>
    requires spans { AreSpans 0 (length text.now) tokens.now }
    requires small { Each (IsSmall text.now) tokens.now }
    ensures cut { IfOk result (λ cut. cut.items ≡ split.rule_tokens text.now Begins tokens.now) }
    ensures spans { IfOk result (λ cut. AreSpans 0 (length text.now) cut.items) }
    ensures small { IfOk result (λ cut. Each (IsSmall text.now) cut.items) }
{
    let mut cut = Vec::new(alloc);
    let mut side = Side::Begins;
    let mut rest = tokens;
    while let Some((token, more)) = rest.split_first() {
        let symbol = symbol_of(text, *token);
        let here = side.of(symbol);
        add(&mut cut, here, *token)?;
        side = here.behind(symbol);
        rest = more;
    }
    Ok(cut)
}

#[tactic(auto, using(crate::proofs::SplitSteps::blank_next, crate::proofs::SplitSteps::token_here))]
/// The text with spaces in place of the tokens.
pub(crate) fn without(alloc: Global, text: &[u8], tokens: &[Token]) -> Result<Vec<u8>, AllocError>
    requires spans { AreSpans 0 (length text.now) tokens.now }
    ensures items { IfOk result (λ left. left.items ≡ split.blanked text.now 0 tokens.now) }
    ensures length { IfOk result (λ left. length left.items ≡ length text.now) }
{
    let mut left = Vec::with_capacity(alloc, text.len())?;
    let mut place = 0;
    let mut rest = tokens;
    while let Some((token, more)) = rest.split_first() {
        left.extend_from_slice(&text[place..token.start])?;
        left.resize(token.end, b' ')?;
        place = token.end;
        rest = more;
    }
    left.extend_from_slice(&text[place..])?;
    Ok(left)
}
