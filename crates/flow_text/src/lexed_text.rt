ghost use Rattle.std.specs.Prelude.{◌≡◌, ◌<◌, length, Some, IfOk, IfErr, option_map, slice_get};
ghost use Rattle.flow_lex.specs.Refusals.{IsRefused};
ghost use Rattle.flow_reader.specs.Symbols.{meant};
ghost use Rattle.flow_text.specs.Parser.{name_in, named_places, bytes_now};
ghost use Rattle.flow_text.specs.Saying.{HasTokens, IsLexed, TextInTokens};

use flow_form::{Name, TextRefusal};
use flow_lex::{Token, lex};
use flow_reader::{Symbol, symbol_of};
use std::alloc::{AllocError, Global};
use std::marker::Model;

/// The name that the symbol is, if it is one.
fn name_in(symbol: Symbol<'_>) -> Option<&[u8]>
    ensures { option_map bytes_now result ≡ name_in (meant symbol.entry) }
{
    match symbol {
        Symbol::Name(name) => Some(name),
        _ => None,
    }
}

/// A text with its tokens.
#[derive(Drop)]
pub(crate) struct LexedText<'a> {
    pub(crate) text: &'a [u8],
    pub(crate) tokens: Vec<Token>,
}

impl<'a> Model for LexedText<'a> {
    ghost Value = { TextInTokens };

    ghost view = { λ s. record { text = s.text.now; tokens = s.tokens.items } };

    ghost invariant = { λ s. IsLexed s.text.now s.tokens.items };
}

impl<'a> LexedText<'a> {
    pub(crate) fn of(alloc: Global, text: &'a [u8]) -> Result<LexedText<'a>, TextRefusal>
        ensures text { IfOk result (λ lexed. lexed.text ≡ text.now) }
        ensures refused { IfErr result (λ refusal. IsRefused text.now refusal) }
    {
        let tokens = lex(alloc, text)?;
        Ok(LexedText { text, tokens })
    }

    /// The name of that number among the tokens, and where it stands.
    pub(crate) fn name_at(&self, alloc: Global, number: usize) -> Result<(usize, Name), AllocError>
        requires { number < length (named_places self.now.text self.now.tokens) }
        ensures cut { HasTokens self.now.text self.now.tokens }
        ensures name { IfOk result (λ found. slice_get (named_places self.now.text self.now.tokens) number ≡ Some found) }
    {
        let mut left = number;
        let mut rest = self.tokens.as_slice();
        while let Some((token, more)) = rest.split_first() {
            if let Some(name) = name_in(symbol_of(self.text, *token)) {
                if left == 0 {
                    return Ok((token.start, Name::new(alloc, name)?));
                }
                left -= 1;
            }
            rest = more;
        }
        unreachable!()
    }
}
