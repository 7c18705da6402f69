ghost use Rattle.std.specs.Prelude.{◌≡◌, ◌++◌, length, map, IfOk, IfErr, OnOk};
ghost use Rattle.flow_model.specs.Lists.{Each};
ghost use Rattle.flow_lex.specs.Tokens.{AreSpans, IsSmall};
ghost use Rattle.flow_reader.specs.Symbols.{meant};
ghost use Rattle.flow_policy.specs.Stages.{mention_of};
ghost use Rattle.flow_policy.specs.Mentions.{said_in, AreMentions, IsReadRefusal};

use crate::refusal::PolicyRefusal;
use crate::stage::Stage;
use crate::symbol::symbol_at;
use flow_lex::Token;
use flow_reader::Symbol;
use std::alloc::{AllocError, Global};

/// A name of a policy, lent by its text: the stage of the reading at which it stands, and its place.
#[derive(Clone, Copy)]
pub(crate) struct Mention<'a> {
    pub(crate) stage: Stage,
    pub(crate) place: usize,
    pub(crate) name: &'a [u8],
}

/// Adds the name that the symbol is, if it is one.
fn add_mention<'a>(
    mentions: &mut Vec<Mention<'a>>,
    stage: Stage,
    place: usize,
    symbol: Symbol<'a>,
) -> Result<(), AllocError>
    ensures { OnOk result (map said_in mentions.new.items ≡ map said_in mentions.old.items ++ mention_of stage place (meant symbol.entry)) }
{
    if let Symbol::Name(name) = symbol {
        mentions.push(Mention { stage, place, name })?;
    }
    Ok(())
}

/// Reads the tokens of a text as statements, and gives their names in order.
pub(crate) fn mentions_of<'a>(
    alloc: Global,
    text: &'a [u8],
    tokens: &[Token],
) -> Result<Vec<Mention<'a>>, PolicyRefusal>
    requires spans { AreSpans 0 (length text.now) tokens.now }
    requires small { Each (IsSmall text.now) tokens.now }
    ensures ok { IfOk result (λ mentions. AreMentions text.now tokens.now mentions.items) }
    ensures refused { IfErr result (λ refusal. IsReadRefusal text.now tokens.now refusal) }
{
    let mut mentions = Vec::new(alloc);
    let mut stage = Stage::StatementNeeded;
    let mut rest = tokens;
    while let Some((token, more)) = rest.split_first() {
        let symbol = symbol_at(text, *token);
        let Some(next) = stage.next(symbol) else {
            return Err(PolicyRefusal::Expected { place: token.start });
        };
        add_mention(&mut mentions, stage, token.start, symbol)?;
        stage = next;
        rest = more;
    }
    match stage {
        Stage::StatementNeeded => Ok(mentions),
        _ => Err(PolicyRefusal::Expected { place: text.len() }),
    }
}
