ghost use Rattle.std.specs.Prelude.{◌≡◌, ◌++◌, length, map, Ok, IfOk, IfErr, OnOk};
ghost use Rattle.flow_model.specs.Lists.{Each};
ghost use Rattle.flow_lex.specs.Tokens.{AreSpans, IsSmall};
ghost use Rattle.flow_reader.specs.Symbols.{meant};
ghost use Rattle.flow_case.specs.declared.kind.RuleStage.TheVariants.{WordNeeded};
ghost use Rattle.flow_case.specs.Reading.{given_at, read_from};
ghost use Rattle.flow_case.specs.Givens.{said, IsReadRefusal};

use crate::kind::{Kind, RuleStage};
use crate::text_refusal::CasePolicyRefusal;
use flow_lex::Token;
use flow_reader::{Symbol, symbol_of};
use std::alloc::{AllocError, Global};

/// A name that the rules give, lent by the text: what the statement is about, and the name's place.
#[derive(Clone, Copy)]
pub(crate) struct Given<'a> {
    pub(crate) kind: Kind,
    pub(crate) place: usize,
    pub(crate) name: &'a [u8],
}

/// Adds the name that the symbol is, if a name is needed.
fn add<'a>(
    given: &mut Vec<Given<'a>>,
    stage: RuleStage,
    place: usize,
    symbol: Symbol<'a>,
) -> Result<(), AllocError>
    ensures { OnOk result (map said given.new.items ≡ map said given.old.items ++ given_at stage place (meant symbol.entry)) }
{
    if let RuleStage::NameNeeded(kind) = stage {
        if let Symbol::Name(name) = symbol {
            given.push(Given { kind, place, name })?;
        }
    }
    Ok(())
}

#[tactic(auto, using(crate::proofs::TokenSteps::left_first, crate::proofs::TokenSteps::left_next, crate::proofs::TokenSteps::left_token, crate::proofs::TokenSteps::read_first, crate::proofs::TokenSteps::read_next, crate::proofs::TokenSteps::read_stuck, crate::proofs::TokenSteps::read_end, crate::proofs::TokenSteps::read_all))]
/// Reads the tokens of the rules, and gives their names in order.
pub(crate) fn read_rules<'a>(
    alloc: Global,
    text: &'a [u8],
    tokens: &[Token],
) -> Result<Vec<Given<'a>>, CasePolicyRefusal>
    requires spans { AreSpans 0 (length text.now) tokens.now }
    requires small { Each (IsSmall text.now) tokens.now }
    ensures ok { IfOk result (λ given. read_from text.now WordNeeded tokens.now ≡ Ok (map said given.items)) }
    ensures refused { IfErr result (λ refusal. IsReadRefusal text.now tokens.now refusal) }
{
    let mut given = Vec::new(alloc);
    let mut stage = RuleStage::WordNeeded;
    let mut rest = tokens;
    while let Some((token, more)) = rest.split_first() {
        let symbol = symbol_of(text, *token);
        let Some(next) = stage.next(symbol) else {
            return Err(CasePolicyRefusal::Expected { place: token.start });
        };
        add(&mut given, stage, token.start, symbol)?;
        stage = next;
        rest = more;
    }
    match stage {
        RuleStage::WordNeeded => Ok(given),
        _ => Err(CasePolicyRefusal::Expected { place: text.len() }),
    }
}
