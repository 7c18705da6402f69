ghost use Rattle.std.specs.Prelude.{◌<◌, ◌^◌, length, IfOk, IfErr, OnOk};
ghost use Rattle.flow_form.specs.Script.{said, asked};
ghost use Rattle.flow_form.specs.Names.{HasGoodNames, IsClosed};
ghost use Rattle.flow_grammar.specs.Texts.{Derives, SpellsScript, SpellsQuery};
ghost use Rattle.flow_reader.specs.Symbols.{symbols_of};
ghost use Rattle.flow_text.specs.GoodNames.{AsksOfEvents};
ghost use Rattle.flow_text.specs.Saying.{Says, Asks};
ghost use Rattle.flow_text.specs.Parser.{IsParseRefusal, IsQueryRefusal};

use crate::lexed_text::LexedText;
use crate::name_refusal::NameRefusal;
use crate::names::{check_query, check_script};
use flow_form::{Query, Script, TextRefusal};
use flow_reader::{read_query, read_script};
use std::alloc::Global;

/// Whether the names of the script that was read are good.
fn check_names(alloc: Global, lexed: &LexedText<'_>, script: &Script) -> Result<(), TextRefusal>
    requires { Derives SpellsScript (symbols_of lexed.now.text lexed.now.tokens) (said script.now) }
    ensures ok { OnOk result (HasGoodNames (said script.now)) }
    ensures refused { IfErr result (λ refusal. IsParseRefusal lexed.now.text refusal) }
{
    match check_script(alloc, script) {
        Ok(()) => Ok(()),
        Err(NameRefusal::Repeated { index }) => {
            let (place, name) = lexed.name_at(alloc, index)?;
            Err(TextRefusal::Repeated { place, name })
        }
        Err(NameRefusal::Unknown { index }) => {
            let (place, name) = lexed.name_at(alloc, index)?;
            Err(TextRefusal::Unknown { place, name })
        }
        Err(NameRefusal::NoMemory) => Err(TextRefusal::NoMemory),
    }
}

/// Reads a workflow from the tokens of its text.
fn parse_lexed(alloc: Global, lexed: &LexedText<'_>) -> Result<Script, TextRefusal>
    ensures ok { IfOk result (λ script. Says lexed.now.text (said script)) }
    ensures closed { IfOk result (λ script. length lexed.now.text < 2 ^ 31 → IsClosed (said script)) }
    ensures refused { IfErr result (λ refusal. IsParseRefusal lexed.now.text refusal) }
{
    let script = read_script(alloc, lexed.text, &lexed.tokens)?;
    match check_names(alloc, lexed, &script) {
        Ok(()) => Ok(script),
        Err(refusal) => {
            drop(script);
            Err(refusal)
        }
    }
}

/// Reads a workflow from its text. Nothing is said of the text where memory is refused.
pub fn parse(alloc: Global, text: &[u8]) -> Result<Script, TextRefusal>
    ensures ok { IfOk result (λ script. Says text.now (said script)) }
    // what expansion asks: a text of fewer bytes than 2^31 has fewer declarations
    ensures closed { IfOk result (λ script. length text.now < 2 ^ 31 → IsClosed (said script)) }
    ensures refused { IfErr result (λ refusal. IsParseRefusal text.now refusal) }
{
    let lexed = LexedText::of(alloc, text)?;
    parse_lexed(alloc, &lexed)
}

/// Whether the names of the query that was read are those of events.
fn check_query_names(
    alloc: Global,
    lexed: &LexedText<'_>,
    script: &Script,
    query: &Query,
) -> Result<(), TextRefusal>
    requires { Derives SpellsQuery (symbols_of lexed.now.text lexed.now.tokens) (asked query.now) }
    ensures ok { OnOk result (AsksOfEvents (asked query.now) (said script.now)) }
    ensures refused { IfErr result (λ refusal. IsQueryRefusal lexed.now.text (said script.now) refusal) }
{
    match check_query(alloc, query, script) {
        Ok(()) => Ok(()),
        Err(NameRefusal::Repeated { .. }) => unreachable!(),
        Err(NameRefusal::Unknown { index }) => {
            let (place, name) = lexed.name_at(alloc, index)?;
            Err(TextRefusal::Unknown { place, name })
        }
        Err(NameRefusal::NoMemory) => Err(TextRefusal::NoMemory),
    }
}

/// Reads a query from the tokens of its text.
fn parse_query_lexed(
    alloc: Global,
    lexed: &LexedText<'_>,
    script: &Script,
) -> Result<Query, TextRefusal>
    ensures ok { IfOk result (λ query. Asks lexed.now.text (said script.now) (asked query)) }
    ensures refused { IfErr result (λ refusal. IsQueryRefusal lexed.now.text (said script.now) refusal) }
{
    let query = read_query(alloc, lexed.text, &lexed.tokens)?;
    match check_query_names(alloc, lexed, script, &query) {
        Ok(()) => Ok(query),
        Err(refusal) => {
            drop(query);
            Err(refusal)
        }
    }
}

/// Reads a query to a workflow from its text.
pub fn parse_query(alloc: Global, text: &[u8], script: &Script) -> Result<Query, TextRefusal>
    ensures ok { IfOk result (λ query. Asks text.now (said script.now) (asked query)) }
    ensures refused { IfErr result (λ refusal. IsQueryRefusal text.now (said script.now) refusal) }
{
    let lexed = LexedText::of(alloc, text)?;
    parse_query_lexed(alloc, &lexed, script)
}
