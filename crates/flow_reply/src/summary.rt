ghost use Rattle.std.specs.Prelude.{◌≡◌, IfOk, fold};
ghost use Rattle.std.specs.String.{string_bytes};
ghost use Rattle.serde_json.specs.Data.{no_members, put};
ghost use Rattle.serde_json.specs.View.{view, members_view};
ghost use Rattle.serde_json.specs.Written.{compact_text};
ghost use Rattle.flow_reply.specs.Conclusion.{meaning_of, verdict_text};
ghost use Rattle.flow_reply.specs.Summary.{count, summary_object, summary_text, IsSummary};

use crate::conclusion::{Conclusion, conclusion_of};
use crate::verdict::Verdict;
use crate::words::with_bytes;
use flow_core::Core;
use serde_json::{Map, Value, put};
use std::alloc::{AllocError, Global};

/// What is told of a run of a generated workflow.
#[derive(Clone, Copy)]
pub struct Summary {
    pub bulk: u64,
    /// The length of the history.
    pub history: u64,
    /// The length of the journal.
    pub journal: u64,
    pub leaves: u64,
    /// The options that have an execution.
    pub live: u64,
    pub options: u64,
    pub resolutions: u64,
    pub seed: u64,
    /// How many blocks of eight events the workflow has.
    pub size: u64,
    pub verdict: Verdict,
}

impl Summary {
    /// Prints the summary of a run that came to this, as one line of JSON.
    pub fn print(&self, alloc: Global, conclusion: &Conclusion) -> Result<Vec<u8>, AllocError>
        ensures { IfOk result (λ text. text.items ≡ summary_text self.now (verdict_text (meaning_of conclusion.now))) }
    {
        let words = conclusion.print(alloc)?;
        let object = print_object(alloc, self, &words);
        drop(words);
        with_bytes(object?.into_bytes(), b"\n")
    }
}

/// Prints the summary of a run that came to its verdict, as one line of JSON.
pub fn print_summary(alloc: Global, core: &Core, summary: &Summary) -> Result<Vec<u8>, AllocError>
    ensures { IfOk result (λ text. IsSummary core.now summary.now text.items) }
{
    let conclusion = conclusion_of(alloc, core, &summary.verdict)?;
    let text = summary.print(alloc, &conclusion);
    drop(conclusion);
    text
}

/// Prints the summary as an object of JSON, its verdict in these words.
fn print_object(alloc: Global, summary: &Summary, words: &str) -> Result<String, AllocError>
    ensures { IfOk result (λ text. string_bytes text ≡ compact_text (summary_object summary.now words.now)) }
{
    let object = summary_value(alloc, summary, words)?;
    let text = object.to_string(alloc);
    drop(object);
    text
}

/// The summary as an object of JSON, its verdict in these words.
fn summary_value(alloc: Global, summary: &Summary, words: &str) -> Result<Value, AllocError>
    ensures { IfOk result (λ value. view value ≡ summary_object summary.now words.now) }
{
    let mut members = counted_members(
        alloc,
        &[
            ("bulk", summary.bulk),
            ("history", summary.history),
            ("journal", summary.journal),
            ("leaves", summary.leaves),
            ("live", summary.live),
            ("options", summary.options),
            ("resolutions", summary.resolutions),
            ("seed", summary.seed),
            ("size", summary.size),
        ],
    )?;
    put(
        &mut members,
        alloc,
        "verdict",
        Value::try_from_str(alloc, words)?,
    )?;
    Ok(Value::Object(members))
}

/// The members of an object: keys, each with its number.
fn counted_members(alloc: Global, counts: &[(&str, u64)]) -> Result<Map<String, Value>, AllocError>
    ensures { IfOk result (λ members. members_view members.entries
        ≡ fold (λ others pair. put pair.0.now (count pair.1) others) no_members counts.now) }
{
    let mut members = Map::new(alloc);
    for (key, number) in counts {
        put(&mut members, alloc, key, Value::from(*number))?;
    }
    Ok(members)
}
