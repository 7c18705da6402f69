//! The history as rows of a table.
ghost use Rattle.std.specs.Prelude.{◌≡◌, ◌<◌, ◌^◌, ◌++◌, List, map, IfOk, OnOk};
ghost use Rattle.flow_core.specs.Run.{schema};
ghost use Rattle.flow_standing.specs.declared.undone.TakenBack.{TakenBack as Taken};
ghost use Rattle.flow_standing.specs.Undone.{AreTakenBack};
ghost use Rattle.flow_case_page.specs.History.{was_taken_back, step_word, leaf_given, leaves_given, leaf_of, what_text, as_told, told_at, row_told, rows_told};
ghost use Rattle.flow_page.specs.Shown.{shown};

use crate::words::{label_of, number_text, text_of};
use flow_case_talk::Told;
use flow_core::Core;
use flow_draw::Piece;
use flow_facts::Name;
use flow_model::{Entry, Step};
use flow_page::Row;
use flow_standing::{TakenBack, taken_back};
use std::alloc::{AllocError, Global};

/// The entries of a run as rows of a table: its number, when, who, what, and the note, by what is told of each. What a step back took is
/// marked.
pub fn history_rows(
    alloc: Global,
    core: &Core,
    tellings: &[Told<'_>],
) -> Result<Vec<Row>, AllocError>
    ensures { IfOk result (λ rows. (taken : List Taken) × AreTakenBack (schema core.now) core.now.history taken
        × (map shown rows.items ≡ rows_told core.now tellings.now taken 0 core.now.history)) }
{
    let taken = taken_back(alloc, core)?;
    let leaves = leaves_given(alloc, core.history())?;
    rows_of(alloc, core, tellings, &taken, &leaves)
}

/// The rows, where the claims were given on these leaves, and these tasks were taken back.
fn rows_of(
    alloc: Global,
    core: &Core,
    tellings: &[Told<'_>],
    taken: &[TakenBack],
    leaves: &[u32],
) -> Result<Vec<Row>, AllocError>
    requires { leaves.now ≡ leaves_given core.now.history }
    ensures { IfOk result (λ rows. map shown rows.items ≡ rows_told core.now tellings.now taken.now 0 core.now.history) }
{
    let mut rows = Vec::new(alloc);
    for (place, entry) in core.history().iter().enumerate() {
        let told = told_at(tellings, place);
        let what = what_text(alloc, core, leaves, entry.step)?;
        let back = was_taken_back(taken, place);
        rows.push(entry_row(alloc, place as u64, told, what, back)?)?;
    }
    Ok(rows)
}

/// The row of the entry at a place that is counted from 0.
fn entry_row(
    alloc: Global,
    place: u64,
    told: Told<'_>,
    what: Name,
    is_taken_back: bool,
) -> Result<Row, AllocError>
    requires { place < 2 ^ 63 }
    ensures { IfOk result (λ row. shown row ≡ row_told place (as_told told.entry) what is_taken_back) }
{
    let mut cells = Vec::new(alloc);
    cells.push(Name::new(alloc, told.at.as_bytes())?)?;
    cells.push(Name::new(alloc, told.by.as_bytes())?)?;
    cells.push(what)?;
    cells.push(Name::new(alloc, told.note.as_bytes())?)?;
    Ok(Row {
        head: number_text(alloc, place + 1)?,
        cells,
        is_taken_back,
    })
}

/// What is told of the entry at a place; nothing where nothing is.
pub(crate) fn told_at<'a>(tellings: &[Told<'a>], place: usize) -> Told<'a>
    ensures { as_told result ≡ told_at tellings.now place }
{
    match tellings.get(place) {
        Some(told) => *told,
        None => Told {
            at: "",
            by: "",
            note: "",
        },
    }
}

/// Whether the entry at the place did what a step back took.
fn was_taken_back(taken: &[TakenBack], place: usize) -> bool
    ensures { result ≡ was_taken_back taken.now place }
{
    for one in taken {
        if one.done == place {
            return true;
        }
    }
    false
}

/// The leaves on which claims were given, by the numbers of these, which begin at 1.
fn leaves_given(alloc: Global, history: &[Entry]) -> Result<Vec<u32>, AllocError>
    ensures { IfOk result (λ leaves. leaves.items ≡ leaves_given history.now) }
{
    let mut leaves = Vec::new(alloc);
    for entry in history {
        put_given(&mut leaves, entry.step)?;
    }
    Ok(leaves)
}

/// Adds the leaf of the claim that the step gives, if it gives one.
fn put_given(leaves: &mut Vec<u32>, step: Step) -> Result<(), AllocError>
    ensures { OnOk result (leaves.new.items ≡ leaves.old.items ++ leaf_given step) }
{
    if let Step::Took { leaf, .. } = step {
        leaves.push(leaf)?;
    }
    Ok(())
}

/// What a step did, in words.
fn step_word(step: Step) -> &'static [u8]
    ensures { result.now ≡ step_word step }
{
    match step {
        Step::Took { .. } => b"took",
        Step::Done { .. } => b"done",
        Step::Failed { .. } => b"failed",
        Step::Late { .. } => b"late",
        Step::Did { .. } => b"did",
        Step::Rewound { .. } => b"stepped back",
        Step::Committed => b"committed",
    }
}

/// The leaf that a step is about, if it is about one.
fn leaf_of(leaves: &[u32], step: Step) -> Option<u32>
    ensures { result ≡ leaf_of leaves.now step }
{
    match step {
        Step::Took { leaf, .. } | Step::Did { leaf } => Some(leaf),
        Step::Done { claim } | Step::Failed { claim, .. } | Step::Late { claim } => {
            leaves.get((claim as usize).saturating_sub(1)).copied()
        }
        Step::Rewound { .. } | Step::Committed => None,
    }
}

/// What a step did, and to which task.
fn what_text(alloc: Global, core: &Core, leaves: &[u32], step: Step) -> Result<Name, AllocError>
    ensures { IfOk result (λ text. text ≡ what_text core.now.definition leaves.now step) }
{
    let word = step_word(step);
    match leaf_of(leaves, step) {
        Some(leaf) => {
            let label = label_of(alloc, core, leaf)?;
            text_of(
                alloc,
                &[
                    Piece::Words(word),
                    Piece::Words(b" "),
                    Piece::Words(label.bytes()),
                ],
            )
        }
        None => Name::new(alloc, word),
    }
}
