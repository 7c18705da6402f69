//! How many cases stand how.
ghost use Rattle.std.specs.Prelude.{◌≡◌, ◌++◌, [], ◌∷◌, ℕ, length, map, IfOk, OnOk};
ghost use Rattle.flow_page.specs.Shown.{shown, shown_section};
ghost use Rattle.flow_folder_page.specs.Stand.{place_of, stands, count_in, number_row, state_row, stand_rows, stand_section};

use crate::cells::number_text;
use crate::data::{DamagedCase, FolderCase};
use flow_case_state::CaseState;
use flow_facts::Name;
use flow_page::{Row, Section, row, tabled};
use std::alloc::{AllocError, Global};

/// The place of a state in the table.
fn place_of(state: CaseState) -> u32
    ensures { result ≡ place_of state }
{
    match state {
        CaseState::Open => 0,
        CaseState::Waiting => 1,
        CaseState::Finished => 2,
        CaseState::StuckByFacts => 3,
        CaseState::StuckByDuties => 4,
        CaseState::Committed => 5,
    }
}

/// Whether the case stands so.
fn stands(state: CaseState, case: &FolderCase) -> bool
    ensures { result ≡ stands state case.now }
{
    place_of(case.state) == place_of(state)
}

/// How many of the cases stand so.
fn count_in(state: CaseState, cases: &[FolderCase]) -> usize
    ensures { result ≡ count_in state cases.now }
{
    let mut count = 0usize;
    for case in cases {
        if stands(state, case) {
            count += 1;
        }
    }
    count
}

/// A row with a word and a number.
fn number_row(alloc: Global, word: &[u8], number: usize) -> Result<Row, AllocError>
    ensures { IfOk result (λ row. shown row ≡ number_row word.now number) }
{
    let mut cells = Vec::new(alloc);
    cells.push(number_text(alloc, number as u64)?)?;
    Ok(row(Name::new(alloc, word)?, cells))
}

/// The row of a state.
fn state_row(alloc: Global, cases: &[FolderCase], state: CaseState) -> Result<Row, AllocError>
    ensures { IfOk result (λ row. shown row ≡ state_row cases.now state) }
{
    number_row(alloc, state.word().as_bytes(), count_in(state, cases))
}

/// The rows of the states.
fn state_rows(
    alloc: Global,
    cases: &[FolderCase],
    states: &[CaseState],
) -> Result<Vec<Row>, AllocError>
    ensures { IfOk result (λ rows. map shown rows.items ≡ map (state_row cases.now) states.now) }
{
    let mut rows = Vec::new(alloc);
    for state in states {
        rows.push(state_row(alloc, cases, *state)?)?;
    }
    Ok(rows)
}

/// The rows of all states, and of what is damaged.
fn stand_rows(
    alloc: Global,
    cases: &[FolderCase],
    damaged: &[DamagedCase],
) -> Result<Vec<Row>, AllocError>
    ensures { IfOk result (λ rows. map shown rows.items ≡ stand_rows cases.now (length damaged.now)) }
{
    let states = [
        CaseState::Open,
        CaseState::Waiting,
        CaseState::Finished,
        CaseState::StuckByFacts,
        CaseState::StuckByDuties,
        CaseState::Committed,
    ];
    let mut rows = state_rows(alloc, cases, &states)?;
    rows.push(number_row(alloc, b"damaged", damaged.len())?)?;
    Ok(rows)
}

/// The section of how many cases stand how.
#[tactic(auto, unfolding(crate::specs::Stand::stand_section))]
pub(crate) fn stand_section(
    alloc: Global,
    cases: &[FolderCase],
    damaged: &[DamagedCase],
) -> Result<Section, AllocError>
    ensures { IfOk result (λ section. shown_section section ≡ stand_section cases.now (length damaged.now)) }
{
    let rows = stand_rows(alloc, cases, damaged)?;
    tabled(
        alloc,
        b"How the cases stand",
        &["state", "cases"],
        rows,
        b"There is no case.",
    )
}
