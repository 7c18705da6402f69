//! Rows of what to look at in a workflow: the call of `flow_lint_cli` on its text.

use crate::explained::form_in;
use crate::rows::Row;
use anyhow::Result;
use flow_lint_cli::lint_text;
use std::alloc::Global;

/// The status of the call that a row describes, and what it tells.
pub(crate) fn linted_by(alloc: Global, words: &[String], row: &Row<'_>) -> Result<(u8, Vec<u8>)> {
    let output = lint_text(alloc, &row.input, form_in(words))?;
    Ok((output.status.code(), output.text))
}
