use clap::Command;
use flow_call_cases::{page_command, with_cases};
use flow_call_folders::{export_command, list_command};
use flow_call_logs::{log_command, with_columns};
use flow_call_move::move_command;
use flow_call_policies::{alone_command, staffed_command};
use flow_call_texts::{drawing_arguments, explain_command, lint_command};
use std::alloc::{AllocError, Global};

/// The words that ask for a picture.
fn draw_command<'a>(alloc: Global) -> Result<Command<'a>, AllocError> {
    let command = Command::new(alloc, "draw").about(
        "Draws a workflow, and where a run of it stands",
    );
    with_columns(alloc, drawing_arguments(alloc, command)?)
}

/// Adds the commands on texts.
fn with_texts<'a>(alloc: Global, command: Command<'a>) -> Result<Command<'a>, AllocError> {
    let draw = draw_command(alloc)?;
    let explain = explain_command(alloc)?;
    let lint = lint_command(alloc)?;
    command
        .subcommand(draw)?
        .subcommand(explain)?
        .subcommand(lint)
}

/// Adds the commands on policies and on logs.
fn with_policies<'a>(alloc: Global, command: Command<'a>) -> Result<Command<'a>, AllocError> {
    let alone = alone_command(alloc)?;
    let staffed = staffed_command(alloc)?;
    let log = log_command(alloc)?;
    command
        .subcommand(alone)?
        .subcommand(staffed)?
        .subcommand(log)
}

/// Adds the commands on folders of cases, and the one that moves a case.
fn with_folders<'a>(alloc: Global, command: Command<'a>) -> Result<Command<'a>, AllocError> {
    let page = page_command(alloc)?;
    let list = list_command(alloc)?;
    let export = export_command(alloc)?;
    let moving = move_command(alloc)?;
    command
        .subcommand(page)?
        .subcommand(list)?
        .subcommand(export)?
        .subcommand(moving)
}

/// The command that reads the words of a call: what is to be done is a word of its own, and more may come.
pub(crate) fn desk_command<'a>(alloc: Global) -> Result<Command<'a>, AllocError> {
    let command = Command::new(alloc, "flowdesk")
        .version("1")
        .about("Shows workflows of flow, and drives cases by names")
        .subcommand_required(true);
    let command = with_texts(alloc, command)?;
    let command = with_policies(alloc, command)?;
    let command = with_folders(alloc, command)?;
    with_cases(alloc, command)
}
