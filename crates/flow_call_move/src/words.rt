use clap::{Arg, ArgAction, Command};
use flow_call::{flag, option, required};
use std::alloc::{AllocError, Global};

/// An option with a value: its name, what stands for the value, and what it means.
const OPTIONS: [(&str, &str, &str); 5] = [
    (
        "workflow",
        "FILE",
        "the new text of the workflow; without it the text stays",
    ),
    (
        "policy",
        "FILE",
        "the new policy; without it the policy stays",
    ),
    ("as", "USER", "who moves it; without it the login name"),
    ("at", "TIME", "when; without it the system's time"),
    (
        "wait",
        "SECONDS",
        "how long to wait for another command on the case; 5 without it",
    ),
];

fn rename_arg<'a>(alloc: Global) -> Arg<'a> {
    Arg::new(alloc, "rename")
        .long("rename")
        .value_name("OLD=NEW")
        .help("an event that has another name in the new text; may be given again")
        .action(ArgAction::Append)
}

/// The words that ask that a case goes on under other texts.
pub fn move_command<'a>(alloc: Global) -> Result<Command<'a>, AllocError> {
    let case = required(alloc, "case", "CASE", "the folder of the case");
    let json = flag(alloc, "json", "answers in JSON, an object a line");
    let mut command = Command::new(alloc, "move")
        .about("Goes on with a case under a changed workflow or policy")
        .arg(case)?
        .arg(rename_arg(alloc))?
        .arg(json)?;
    for (name, value, help) in OPTIONS {
        command = command.arg(option(alloc, name, value, help))?;
    }
    Ok(command)
}
