use clap::{Arg, ArgAction, ArgMatches, Command};
use flow_call::{flag, option, required};
use std::alloc::{AllocError, Global};

/// What stands behind the name of a case.
#[derive(Clone, Copy)]
enum Wants {
    Nothing,
    /// A word that means this.
    Task(&'static str),
    /// A word that means this, or nothing.
    Perhaps(&'static str),
}

/// A command of a case: its name, what it is about, and what stands behind the case.
struct CaseCommand {
    name: &'static str,
    about: &'static str,
    wants: Wants,
}

const COMMANDS: [CaseCommand; 15] = [
    CaseCommand {
        name: "take",
        about: "Takes a task, after the tests and updates that it waits for",
        wants: Wants::Task("the task: the name of its event, or NAME@LEAF"),
    },
    CaseCommand {
        name: "done",
        about: "Tells that a task succeeded",
        wants: Wants::Task("the task that is out, or the number of its claim"),
    },
    CaseCommand {
        name: "fail",
        about: "Tells that a task failed",
        wants: Wants::Task("the task that is out, or the number of its claim"),
    },
    CaseCommand {
        name: "do",
        about: "Makes a test of a fact, or a change of one",
        wants: Wants::Task("the label in quotes, or the number of the leaf"),
    },
    CaseCommand {
        name: "rewind",
        about: "Steps back to the last place at which another choice is free",
        wants: Wants::Nothing,
    },
    CaseCommand {
        name: "commit",
        about: "Ends the case",
        wants: Wants::Nothing,
    },
    CaseCommand {
        name: "tidy",
        about: "Makes the changes of facts that close off no choice",
        wants: Wants::Nothing,
    },
    CaseCommand {
        name: "todo",
        about: "Shows what may be begun and by whom, and what is out",
        wants: Wants::Nothing,
    },
    CaseCommand {
        name: "why",
        about: "Tells why a task may not be taken now",
        wants: Wants::Task("the task"),
    },
    CaseCommand {
        name: "history",
        about: "Shows who did what, and when",
        wants: Wants::Nothing,
    },
    CaseCommand {
        name: "undone",
        about: "Shows what steps back took, to be undone outside; with --ok ticks it off",
        wants: Wants::Perhaps("the task, or the number of its claim, that is undone outside"),
    },
    CaseCommand {
        name: "facts",
        about: "Shows the facts that hold",
        wants: Wants::Nothing,
    },
    CaseCommand {
        name: "report",
        about: "Shows the report that flowkeep prints",
        wants: Wants::Nothing,
    },
    CaseCommand {
        name: "verify",
        about: "Checks entries and trail, and shows the last seal",
        wants: Wants::Nothing,
    },
    CaseCommand {
        name: "open",
        about: "Answers commands from standard input, a line each",
        wants: Wants::Nothing,
    },
];

/// Whether it is the name of a command of a case.
pub fn is_case_command(name: &str) -> bool {
    COMMANDS.iter().any(|command| command.name == name)
}

fn case_arg<'a>(alloc: Global) -> Arg<'a> {
    required(alloc, "case", "CASE", "the folder of the case")
}

/// An option with a value: its name, what stands for the value, and what it means.
const OPTIONS: [(&str, &str, &str); 4] = [
    ("as", "USER", "who asks; without it the login name"),
    ("note", "TEXT", "a note for the trail"),
    ("at", "TIME", "when; without it the system's time"),
    (
        "wait",
        "SECONDS",
        "how long to wait for another command on the case; 5 without it",
    ),
];

/// The command with what each command of a case may be given besides.
fn with_options<'a>(alloc: Global, command: Command<'a>) -> Result<Command<'a>, AllocError> {
    let mut command = command.arg(json_arg(alloc))?.arg(quiet_arg(alloc))?;
    for (name, value, help) in OPTIONS {
        command = command.arg(option(alloc, name, value, help))?;
    }
    Ok(command)
}

fn json_arg<'a>(alloc: Global) -> Arg<'a> {
    flag(alloc, "json", "answers in JSON, an object a line")
}

fn quiet_arg<'a>(alloc: Global) -> Arg<'a> {
    flag(
        alloc,
        "quiet",
        "does not tell what was made: the status does",
    )
}

fn task_arg<'a>(alloc: Global, help: &'static str) -> Arg<'a> {
    Arg::new(alloc, "task")
        .value_name("TASK")
        .help(help)
        .action(ArgAction::Set)
}

fn ok_arg<'a>(alloc: Global) -> Arg<'a> {
    flag(alloc, "ok", "it is undone outside")
}

/// The words of one command.
fn command_of<'a>(alloc: Global, command: &CaseCommand) -> Result<Command<'a>, AllocError> {
    let words = Command::new(alloc, command.name).about(command.about);
    let words = with_options(alloc, words.arg(case_arg(alloc))?)?;
    match command.wants {
        Wants::Task(help) => words.arg(task_arg(alloc, help).required(true)),
        Wants::Perhaps(help) => words.arg(task_arg(alloc, help))?.arg(ok_arg(alloc)),
        Wants::Nothing => Ok(words),
    }
}

/// The words that make a case.
fn new_command<'a>(alloc: Global) -> Result<Command<'a>, AllocError> {
    let workflow = option(alloc, "workflow", "FILE", "the text of the workflow").required(true);
    let tidy = flag(
        alloc,
        "tidy",
        "each done makes the changes of facts that close off no choice",
    );
    Command::new(alloc, "new")
        .about("Makes the folder of a case")
        .arg(case_arg(alloc))?
        .arg(workflow)?
        .arg(tidy)?
        .arg(option(
            alloc,
            "policy",
            "FILE",
            "who may do what; without it anybody may do anything",
        ))
}

/// The command with those of cases besides.
pub fn with_cases<'a>(alloc: Global, command: Command<'a>) -> Result<Command<'a>, AllocError> {
    let mut command = command.subcommand(new_command(alloc)?)?;
    for case in COMMANDS.iter() {
        let one = command_of(alloc, case)?;
        command = command.subcommand(one)?;
    }
    Ok(command)
}

/// The line that a command is, as a dialogue has it.
pub(crate) fn line_in(
    alloc: Global,
    name: &str,
    words: &ArgMatches<'_>,
) -> Result<String, AllocError> {
    match words.get_str("task") {
        Some(task) if name == "undone" && words.get_flag("ok") => {
            format!(in alloc; "{name} {task} --ok")
        }
        Some(task) => format!(in alloc; "{name} {task}"),
        None => format!(in alloc; "{name}"),
    }
}
