use clap::{Arg, ArgAction};
use std::alloc::Global;

/// How many threads work at most.
pub const MOST_JOBS: u32 = 64;

/// How many threads work where the words do not say.
pub const USUAL_JOBS: u32 = 4;

/// A number within its bounds, or nothing where the word is none.
pub fn number_in(word: Option<&str>, usual: u32, most: u32) -> Option<u32> {
    match word {
        Some(word) => match word.parse::<u32>() {
            Ok(number) if number >= 1 && number <= most => Some(number),
            _ => None,
        },
        None => Some(usual),
    }
}

/// A word that takes a value.
pub fn option<'a>(alloc: Global, name: &'a str, value: &'a str, help: &'a str) -> Arg<'a> {
    Arg::new(alloc, name)
        .long(name)
        .value_name(value)
        .help(help)
        .action(ArgAction::Set)
}

/// A word that has to stand there.
pub fn required<'a>(alloc: Global, name: &'a str, value: &'a str, help: &'a str) -> Arg<'a> {
    Arg::new(alloc, name)
        .value_name(value)
        .help(help)
        .required(true)
        .action(ArgAction::Set)
}

/// A word that is there or not.
pub fn flag<'a>(alloc: Global, name: &'a str, help: &'a str) -> Arg<'a> {
    Arg::new(alloc, name)
        .long(name)
        .help(help)
        .action(ArgAction::SetTrue)
}
