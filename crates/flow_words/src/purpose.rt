ghost use Rattle.std.specs.Prelude.{◌≡◌, ◌≢◌, IfOk, IfSome, MatchOption, MatchResult, map};
ghost use Rattle.std.specs.String.{string_bytes};
ghost use Rattle.clap.specs.Values.{kind_of};
ghost use Rattle.clap.specs.Words.{HasKind, fault_of, found_of};
ghost use Rattle.flow_words.specs.Command.{flow_app, HasNumbers, IsReadAs};
ghost use Rattle.flow_words.specs.Words.{text_asked_by, IsFor, IsNoCall, HasWithin, OnePurpose};

use crate::command::flow_command;
use crate::request::{Request, request_in};
use clap::error::ErrorKind;
use clap::{ArgMatches, Error};
use std::alloc::{AllocError, Global};

/// What the words of a call are for.
#[derive(Clone, Copy)]
pub enum Purpose {
    /// What a mode answers.
    Answer(Request),
    /// The text that says how the program is called, `HELP`.
    Help,
    /// The text that says which program it is, `VERSION`.
    Version,
}

/// What the words are for, where they are a call.
pub fn purpose_of(alloc: Global, words: &[String]) -> Result<Option<Purpose>, AllocError>
    ensures purpose { IfOk result (λ found. MatchOption found (IsNoCall (map (λ word. string_bytes word) words.now))
        (IsFor (map (λ word. string_bytes word) words.now))) }
    ensures within { IfOk result (λ found. IfSome found HasWithin) }
{
    match read_words(alloc, words) {
        Ok(matches) => match request_in(&matches) {
            Some(request) => Ok(Some(Purpose::Answer(request))),
            None => Ok(None),
        },
        Err(error) => text_asked(error),
    }
}

/// What the command finds in the words, where it reads them.
fn read_words<'a>(alloc: Global, words: &'a [String]) -> Result<ArgMatches<'a>, Error>
    ensures reading { MatchResult result (IsReadAs (map (λ word. string_bytes word) words.entry.now))
        (HasKind (fault_of flow_app (map (λ word. string_bytes word) words.entry.now))) }
    ensures numbers { IfOk result (λ matches. HasNumbers (found_of matches)) }
{
    let command = flow_command(alloc)?;
    command.try_get_matches_from(words)
}

/// The text that is asked for, where the command failed for that, and not for want of memory.
fn text_asked(error: Error) -> Result<Option<Purpose>, AllocError>
    ensures fed { IfOk result (λ _. kind_of error ≢ ErrorKind.OutOfMemory) }
    ensures asked { IfOk result (λ found. found ≡ text_asked_by (kind_of error)) }
{
    match error.kind() {
        ErrorKind::OutOfMemory => Err(AllocError),
        ErrorKind::DisplayHelp => Ok(Some(Purpose::Help)),
        ErrorKind::DisplayVersion => Ok(Some(Purpose::Version)),
        _ => Ok(None),
    }
}

/// Words are for one purpose alone.
pub fn law_one_purpose()
    ensures { OnePurpose }
{}
