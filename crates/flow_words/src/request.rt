ghost use Rattle.std.specs.Prelude.{◌≡◌, ℕ, IfSome, MatchOption};
ghost use Rattle.clap.specs.Words.{found_of, rows_of, one_text};
ghost use Rattle.flow_words.specs.Command.{HasNumbers, IsBetween};
ghost use Rattle.flow_words.specs.Words.{mode_word, HasNumber, IsOf, IsWithin};

use clap::ArgMatches;

/// What the program does.
#[derive(Clone, Copy)]
pub enum Mode {
    /// Drive a workflow by a session.
    Drive,
    /// Run a workflow by workers.
    Run,
    /// Say whether some execution of a workflow meets its constraints.
    Check,
    /// Say whether all executions of a workflow meet a property, or a constraint follows from the others.
    Verify,
    /// Say whether a journal is an execution of a workflow.
    Trace,
    /// Write a generated workflow.
    Gen,
    /// Run a generated workflow by workers.
    Large,
    /// Drive a workflow by a session of users, each of whom may take what a policy allows.
    Duty,
    /// Say of each of many journals whether it is an execution of a workflow, by workers.
    Audit,
}

/// A mode and its numbers. A mode uses the numbers that concern it.
#[derive(Clone, Copy)]
pub struct Request {
    pub mode: Mode,
    /// The greatest length of a history.
    pub steps: u32,
    /// How many workers run a workflow, or check journals.
    pub workers: u32,
    /// What a workflow is generated from.
    pub seed: u32,
    /// How many blocks of eight events a generated workflow has.
    pub size: u32,
}

/// The request of what the command has found.
pub(crate) fn request_in(matches: &ArgMatches<'_>) -> Option<Request>
    requires { HasNumbers (found_of matches.now) }
    ensures call { MatchOption result ((request : Request) → ¬ (IsOf (rows_of (found_of matches.now)) request))
        (IsOf (rows_of (found_of matches.now))) }
    ensures within { IfSome result IsWithin }
{
    Some(Request {
        mode: mode_called(matches.get_str("mode")?)?,
        steps: number_in(matches, "steps")?,
        workers: number_in(matches, "workers")?,
        seed: number_in(matches, "seed")?,
        size: number_in(matches, "size")?,
    })
}

/// The mode of that name.
fn mode_called(word: &str) -> Option<Mode>
    ensures { MatchOption result ((mode : Mode) → ¬ (word.now ≡ mode_word mode)) (λ mode. word.now ≡ mode_word mode) }
{
    Some(match word {
        "drive" => Mode::Drive,
        "run" => Mode::Run,
        "check" => Mode::Check,
        "verify" => Mode::Verify,
        "trace" => Mode::Trace,
        "gen" => Mode::Gen,
        "large" => Mode::Large,
        "duty" => Mode::Duty,
        "audit" => Mode::Audit,
        _ => return None,
    })
}

/// The number that was found for an option.
fn number_in(matches: &ArgMatches<'_>, name: &str) -> Option<u32>
    requires { IfSome (one_text (found_of matches.now) name.now) (IsBetween 0 u32.MAX) }
    ensures { MatchOption result ((n : ℕ) → ¬ (HasNumber name.now (rows_of (found_of matches.now)) n))
        (HasNumber name.now (rows_of (found_of matches.now))) }
{
    matches.get_one::<u32>(name)
}
