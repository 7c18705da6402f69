ghost use Rattle.std.specs.Prelude.{◌≡◌, ℕ, Some, None, IfOk, MatchOption};
ghost use Rattle.std.specs.Result.{IsErrOf};
ghost use Rattle.flow_record.specs.Words.{words_of};
ghost use Rattle.flow_record.specs.Session.{commands, bad_line};
ghost use Rattle.flow_policy.specs.Session.{name_called, duty_line, duties_of};

use crate::name::is_name;
use flow_facts::Name;
use flow_record::{Command, Line, RecordRefusal, Sentence, read_lines, split_word};
use std::alloc::{AllocError, Global};

/// One line of a session of users.
#[derive(Drop)]
pub enum Duty {
    /// The user of that name calls from here on.
    As(Name),
    /// What the caller asks of the run.
    Command(Command),
}

/// Reads a session of users: that of a run, with a further command.
pub fn read_duties(alloc: Global, text: &[u8]) -> Result<Vec<Duty>, RecordRefusal>
    ensures ok { IfOk result (λ read. duties_of text.now ≡ commands read.items) }
    ensures bad { (line : ℕ) → IsErrOf result (RecordRefusal.BadLine line) → duties_of text.now ≡ bad_line line }
    ensures no_label { (line : ℕ) → ¬ (IsErrOf result (RecordRefusal.Label line)) }
{
    read_lines(alloc, text)
}

impl Sentence for Duty {
    ghost said = { duty_line };

    fn read(alloc: Global, line: &[u8]) -> Result<Line<Duty>, AllocError> {
        match name_called(line) {
            Some(name) => Ok(Line::Holds(Duty::As(Name::new(alloc, name)?))),
            None => match Command::read(alloc, line)? {
                Line::Blank => Ok(Line::Blank),
                Line::Holds(command) => Ok(Line::Holds(Duty::Command(command))),
                Line::Bad => Ok(Line::Bad),
            },
        }
    }
}

/// The name of the user who is to call, where the words are `as` and a name.
fn name_called(line: &[u8]) -> Option<&[u8]>
    ensures { MatchOption result (name_called (words_of line.now) ≡ None) (λ name. name_called (words_of line.now) ≡ Some name.now) }
{
    let (first, rest) = split_word(line);
    let (second, rest) = split_word(rest);
    let (third, _) = split_word(rest);
    if first == b"as".as_slice() && is_name(second) && third.is_empty() {
        Some(second)
    } else {
        None
    }
}
