ghost use Rattle.std.specs.Prelude.{◌≡◌, ◌<◌, ◌==◌, length, Ok, Err, IfOk, IfErr, IfSome, MatchResult};
ghost use Rattle.std.specs.List.{position};
ghost use Rattle.flow_record.specs.Words.{words_of};
ghost use Rattle.flow_names.specs.Grammar.{IsRefusedFor, said_by, said_with, one_word, no_word, task_in, task_at, claim_in, undone_of, step_of, label_in, unquoted};

use crate::command::{ClaimRef, Command, StepRef, TaskRef};
use crate::number::read_number;
use crate::refusal::CommandRefusal;
use crate::verb::Verb;
use flow_facts::Name;
use flow_record::split_word;
use std::alloc::{AllocError, Global};

/// Reads what a line asks for.
pub fn read_command(alloc: Global, line: &[u8]) -> Result<Command, CommandRefusal>
    ensures ok { IfOk result (λ command. said_by (words_of line.now) ≡ Ok command) }
    ensures refused { IfErr result (IsRefusedFor (said_by (words_of line.now))) }
{
    let (first, rest) = split_word(line);
    if first.is_empty() {
        return Err(CommandRefusal::Blank);
    }
    match Verb::of(first) {
        Some(verb) => command_of(alloc, verb, rest),
        None => Err(CommandRefusal::Unknown {
            near: Verb::near(first),
        }),
    }
}

/// What is asked for by a verb, and the words behind it.
fn command_of(alloc: Global, verb: Verb, rest: &[u8]) -> Result<Command, CommandRefusal>
    ensures ok { IfOk result (λ command. said_with verb (words_of rest.now) ≡ Ok command) }
    ensures refused { IfErr result (IsRefusedFor (said_with verb (words_of rest.now))) }
{
    match verb {
        Verb::Take => Ok(Command::Take(task_in(alloc, one_word(verb, rest)?)?)),
        Verb::Why => Ok(Command::Why(task_in(alloc, one_word(verb, rest)?)?)),
        Verb::Done => Ok(Command::Done(claim_in(alloc, one_word(verb, rest)?)?)),
        Verb::Fail => Ok(Command::Fail(claim_in(alloc, one_word(verb, rest)?)?)),
        Verb::Do => Ok(Command::Do(step_of(alloc, rest)?)),
        Verb::Rewind => no_word(verb, Command::Rewind, rest),
        Verb::Commit => no_word(verb, Command::Commit, rest),
        Verb::Tidy => no_word(verb, Command::Tidy, rest),
        Verb::Todo => no_word(verb, Command::Todo, rest),
        Verb::History => no_word(verb, Command::History, rest),
        Verb::Undone => undone_of(alloc, rest),
        Verb::Facts => no_word(verb, Command::Facts, rest),
        Verb::Report => no_word(verb, Command::Report, rest),
    }
}

/// The one word behind a verb.
fn one_word(verb: Verb, rest: &[u8]) -> Result<&[u8], CommandRefusal>
    ensures { MatchResult result (λ word. one_word verb (words_of rest.now) ≡ Ok word.now)
        (λ refusal. one_word verb (words_of rest.now) ≡ Err refusal) }
{
    let (word, rest) = split_word(rest);
    if word.is_empty() {
        return Err(CommandRefusal::Missing { verb });
    }
    let (other, _) = split_word(rest);
    if other.is_empty() {
        Ok(word)
    } else {
        Err(CommandRefusal::Behind { verb })
    }
}

/// The command of a verb with no word behind it.
fn no_word(verb: Verb, command: Command, rest: &[u8]) -> Result<Command, CommandRefusal>
    ensures { MatchResult result (λ command'. no_word verb command (words_of rest.now) ≡ Ok command')
        (λ refusal. no_word verb command (words_of rest.now) ≡ Err refusal) }
{
    let (word, _) = split_word(rest);
    if word.is_empty() {
        Ok(command)
    } else {
        Err(CommandRefusal::Behind { verb })
    }
}

/// The task that a word says: a name, or a name, `@` and the number of a leaf.
fn task_in(alloc: Global, word: &[u8]) -> Result<TaskRef, CommandRefusal>
    ensures ok { IfOk result (λ task. task_in word.now ≡ Ok task) }
    ensures refused { IfErr result (IsRefusedFor (task_in word.now)) }
{
    let Some(at) = place_of_at(word) else {
        let name = Name::new(alloc, word)?;
        return Ok(TaskRef { name, leaf: None });
    };
    task_at(alloc, &word[..at], read_number(&word[at + 1..]))
}

/// The task of that name, with the leaf that was read.
fn task_at(alloc: Global, name: &[u8], leaf: Option<u32>) -> Result<TaskRef, CommandRefusal>
    ensures ok { IfOk result (λ task. task_at name.now leaf ≡ Ok task) }
    ensures refused { IfErr result (IsRefusedFor (task_at name.now leaf)) }
{
    if leaf.is_none() {
        return Err(CommandRefusal::Leaf);
    }
    let name = Name::new(alloc, name)?;
    Ok(TaskRef { name, leaf })
}

/// The place of the first `@`.
fn place_of_at(word: &[u8]) -> Option<usize>
    ensures place { result ≡ position (λ byte. byte == 64) word.now }
    ensures within { IfSome result (λ at. at < length word.now) }
{
    word.iter().position(|byte| *byte == b'@')
}

/// The claim that a word says: its number, or the task that it is on.
fn claim_in(alloc: Global, word: &[u8]) -> Result<ClaimRef, CommandRefusal>
    ensures ok { IfOk result (λ claim. claim_in word.now ≡ Ok claim) }
    ensures refused { IfErr result (IsRefusedFor (claim_in word.now)) }
{
    match read_number(word) {
        Some(number) => Ok(ClaimRef::Number(number)),
        None => Ok(ClaimRef::Of(task_in(alloc, word)?)),
    }
}

/// What the words behind `undone` ask for: nothing, or a claim that is ticked off by `--ok` behind it.
fn undone_of(alloc: Global, rest: &[u8]) -> Result<Command, CommandRefusal>
    ensures ok { IfOk result (λ command. undone_of (words_of rest.now) ≡ Ok command) }
    ensures refused { IfErr result (IsRefusedFor (undone_of (words_of rest.now))) }
{
    let (word, behind) = split_word(rest);
    if word.is_empty() {
        return Ok(Command::Undone);
    }
    let mark = one_word(Verb::Undone, behind)?;
    if mark != b"--ok".as_slice() {
        return Err(CommandRefusal::Behind { verb: Verb::Undone });
    }
    Ok(Command::TickOff(claim_in(alloc, word)?))
}

/// The leaf that the words say: its number, or its label in one or two words, which may stand in quotes.
fn step_of(alloc: Global, rest: &[u8]) -> Result<StepRef, CommandRefusal>
    ensures ok { IfOk result (λ step. step_of (words_of rest.now) ≡ Ok step) }
    ensures refused { IfErr result (IsRefusedFor (step_of (words_of rest.now))) }
{
    let (first, rest) = split_word(rest);
    if first.is_empty() {
        return Err(CommandRefusal::Missing { verb: Verb::Do });
    }
    let (second, rest) = split_word(rest);
    if second.is_empty() {
        return match read_number(first) {
            Some(leaf) => Ok(StepRef::Leaf(leaf)),
            None => Ok(StepRef::Label(Name::new(alloc, unquoted(first))?)),
        };
    }
    let (third, _) = split_word(rest);
    if !third.is_empty() {
        return Err(CommandRefusal::Behind { verb: Verb::Do });
    }
    Ok(StepRef::Label(label_in(alloc, first, second)?))
}

/// The label of two words.
fn label_in(alloc: Global, first: &[u8], second: &[u8]) -> Result<Name, AllocError>
    ensures { IfOk result (λ label. label ≡ label_in first.now second.now) }
{
    let mut text = Vec::new(alloc);
    text.extend_from_slice(first)?;
    text.push(b' ')?;
    text.extend_from_slice(second)?;
    Name::new(alloc, unquoted(&text))
}

/// What stands between quotes, or the text itself.
fn unquoted(text: &[u8]) -> &[u8]
    ensures { result.now ≡ unquoted text.now }
{
    match text {
        [b'"', inner @ .., b'"'] => inner,
        _ => text,
    }
}
