ghost use Rattle.std.specs.Prelude.{◌≡◌, ◌∷◌, [], IfOk, codes};
ghost use Rattle.std.specs.Fmt.{decimal};
ghost use Rattle.flow_model.specs.Lists.{joined};
ghost use Rattle.flow_case_words.specs.Reply.{late_pieces, refused_pieces, refused_text, word_of};

use flow_ask::Refusal;
use flow_record::print_pieces;
use itoa::Buffer;
use std::alloc::{AllocError, Global};

/// Prints why nothing came of what a user asked about a task.
pub fn print_refusal<'x>(
    alloc: Global,
    user: &'x [u8],
    task: &'x [u8],
    refusal: Refusal,
) -> Result<Vec<u8>, AllocError>
    ensures { IfOk result (λ text. text.items ≡ refused_text user.now task.now refusal) }
{
    let why = print_why(alloc, user, task, refusal)?;
    print_pieces(alloc, &[b"refused: ", &why])
}

/// Prints the cause alone.
fn print_why<'x>(
    alloc: Global,
    user: &'x [u8],
    task: &'x [u8],
    refusal: Refusal,
) -> Result<Vec<u8>, AllocError>
    ensures { IfOk result (λ text. text.items ≡ joined (refused_pieces user.now task.now refusal)) }
{
    let may_not = b" may not take ".as_slice();
    match refusal {
        Refusal::Closed => print_pieces(alloc, &[b"the run is over"]),
        Refusal::NoLeaf => print_pieces(alloc, &[b"there is no leaf ", task]),
        Refusal::WrongKind => {
            print_pieces(alloc, &[task, b" is not of the kind that is asked for"])
        }
        Refusal::NotEnabled => print_pieces(alloc, &[task, b" cannot be taken or done now"]),
        Refusal::TestFalse => print_pieces(alloc, &[task, b" does not hold now"]),
        Refusal::NoClaim => print_pieces(alloc, &[b"no claim ", task, b" was given"]),
        Refusal::Answered => print_pieces(alloc, &[b"the claim on ", task, b" is answered"]),
        Refusal::Late { of, now } => print_late(alloc, task, of, now),
        Refusal::NoChoice => print_pieces(alloc, &[b"no other choice is free"]),
        Refusal::Unfinished => print_pieces(alloc, &[b"the run is not finished"]),
        Refusal::ClaimsOut { claim } => print_behind(alloc, task, b" is out: claim ", claim),
        Refusal::Spent { limit } => print_numbered(alloc, b"all ", limit, b" entries are spent"),
        Refusal::Role => print_pieces(alloc, &[user, may_not, task, b": no role of theirs may"]),
        Refusal::Separate(index) => print_tie(
            alloc,
            user,
            task,
            b": it is for another user, by separate ",
            index,
        ),
        Refusal::Bind(index) => print_tie(
            alloc,
            user,
            task,
            b": it is for the user of the other task, by bind ",
            index,
        ),
        Refusal::Holder => print_pieces(alloc, &[task, b" is out to another user"]),
        Refusal::Broken => print_pieces(alloc, &[b"an earlier step could not be kept"]),
        Refusal::Disk => print_pieces(alloc, &[b"the step could not be kept"]),
        Refusal::Final { .. } => print_pieces(
            alloc,
            &[
                b"the step back would go over ",
                task,
                b", which is done for good",
            ],
        ),
        Refusal::Back => print_pieces(alloc, &[user, b" may not step back"]),
        Refusal::Close => print_pieces(alloc, &[user, b" may not end the run"]),
    }
}

/// Prints a number between words.
fn print_numbered<'x>(
    alloc: Global,
    before: &'x [u8],
    number: u32,
    behind: &'x [u8],
) -> Result<Vec<u8>, AllocError>
    ensures { IfOk result (λ text. text.items ≡ joined (before.now ∷ decimal number ∷ behind.now ∷ [])) }
{
    let mut digits = Buffer::new();
    print_pieces(alloc, &[before, digits.format(number).as_bytes(), behind])
}

/// Prints words behind the task, and a number behind these.
fn print_behind<'x>(
    alloc: Global,
    task: &'x [u8],
    words: &'x [u8],
    number: u32,
) -> Result<Vec<u8>, AllocError>
    ensures { IfOk result (λ text. text.items ≡ joined (task.now ∷ words.now ∷ decimal number ∷ [])) }
{
    let mut digits = Buffer::new();
    print_pieces(alloc, &[task, words, digits.format(number).as_bytes()])
}

/// Prints that a user may not take the task by a duty of that number.
fn print_tie<'x>(
    alloc: Global,
    user: &'x [u8],
    task: &'x [u8],
    duty: &'x [u8],
    number: u32,
) -> Result<Vec<u8>, AllocError>
    ensures { IfOk result (λ text.
        text.items ≡ joined (user.now ∷ codes " may not take " ∷ task.now ∷ duty.now ∷ decimal number ∷ [])) }
{
    let mut digits = Buffer::new();
    let number = digits.format(number).as_bytes();
    print_pieces(alloc, &[user, b" may not take ", task, duty, number])
}

/// Prints that the result of the task came too late.
fn print_late(alloc: Global, task: &[u8], of: u32, now: u32) -> Result<Vec<u8>, AllocError>
    ensures { IfOk result (λ text. text.items ≡ joined (late_pieces task.now of now)) }
{
    let late = print_behind(alloc, task, b" came too late: its claim is of epoch ", of)?;
    let now = print_numbered(alloc, b", and it is epoch ", now, b" now")?;
    print_pieces(alloc, &[&late, &now])
}

/// The one word of a refusal, as `flow duty` has it, or that of a rule of the case.
pub fn refusal_word(refusal: Refusal) -> &'static str
    ensures { result.now ≡ word_of refusal }
{
    match refusal {
        Refusal::Closed => "closed",
        Refusal::NoLeaf => "leaf",
        Refusal::WrongKind => "kind",
        Refusal::NotEnabled => "not-enabled",
        Refusal::TestFalse => "false",
        Refusal::NoClaim => "claim",
        Refusal::Answered => "answered",
        Refusal::Late { .. } => "late",
        Refusal::NoChoice => "no-choice",
        Refusal::Unfinished => "unfinished",
        Refusal::ClaimsOut { .. } => "claims-out",
        Refusal::Spent { .. } => "spent",
        Refusal::Role => "role",
        Refusal::Separate(_) => "separate",
        Refusal::Bind(_) => "bind",
        Refusal::Holder => "holder",
        Refusal::Broken => "broken",
        Refusal::Disk => "disk",
        Refusal::Final { .. } => "final",
        Refusal::Back => "back",
        Refusal::Close => "close",
    }
}
