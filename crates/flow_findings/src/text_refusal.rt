ghost use Rattle.std.specs.Prelude.{◌≡◌, ◌++◌, codes, IfOk};
ghost use Rattle.std.specs.Fmt.{decimal};
ghost use Rattle.flow_findings.specs.Refusing.{kind_text, text_refusal, policy_refusal, line_refusal, IsOfText, IsOfPolicy, IsOfLines};

use crate::refusal_line::print_numbered;
use flow_facts::Name;
use flow_form::{TextRefusal, Wanted};
use flow_policy::PolicyRefusal;
use flow_record::{RecordRefusal, print_pieces};
use itoa::Buffer;
use std::alloc::{AllocError, Global};

/// Prints the line that says why a text says nothing, after its head.
pub(crate) fn print_text_refusal(
    alloc: Global,
    head: &[u8],
    refusal: &TextRefusal,
) -> Result<Vec<u8>, AllocError>
    requires { IsOfText refusal.now }
    ensures { IfOk result (λ line. line.items ≡ head.now ++ text_refusal refusal.now ++ codes "\n") }
{
    let reason = print_reason(alloc, refusal)?;
    print_pieces(alloc, &[head, &reason, b"\n"])
}

/// Prints the line that says why a text is no policy of the workflow.
pub(crate) fn print_policy_refusal(
    alloc: Global,
    refusal: &PolicyRefusal,
) -> Result<Vec<u8>, AllocError>
    requires { IsOfPolicy refusal.now }
    ensures { IfOk result (λ line. line.items ≡ codes "refused: " ++ policy_refusal refusal.now ++ codes "\n") }
{
    match refusal {
        PolicyRefusal::NotAscii { place } => print_numbered(alloc, "policy byte", *place as u64),
        PolicyRefusal::BadToken { place } => print_numbered(alloc, "policy token", *place as u64),
        PolicyRefusal::Expected { place } => print_numbered(
            alloc,
            "policy expected",
            *place as u64,
        ),
        PolicyRefusal::Unknown { place } => print_numbered(alloc, "policy unknown", *place as u64),
        PolicyRefusal::NoMemory => unreachable!(),
    }
}

/// Prints the line that says which line of a session or a journal is refused.
pub(crate) fn print_line_refusal(
    alloc: Global,
    refusal: &RecordRefusal,
) -> Result<Vec<u8>, AllocError>
    requires { IsOfLines refusal.now }
    ensures { IfOk result (λ line. line.items ≡ codes "refused: " ++ line_refusal refusal.now ++ codes "\n") }
{
    match refusal {
        RecordRefusal::BadLine { line } => print_numbered(alloc, "line", u64::from(*line)),
        RecordRefusal::Label { line } => print_numbered(alloc, "label", u64::from(*line)),
        RecordRefusal::NoMemory => unreachable!(),
    }
}

/// Prints why a text says nothing.
fn print_reason(alloc: Global, refusal: &TextRefusal) -> Result<Vec<u8>, AllocError>
    requires { IsOfText refusal.now }
    ensures { IfOk result (λ text. text.items ≡ text_refusal refusal.now) }
{
    match refusal {
        TextRefusal::NotAscii { place } => print_placed(alloc, "byte", *place),
        TextRefusal::BadToken { place } => print_placed(alloc, "token", *place),
        TextRefusal::Expected { place, kind } => print_expected(alloc, *kind, *place),
        TextRefusal::Unknown { place, name } => print_named(alloc, "unknown", name, *place),
        TextRefusal::Repeated { place, name } => print_named(alloc, "repeated", name, *place),
        TextRefusal::TooDeep { place } => print_placed(alloc, "deep", *place),
        TextRefusal::NoMemory => unreachable!(),
    }
}

/// Prints what is wrong at a place.
fn print_placed(alloc: Global, word: &str, place: usize) -> Result<Vec<u8>, AllocError>
    ensures { IfOk result (λ text. text.items ≡ word.now ++ codes " " ++ decimal place) }
{
    let mut digits = Buffer::new();
    print_pieces(
        alloc,
        &[word.as_bytes(), b" ", digits.format(place).as_bytes()],
    )
}

/// Prints what was expected at a place.
fn print_expected(alloc: Global, kind: Wanted, place: usize) -> Result<Vec<u8>, AllocError>
    ensures { IfOk result (λ text. text.items ≡ codes "expected " ++ kind_text kind ++ codes " " ++ decimal place) }
{
    let mut digits = Buffer::new();
    let place = digits.format(place);
    print_pieces(
        alloc,
        &[
            b"expected ",
            kind_text(kind).as_bytes(),
            b" ",
            place.as_bytes(),
        ],
    )
}

/// Prints what is wrong with the name at a place.
fn print_named(alloc: Global, word: &str, name: &Name, place: usize) -> Result<Vec<u8>, AllocError>
    ensures { IfOk result (λ text. text.items ≡ word.now ++ codes " " ++ name.now ++ codes " " ++ decimal place) }
{
    let mut digits = Buffer::new();
    let place = digits.format(place);
    print_pieces(
        alloc,
        &[word.as_bytes(), b" ", name.bytes(), b" ", place.as_bytes()],
    )
}

/// What a text needs, in words.
fn kind_text(kind: Wanted) -> &'static str
    ensures { result.now ≡ kind_text kind }
{
    match kind {
        Wanted::Declaration => "declaration",
        Wanted::Constraint => "constraint",
        Wanted::Name => "name",
        Wanted::Fact => "fact",
        Wanted::Constant => "constant",
        Wanted::Atom => "atom",
        Wanted::Rule => "rule",
        Wanted::Opening => "(",
        Wanted::Closing => ")",
        Wanted::Equals => "=",
        Wanted::Semicolon => ";",
        Wanted::Query => "query",
        Wanted::Number => "number",
        Wanted::End => "end",
    }
}
