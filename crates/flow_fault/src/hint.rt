ghost use Rattle.std.specs.Prelude.{◌≡◌};
ghost use Rattle.flow_reader.specs.Symbols.{is};
ghost use Rattle.flow_fault.specs.Hints;

use crate::met::Met;
use flow_form::Wanted;

/// What may help, at a place where a text goes wrong.
#[derive(Clone, Copy, Debug, PartialEq, Eq)]
pub enum Hint {
    /// The text begins with a byte-order mark.
    ByteOrderMark,
    /// The text is UTF-16.
    Utf16,
    /// Only ASCII may stand in a text, in comments too.
    OnlyAscii,
    /// A line `%%` has nothing else on it.
    DividerAlone,
    /// Names have letters, digits and `_`, and begin with a letter.
    NameBytes,
    /// One after another is `*`.
    Arrow,
    /// Names stand without quotes.
    Quotes,
    /// Comments begin with `#`.
    Comment,
    /// Goals are joined by `|`, constraints by `and`.
    Ampersand,
    /// Groups stand in `(` and `)`.
    Brackets,
    /// The number is over the greatest.
    GreatNumber,
    /// The word is reserved.
    ReservedWord,
    /// A line `%%` is missing before it.
    DividerMissing,
    /// Another word was perhaps meant.
    Spelling,
    /// There is no goal.
    NoGoal,
    /// There is a goal already.
    SecondGoal,
    /// The goal stands before the constraints.
    GoalFirst,
    /// Declarations stand before the goal.
    DeclarationsFirst,
    /// No comma stands between events of a goal or a constraint.
    Comma,
    /// The mark stands once.
    MarkOnce,
    /// The words with which constraints begin.
    RuleWords,
    /// The line before it has no semicolon at its end.
    SemicolonMissing,
    /// What joins declarations, goals and constraints.
    Joined,
    /// A query begins with `holds` or `redundant`.
    QueryWords,
    /// There is one query.
    OneQuery,
}

/// The hint where a byte is no ASCII.
pub(crate) fn byte_hint(text: &[u8], place: usize) -> Hint
    ensures { result ≡ Hints.byte_hint text.now place }
{
    if place == 0 && text.starts_with(b"\xEF\xBB\xBF") {
        Hint::ByteOrderMark
    } else if place == 0 && (text.starts_with(b"\xFF\xFE") || text.starts_with(b"\xFE\xFF")) {
        Hint::Utf16
    } else {
        Hint::OnlyAscii
    }
}

/// The hint where no token begins: by the byte there, and the one behind it.
pub(crate) fn token_hint(byte: u8, next: u8) -> Option<Hint>
    ensures { result ≡ Hints.token_hint byte next }
{
    match byte {
        0 => Some(Hint::Utf16),
        b'%' => Some(Hint::DividerAlone),
        b'-' if next == b'>' => Some(Hint::Arrow),
        b'-' | b'_' | b'.' => Some(Hint::NameBytes),
        b'<' | b'>' => Some(Hint::Arrow),
        b'"' | b'\'' | b'`' => Some(Hint::Quotes),
        b'/' => Some(Hint::Comment),
        b'&' => Some(Hint::Ampersand),
        b'{' | b'}' | b'[' | b']' => Some(Hint::Brackets),
        b'0'..=b'9' => Some(Hint::GreatNumber),
        _ => None,
    }
}

/// Whether the word stands in sessions, journals, queries or policies, and not in a workflow.
fn is_of_second_part(word: &[u8]) -> bool
    ensures { result ≡ Hints.is_of_second_part word.now }
{
    is(word, "take")
        || is(word, "do")
        || is(word, "done")
        || is(word, "fail")
        || is(word, "rewind")
        || is(word, "commit")
        || is(word, "next")
        || is(word, "enabled")
        || is(word, "journal")
        || is(word, "facts")
        || is(word, "history")
        || is(word, "holds")
        || is(word, "redundant")
        || is(word, "role")
        || is(word, "allow")
        || is(word, "separate")
        || is(word, "bound")
        || is(word, "as")
}

/// Whether the word is spelled so.
fn is(word: &[u8], text: &str) -> bool
    ensures { result ≡ is word.now text.now }
{
    word == text.as_bytes()
}

/// The hint where a declaration or the goal is wanted.
fn declaration_hint(met: Met<'_>, spelled: bool) -> Option<Hint>
    ensures { result ≡ Hints.declaration_hint met.entry spelled }
{
    match met {
        Met::End => Some(Hint::NoGoal),
        Met::Name(_) if spelled => Some(Hint::Spelling),
        Met::Reserved(word) if is(word, "constraint") => Some(Hint::GoalFirst),
        _ => None,
    }
}

/// The hint where a constraint or the end is wanted.
fn constraint_hint(met: Met<'_>, spelled: bool) -> Option<Hint>
    ensures { result ≡ Hints.constraint_hint met.entry spelled }
{
    match met {
        Met::Number(_) => Some(Hint::DividerMissing),
        Met::Name(word) if is_of_second_part(word) => Some(Hint::DividerMissing),
        Met::Reserved(word) if is_of_second_part(word) => Some(Hint::DividerMissing),
        Met::Name(_) if spelled => Some(Hint::Spelling),
        Met::Reserved(word) if is(word, "goal") => Some(Hint::SecondGoal),
        Met::Reserved(word) if is(word, "event") || is(word, "fact") || is(word, "flow") => {
            Some(Hint::DeclarationsFirst)
        }
        _ => None,
    }
}

/// The hint where a name or a constant is wanted.
fn name_hint(met: Met<'_>) -> Option<Hint>
    ensures { result ≡ Hints.name_hint met.entry }
{
    match met {
        Met::Reserved(_) => Some(Hint::ReservedWord),
        Met::Mark(b',') => Some(Hint::Comma),
        _ => None,
    }
}

/// The hint where a goal is wanted.
fn atom_hint(met: Met<'_>) -> Option<Hint>
    ensures { result ≡ Hints.atom_hint met.entry }
{
    match met {
        Met::Reserved(_) => Some(Hint::ReservedWord),
        Met::Mark(b'*' | b'|' | b'+') => Some(Hint::MarkOnce),
        _ => None,
    }
}

/// The hint where something ends or goes on.
fn end_hint(met: Met<'_>, first: bool, spelled: bool) -> Option<Hint>
    ensures { result ≡ Hints.end_hint met.entry first spelled }
{
    match met {
        Met::Mark(b',') => Some(Hint::Comma),
        Met::Name(_) if spelled => Some(Hint::Spelling),
        Met::End => Some(Hint::SemicolonMissing),
        _ if first => Some(Hint::SemicolonMissing),
        _ => Some(Hint::Joined),
    }
}

/// The hint where that is wanted and this is met, which is the first on its line or not. Whether a word that is wanted
/// is spelled nearly as the one that is met is told, too.
pub(crate) fn wanted_hint(wanted: Wanted, met: Met<'_>, first: bool, spelled: bool) -> Option<Hint>
    ensures { result ≡ Hints.wanted_hint wanted met.entry first spelled }
{
    match wanted {
        Wanted::Declaration => declaration_hint(met, spelled),
        Wanted::Constraint => constraint_hint(met, spelled),
        Wanted::Name | Wanted::Fact | Wanted::Constant => name_hint(met),
        Wanted::Atom => atom_hint(met),
        Wanted::Rule => Some(if spelled {
            Hint::Spelling
        } else {
            Hint::RuleWords
        }),
        Wanted::Semicolon => end_hint(met, first, spelled),
        Wanted::Query => Some(Hint::QueryWords),
        Wanted::End => Some(Hint::OneQuery),
        Wanted::Opening | Wanted::Closing | Wanted::Equals | Wanted::Number => None,
    }
}
