ghost use Rattle.std.specs.Prelude.{◌≡◌};
ghost use Rattle.flow_why_cli.specs.Members.{hint_word};

use flow_fault::Hint;
use flow_form::Wanted;

/// What could stand where a text goes wrong.
pub(crate) fn wanted_words(wanted: Wanted) -> &'static str {
    match wanted {
        Wanted::Declaration => "fact, event, flow or goal",
        Wanted::Constraint => "constraint, or the end of the text",
        Wanted::Name => "the name of an event, or behind flow that of a sub-workflow",
        Wanted::Fact => "the name of a fact",
        Wanted::Constant => "a name or a number, as an argument of the fact",
        Wanted::Atom => {
            "a part of a goal: an event, a sub-workflow, nop, ?fact, !fact, ins fact, del fact, iso(..) or (..)"
        }
        Wanted::Rule => "a constraint: must, never, order, precedes, needs, not or (..)",
        Wanted::Opening => "(",
        Wanted::Closing => ") or what goes on inside the parentheses",
        Wanted::Equals => "=",
        Wanted::Semicolon => "; or what goes on",
        Wanted::Query => "holds or redundant",
        Wanted::Number => "a number",
        Wanted::End => "the end of the query",
    }
}

/// The word of a hint in JSON.
pub(crate) fn hint_word(hint: Hint) -> &'static str
    ensures { result.now ≡ hint_word hint }
{
    match hint {
        Hint::ByteOrderMark => "byte_order_mark",
        Hint::Utf16 => "utf16",
        Hint::OnlyAscii => "only_ascii",
        Hint::DividerAlone => "divider_alone",
        Hint::NameBytes => "name_bytes",
        Hint::Arrow => "arrow",
        Hint::Quotes => "quotes",
        Hint::Comment => "comment",
        Hint::Ampersand => "ampersand",
        Hint::Brackets => "brackets",
        Hint::GreatNumber => "great_number",
        Hint::ReservedWord => "reserved",
        Hint::DividerMissing => "divider_missing",
        Hint::Spelling => "spelling",
        Hint::NoGoal => "no_goal",
        Hint::SecondGoal => "second_goal",
        Hint::GoalFirst => "goal_first",
        Hint::DeclarationsFirst => "declarations_first",
        Hint::Comma => "comma",
        Hint::MarkOnce => "mark_once",
        Hint::RuleWords => "rule_words",
        Hint::SemicolonMissing => "semicolon_missing",
        Hint::Joined => "joined",
        Hint::QueryWords => "query_words",
        Hint::OneQuery => "one_query",
    }
}

/// A hint about bytes of which no token is made.
fn byte_words(hint: Hint) -> &'static str {
    match hint {
        Hint::ByteOrderMark => "the file begins with a byte-order mark: save it as plain ASCII",
        Hint::Utf16 => "the file is UTF-16: save it as plain ASCII",
        Hint::OnlyAscii => "only ASCII may stand in a text, in comments too",
        Hint::DividerAlone => {
            "a line %% has nothing else on it, no blank either, and the line before it ends with a line feed"
        }
        Hint::NameBytes => "names have letters, digits and _, and begin with a letter: send_mail",
        Hint::Arrow => "one after another is *: a * b",
        Hint::Quotes => "names stand without quotes",
        Hint::Comment => "comments begin with #",
        Hint::Ampersand => "goals beside one another are joined by |, constraints by and",
        Hint::Brackets => "groups stand in ( and )",
        _ => "the greatest number is 4294967295",
    }
}

/// A hint about the order of the parts of a text.
fn part_words(hint: Hint) -> &'static str {
    match hint {
        Hint::DividerMissing => { "this is no part of a workflow: is a line %% missing before it?" }
        Hint::NoGoal => "the goal is missing: after the declarations stands goal ..;",
        Hint::SecondGoal => "there is one goal: is this one a sub-workflow, flow NAME = ..;?",
        Hint::GoalFirst => "the goal stands before the constraints",
        Hint::DeclarationsFirst => "declarations stand before the goal",
        Hint::QueryWords => "a query is holds CONSTRAINT; or redundant NUMBER;",
        _ => "one call asks one query",
    }
}

/// A hint in words.
pub(crate) fn hint_words(hint: Hint) -> &'static str {
    match hint {
        Hint::ReservedWord => {
            "this word is reserved, take another name; reserved are: fact event flow goal constraint nop iso ins del must never order precedes needs not and or done fail holds redundant"
        }
        Hint::Spelling => "is the word misspelt? see what could stand here",
        Hint::Comma => {
            "no comma stands here: events of a constraint are separated by blanks, parts of a goal by *, | or +"
        }
        Hint::MarkOnce => "the mark stands once, between two parts of a goal: a | b",
        Hint::RuleWords => {
            "constraints are: must a, never a, order a b, precedes a b, needs a b, not (..), .. and .., .. or .."
        }
        Hint::SemicolonMissing => "is a ; missing at the end of the line before?",
        Hint::Joined => {
            "before this stands a ;, or what joins: a comma between declared events and facts, *, | or + in goals, and or or between constraints"
        }
        Hint::DividerMissing
        | Hint::NoGoal
        | Hint::SecondGoal
        | Hint::GoalFirst
        | Hint::DeclarationsFirst
        | Hint::QueryWords
        | Hint::OneQuery => part_words(hint),
        _ => byte_words(hint),
    }
}
