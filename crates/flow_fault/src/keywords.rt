ghost use Rattle.std.specs.Prelude.{◌≡◌};
ghost use Rattle.std.specs.List.{list_any};
ghost use Rattle.flow_fault.specs.Near.{is_near};
ghost use Rattle.flow_fault.specs.Keywords.{is_keyword_near};

use crate::near::is_near;
use flow_form::Wanted;

/// Whether one of the words is near that one.
fn is_one_near(word: &[u8], words: &[&str]) -> bool
    ensures { result ≡ list_any (λ k. is_near word.now k.now) words.now }
{
    words.iter().any(|other| is_near(word, other.as_bytes()))
}

/// Whether the word is near a reserved word with which something goes on where that is wanted.
pub(crate) fn is_keyword_near(wanted: Wanted, word: &[u8]) -> bool
    ensures { result ≡ is_keyword_near wanted word.now }
{
    match wanted {
        Wanted::Declaration => is_one_near(word, &["fact", "event", "flow", "goal"]),
        Wanted::Constraint => is_one_near(word, &["constraint"]),
        Wanted::Rule => is_one_near(
            word,
            &["must", "never", "order", "precedes", "needs", "not"],
        ),
        Wanted::Semicolon => is_one_near(word, &["done", "fail", "and", "or"]),
        _ => false,
    }
}
