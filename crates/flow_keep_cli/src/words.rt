ghost use Rattle.std.specs.Prelude.{◌≡◌, ◌↔◌, map, MatchOption, ℕ, IfSome, IsTrue};
ghost use Rattle.std.specs.String.{string_bytes};
ghost use Rattle.flow_keep_cli.specs.Words.{IsStepCount, IsSteps, IsHelp, IsCall, IsNoCall};

use flow_model::MOST_ENTRIES;

/// The greatest length of a history where the words do not give one.
const DEFAULT_STEPS: u32 = 65536;

/// What a call is for.
#[derive(Clone, Copy)]
pub(crate) struct Call<'a> {
    pub(crate) path: &'a str,
    /// The greatest length of the history.
    pub(crate) steps: u32,
}

/// Whether the words ask for help.
pub(crate) fn asks_for_help(words: &[String]) -> bool
    ensures { IsTrue result ↔ IsHelp (map (λ word. string_bytes word) words.now) }
{
    match words.get(1) {
        Some(word) => word.as_str() == "--help",
        None => false,
    }
}

/// What the words ask for, if they are a call.
pub(crate) fn call_of(words: &[String]) -> Option<Call<'_>>
    ensures call { MatchOption result (IsNoCall (map (λ word. string_bytes word) words.entry.now))
        (λ call. IsCall (map (λ word. string_bytes word) words.entry.now) call.path.now call.steps) }
    ensures within { IfSome result (λ call. IsStepCount call.steps) }
{
    match words {
        [_, path] => Some(Call {
            path,
            steps: DEFAULT_STEPS,
        }),
        [_, path, option, number] => {
            if option.as_str() != "--steps" {
                return None;
            }
            let steps = steps_of(number)?;
            Some(Call { path, steps })
        }
        _ => None,
    }
}

/// The number of steps that a word is, if it is one.
fn steps_of(word: &str) -> Option<u32>
    ensures { MatchOption result ((steps : ℕ) → ¬ (IsSteps word.now steps)) (IsSteps word.now) }
{
    if word.len() > 10 || word.starts_with('+') {
        return None;
    }
    let steps: u32 = word.parse().ok()?;
    if steps == 0 || steps > MOST_ENTRIES {
        return None;
    }
    Some(steps)
}
