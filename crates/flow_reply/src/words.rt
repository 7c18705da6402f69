ghost use Rattle.std.specs.Prelude.{◌≡◌, ◌++◌, IfOk};
ghost use Rattle.std.specs.Fmt.{decimal};
ghost use Rattle.std.specs.String.{string_bytes};
ghost use Rattle.flow_reply.specs.Words.{numbers_text};

use flow_record::push_numbers;
use std::alloc::{AllocError, Global};

/// Prints a word.
pub(crate) fn print_word(alloc: Global, word: &str) -> Result<String, AllocError>
    ensures { IfOk result (λ text. string_bytes text ≡ word.now) }
{
    format!(in alloc; "{word}")
}

/// Prints a word, and the number behind it.
pub(crate) fn print_number(alloc: Global, word: &str, number: u32) -> Result<String, AllocError>
    ensures { IfOk result (λ text. string_bytes text ≡ word.now ++ decimal number) }
{
    format!(in alloc; "{word}{number}")
}

/// Prints a word, and the numbers after it.
pub(crate) fn print_numbers(
    alloc: Global,
    word: &str,
    numbers: &[u32],
) -> Result<String, AllocError>
    ensures { IfOk result (λ text. string_bytes text ≡ numbers_text word.now numbers.now) }
{
    let mut text = format!(in alloc; "{word}")?;
    push_numbers(&mut text, numbers)?;
    Ok(text)
}

/// The text with further bytes.
pub(crate) fn with_bytes(text: Vec<u8>, more: &[u8]) -> Result<Vec<u8>, AllocError>
    ensures { IfOk result (λ longer. longer.items ≡ text.items ++ more.now) }
{
    let mut text = text;
    text.extend_from_slice(more)?;
    Ok(text)
}
