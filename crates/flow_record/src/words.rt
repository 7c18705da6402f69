ghost use Rattle.std.specs.Prelude.{◌≡◌, not};
ghost use Rattle.std.specs.List.{position};
ghost use Rattle.flow_record.specs.Words.{is_blank, words_of, with_word};

/// The first word of a line, and what stands after it. The word is empty where the line has none.
pub fn split_word(line: &[u8]) -> (&[u8], &[u8])
    ensures { words_of line.now ≡ with_word result.0.now (words_of result.1.now) }
{
    let words = &line[place_of_word(line).unwrap_or(line.len())..];
    words.split_at(place_of_blank(words).unwrap_or(words.len()))
}

/// The place of the first byte of a word.
fn place_of_word(line: &[u8]) -> Option<usize>
    ensures { result ≡ position (λ byte. not (is_blank byte)) line.now }
{
    line.iter().position(|byte| !is_blank(*byte))
}

/// The place of the first blank.
fn place_of_blank(line: &[u8]) -> Option<usize>
    ensures { result ≡ position is_blank line.now }
{
    line.iter().position(|byte| is_blank(*byte))
}

/// Whether the byte stands between words.
fn is_blank(byte: u8) -> bool
    ensures { result ≡ is_blank byte }
{
    byte == b' ' || byte == b'\t'
}
