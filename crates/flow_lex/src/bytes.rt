ghost use Rattle.std.specs.Prelude.{◌≡◌, ◌≤◌, length};
ghost use Rattle.std.specs.List.{prefix_len};
ghost use Rattle.flow_lex.specs.Bytes;
ghost use Rattle.flow_lex.specs.Bytes.{is_space, is_letter, is_digit, is_in_word, is_in_line, is_mark};

pub(crate) fn is_space(byte: u8) -> bool
    ensures { result ≡ is_space byte }
{
    byte == b' ' || byte == b'\n' || byte == b'\t' || byte == b'\r'
}

pub(crate) fn is_letter(byte: u8) -> bool
    ensures { result ≡ is_letter byte }
{
    (b'a' <= byte && byte <= b'z') || (b'A' <= byte && byte <= b'Z')
}

pub(crate) fn is_digit(byte: u8) -> bool
    ensures { result ≡ is_digit byte }
{
    b'0' <= byte && byte <= b'9'
}

pub(crate) fn is_in_word(byte: u8) -> bool
    ensures { result ≡ is_in_word byte }
{
    is_letter(byte) || is_digit(byte) || byte == b'_'
}

fn is_bracket_or_end(byte: u8) -> bool
    ensures { result ≡ Bytes.is_bracket_or_end byte }
{
    byte == b'(' || byte == b')' || byte == b',' || byte == b';'
}

pub(crate) fn is_mark(byte: u8) -> bool
    ensures { result ≡ is_mark byte }
{
    is_bracket_or_end(byte)
        || byte == b'*'
        || byte == b'|'
        || byte == b'+'
        || byte == b'='
        || byte == b'?'
        || byte == b'!'
}

/// How many bytes of a word begin the text.
pub(crate) fn word_length(text: &[u8]) -> usize
    ensures value { result ≡ prefix_len is_in_word text.now }
    ensures within { result ≤ length text.now }
{
    text.iter().take_while(|byte| is_in_word(**byte)).count()
}

pub(crate) fn number_length(text: &[u8]) -> usize
    ensures value { result ≡ prefix_len is_digit text.now }
    ensures within { result ≤ length text.now }
{
    text.iter().take_while(|byte| is_digit(**byte)).count()
}

pub(crate) fn line_length(text: &[u8]) -> usize
    ensures value { result ≡ prefix_len is_in_line text.now }
    ensures within { result ≤ length text.now }
{
    text.iter().take_while(|byte| **byte != b'\n').count()
}
