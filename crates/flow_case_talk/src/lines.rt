ghost use Rattle.std.specs.Prelude.{◌≡◌, false, IfOk};
ghost use Rattle.flow_case_talk.specs.Lines.{AreLines};

use std::alloc::AllocError;

/// Whether a line of the text does not end.
fn is_cut(text: &[u8]) -> bool
    ensures { result ≡ false → AreLines text.now }
{
    match text.split_last() {
        Some((last, _)) => *last != b'\n',
        None => false,
    }
}

/// The text, with a line feed behind its last line, where none stands there.
pub(crate) fn whole_lines(text: Vec<u8>) -> Result<Vec<u8>, AllocError>
    ensures { IfOk result (λ lines. AreLines lines.items) }
{
    let mut text = text;
    if is_cut(&text) {
        text.push(b'\n')?;
    }
    Ok(text)
}
