ghost use Rattle.std.specs.Prelude.{◌≡◌, ◌∷◌, ◌++◌, [], OnOk};
ghost use Rattle.std.specs.Fmt.{decimal};
ghost use Rattle.flow_writer.specs.Text.{between_text, shown, shown_byte};

use itoa::Buffer;
use std::alloc::{AllocError, Global};

/// What writes a text, a piece at a time. Each call adds its piece behind the text that is there. Where there is no memory for that, part
/// of the piece may stand there.
#[derive(Drop)]
pub struct Writer {
    /// What is written so far.
    pub text: Vec<u8>,
}

impl Writer {
    /// Nothing is written yet.
    pub fn new(alloc: Global) -> Writer
        ensures { result.text.items ≡ [] }
    {
        Writer {
            text: Vec::new(alloc),
        }
    }

    /// Adds bytes.
    pub fn bytes(&mut self, bytes: &[u8]) -> Result<(), AllocError>
        ensures { OnOk result (self.new.text.items ≡ self.old.text.items ++ bytes.now) }
    {
        self.text.extend_from_slice(bytes)
    }

    /// Adds words.
    pub fn words(&mut self, words: &str) -> Result<(), AllocError>
        ensures { OnOk result (self.new.text.items ≡ self.old.text.items ++ words.now) }
    {
        self.bytes(words.as_bytes())
    }

    /// Adds a number, in decimal digits.
    pub fn number(&mut self, number: u64) -> Result<(), AllocError>
        ensures { OnOk result (self.new.text.items ≡ self.old.text.items ++ decimal number) }
    {
        let mut digits = Buffer::new();
        self.words(digits.format(number))
    }

    /// Adds bytes so that each is shown in one column of ASCII: a tab as a blank, and what cannot be shown as `?`.
    pub fn shown(&mut self, bytes: &[u8]) -> Result<(), AllocError>
        ensures { OnOk result (self.new.text.items ≡ self.old.text.items ++ shown bytes.now) }
    {
        for byte in bytes {
            self.shown_byte(*byte)?;
        }
        Ok(())
    }

    fn shown_byte(&mut self, byte: u8) -> Result<(), AllocError>
        ensures { OnOk result (self.new.text.items ≡ self.old.text.items ++ shown_byte byte ∷ []) }
    {
        let shown = match byte {
            b'\t' => b' ',
            b' '..=b'~' => byte,
            _ => b'?',
        };
        self.bytes(&[shown])
    }

    /// Adds what stands between two things: nothing before the first.
    pub fn between(&mut self, index: usize, words: &str) -> Result<(), AllocError>
        ensures { OnOk result (self.new.text.items ≡ self.old.text.items ++ between_text index words.now) }
    {
        if index == 0 {
            Ok(())
        } else {
            self.words(words)
        }
    }
}
