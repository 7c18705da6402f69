ghost use Rattle.std.specs.Prelude.{◌≡◌, ◌++◌, OnOk};
ghost use Rattle.std.specs.Fmt.{decimal};
ghost use Rattle.flow_writer.specs.Text.{blanks, column_text, ordinal};

use crate::writer::Writer;
use itoa::Buffer;
use std::alloc::AllocError;

impl Writer {
    /// Adds so many blanks.
    pub fn blanks(&mut self, count: usize) -> Result<(), AllocError>
        ensures { OnOk result (self.new.text.items ≡ self.old.text.items ++ blanks count) }
    {
        for _ in 0..count {
            self.words(" ")?;
        }
        Ok(())
    }

    /// Adds a text as a column of that width, and two blanks more. A longer text stands whole.
    pub fn column(&mut self, text: &[u8], width: usize) -> Result<(), AllocError>
        ensures { OnOk result (self.new.text.items ≡ self.old.text.items ++ column_text text.now width) }
    {
        self.bytes(text)?;
        self.blanks(width.saturating_sub(text.len()))?;
        self.words("  ")
    }

    /// Adds the number, from 1, of what stands at a place that is counted from 0.
    pub fn ordinal(&mut self, place: usize) -> Result<(), AllocError>
        ensures { OnOk result (self.new.text.items ≡ self.old.text.items ++ decimal (ordinal place)) }
    {
        self.number((place as u64).saturating_add(1))
    }

    /// Adds the same number as a column of that width.
    pub fn ordinal_column(&mut self, place: usize, width: usize) -> Result<(), AllocError>
        ensures { OnOk result (self.new.text.items ≡ self.old.text.items ++ column_text (decimal (ordinal place)) width) }
    {
        let mut digits = Buffer::new();
        let number = digits.format((place as u64).saturating_add(1));
        self.column(number.as_bytes(), width)
    }
}
