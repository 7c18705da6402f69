ghost use Rattle.std.specs.Prelude.{◌≡◌, ◌++◌, ◌<◌, OnOk};
ghost use Rattle.std.specs.List.{flat_map};
ghost use Rattle.flow_writer.specs.Json.{by_number, digit, quoted, quoted_text, spelled, spelled_in_text};

use crate::writer::Writer;
use std::alloc::AllocError;

/// The digit of that value, of sixteen.
fn digit(value: u8) -> u8
    requires { value < 16 }
    ensures { result ≡ digit value }
{
    if value < 10 {
        b'0' + value
    } else {
        b'a' + (value - 10)
    }
}

impl Writer {
    /// Adds any bytes as a string of JSON: what is not printable ASCII goes by its number.
    pub fn quoted(&mut self, bytes: &[u8]) -> Result<(), AllocError>
        ensures { OnOk result (self.new.text.items ≡ self.old.text.items ++ quoted bytes.now) }
    {
        self.words("\"")?;
        self.all_spelled(bytes)?;
        self.words("\"")
    }

    fn all_spelled(&mut self, bytes: &[u8]) -> Result<(), AllocError>
        ensures { OnOk result (self.new.text.items ≡ self.old.text.items ++ flat_map spelled bytes.now) }
    {
        for byte in bytes {
            self.spelled(*byte)?;
        }
        Ok(())
    }

    /// Adds a byte of any bytes inside a string of JSON.
    fn spelled(&mut self, byte: u8) -> Result<(), AllocError>
        ensures { OnOk result (self.new.text.items ≡ self.old.text.items ++ spelled byte) }
    {
        if byte < 127 {
            self.spelled_in_text(byte)
        } else {
            self.by_number(byte)
        }
    }

    /// Adds a text in UTF-8 as a string of JSON: control characters go by their numbers, and all that is not ASCII stands as it is.
    pub fn quoted_text(&mut self, text: &[u8]) -> Result<(), AllocError>
        ensures { OnOk result (self.new.text.items ≡ self.old.text.items ++ quoted_text text.now) }
    {
        self.words("\"")?;
        self.all_spelled_in_text(text)?;
        self.words("\"")
    }

    fn all_spelled_in_text(&mut self, text: &[u8]) -> Result<(), AllocError>
        ensures { OnOk result (self.new.text.items ≡ self.old.text.items ++ flat_map spelled_in_text text.now) }
    {
        for byte in text {
            self.spelled_in_text(*byte)?;
        }
        Ok(())
    }

    /// Adds a byte of a text in UTF-8 inside a string of JSON.
    fn spelled_in_text(&mut self, byte: u8) -> Result<(), AllocError>
        ensures { OnOk result (self.new.text.items ≡ self.old.text.items ++ spelled_in_text byte) }
    {
        if byte < 32 {
            self.by_number(byte)
        } else if byte == b'"' || byte == b'\\' {
            self.bytes(&[b'\\', byte])
        } else {
            self.bytes(&[byte])
        }
    }

    /// Adds a byte by its number.
    fn by_number(&mut self, byte: u8) -> Result<(), AllocError>
        ensures { OnOk result (self.new.text.items ≡ self.old.text.items ++ by_number byte) }
    {
        self.words("\\u00")?;
        self.bytes(&[digit(byte / 16), digit(byte % 16)])
    }
}
