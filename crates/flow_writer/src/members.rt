ghost use Rattle.std.specs.Prelude.{◌≡◌, ◌++◌, OnOk};
ghost use Rattle.std.specs.List.{flat_map};
ghost use Rattle.flow_writer.specs.Json.{behind_comma, key_text, list_member, number_member, numbers_text, text_member, truth_member};

use crate::writer::Writer;
use std::alloc::AllocError;

impl Writer {
    /// Adds the key of a member of an object, which is not its first one. The key is to have printable ASCII alone, and no `"` and no `\`.
    pub fn key(&mut self, key: &str) -> Result<(), AllocError>
        ensures { OnOk result (self.new.text.items ≡ self.old.text.items ++ key_text key.now) }
    {
        self.words(",\"")?;
        self.words(key)?;
        self.words("\":")
    }

    /// Adds a member whose value is a string, of any bytes.
    pub fn text_member(&mut self, key: &str, value: &[u8]) -> Result<(), AllocError>
        ensures { OnOk result (self.new.text.items ≡ self.old.text.items ++ text_member key.now value.now) }
    {
        self.key(key)?;
        self.quoted(value)
    }

    /// Adds a member whose value is a number.
    pub fn number_member(&mut self, key: &str, value: u64) -> Result<(), AllocError>
        ensures { OnOk result (self.new.text.items ≡ self.old.text.items ++ number_member key.now value) }
    {
        self.key(key)?;
        self.number(value)
    }

    /// Adds a member whose value is true or false.
    pub fn truth_member(&mut self, key: &str, value: bool) -> Result<(), AllocError>
        ensures { OnOk result (self.new.text.items ≡ self.old.text.items ++ truth_member key.now value) }
    {
        self.key(key)?;
        self.words(if value { "true" } else { "false" })
    }

    /// Adds a member whose value is a list of numbers.
    pub fn list_member(&mut self, key: &str, numbers: &[u32]) -> Result<(), AllocError>
        ensures { OnOk result (self.new.text.items ≡ self.old.text.items ++ list_member key.now numbers.now) }
    {
        self.key(key)?;
        self.words("[")?;
        self.numbers(numbers)?;
        self.words("]")
    }

    /// Adds numbers with commas between them.
    pub fn numbers(&mut self, numbers: &[u32]) -> Result<(), AllocError>
        ensures { OnOk result (self.new.text.items ≡ self.old.text.items ++ numbers_text numbers.now) }
    {
        match numbers {
            [first, more @ ..] => {
                self.number(u64::from(*first))?;
                self.more_numbers(more)
            }
            [] => Ok(()),
        }
    }

    /// Adds numbers, each behind a comma.
    fn more_numbers(&mut self, numbers: &[u32]) -> Result<(), AllocError>
        ensures { OnOk result (self.new.text.items ≡ self.old.text.items ++ flat_map behind_comma numbers.now) }
    {
        for number in numbers {
            self.words(",")?;
            self.number(u64::from(*number))?;
        }
        Ok(())
    }
}
