ghost use Rattle.std.specs.Prelude.{◌≡◌, ◌<◌, [], length, IfOk, OnOk, IfSome, IfNone, Contains};
ghost use Rattle.flow_log_cli.specs.Noted.{HasNumber, IsNoted};

use flow_event_log::Names;
use std::alloc::{AllocError, Global};

/// Names with a number each. Of several numbers for one name the first counts.
#[derive(Drop)]
pub(crate) struct FirstNumbers {
    names: Names,
    numbers: Vec<u32>,
}

impl FirstNumbers {
    /// No name has a number, and there are so many buckets for names.
    pub(crate) fn new(alloc: Global, buckets: usize) -> Result<FirstNumbers, AllocError>
        requires { 0 < buckets }
        ensures names { IfOk result (λ table. table.names ≡ []) }
        ensures numbers { IfOk result (λ table. table.numbers.items ≡ []) }
    {
        Ok(FirstNumbers {
            names: Names::new(alloc, buckets)?,
            numbers: Vec::new(alloc),
        })
    }

    /// The number of a name, if it has one.
    pub(crate) fn get(&self, name: &[u8]) -> Option<u32>
        ensures found { IfSome result (HasNumber self.now.names self.now.numbers.items name.now) }
        ensures absent { length self.now.numbers.items ≡ length self.now.names → IfNone result (¬ Contains self.now.names name.now) }
    {
        match self.names.find(name) {
            Some(place) => self.numbers.get(place as usize).copied(),
            None => None,
        }
    }

    /// Gives a name that has none this number.
    pub(crate) fn note(&mut self, name: &[u8], number: u32) -> Result<(), AllocError>
        ensures { OnOk result (IsNoted self.old.names self.old.numbers.items name.now number self.new.names self.new.numbers.items) }
    {
        if self.names.find(name).is_some() {
            return Ok(());
        }
        let _place = self.names.number_of(name)?;
        self.numbers.push(number)?;
        Ok(())
    }
}
