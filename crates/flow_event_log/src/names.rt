ghost use Rattle.std.specs.Prelude.{◌≡◌, ◌<◌};
ghost use Rattle.flow_event_log.specs.Buckets.{bucket_of};

use crate::names_key::NamesKey;
use std::alloc::{AllocError, Global};
use std::hash::{BuildHasher, Hasher};
use std::marker::Model;

/// A text, and the next older one in its bucket: its number plus one, or 0 where there is none.
#[derive(Drop)]
struct Entry {
    text: Vec<u8>,
    older: u32,
}

/// Texts that differ, numbered from 0 in the order in which they came. A clause sees their list.
#[derive(Drop)]
pub struct Names {
    entries: Vec<Entry>,
    /// Of each bucket the newest text in it: its number plus one, or 0 where there is none.
    newest: Vec<u32>,
    /// By this texts are put into buckets. Who does not know it cannot choose texts that fall together.
    key: NamesKey,
    /// Of each slot the text in it that was asked for last, as in `newest`. What is found here is compared with the text.
    recent: Vec<u32>,
}

impl Model for Names {
    ghost use Rattle.std.specs.Prelude.{List, ℕ, map, length};
    ghost use Rattle.flow_event_log.specs.Buckets.{IsLinked, bucket_of, text_of, older_of};

    ghost Value = { List (List ℕ) };

    ghost view = { λ n. map text_of n.entries.items };

    ghost invariant = { λ n. IsLinked (bucket_of n.key) (length n.newest.items) n.newest.items (map older_of n.entries.items) (map text_of n.entries.items) };
}

/// In which of so many buckets a text is.
#[tactic(auto, unfolding(crate::specs::Buckets::bucket_of))]
fn bucket(key: NamesKey, text: &[u8], buckets: usize) -> usize
    requires { 0 < buckets }
    ensures value { result ≡ bucket_of key buckets text.now }
    ensures bound { result < buckets }
{
    let mut hasher = key.build_hasher();
    hasher.write(text);
    (hasher.finish() % buckets as u64) as usize
}

/// How many slots there are for texts that were asked for of late.
const SLOTS: usize = 65_536;

/// The slot of a text: the low halves of its last four bytes, mixed with that of its length.
fn slot(text: &[u8]) -> usize {
    match text {
        [.., a, b, c, d] => {
            let high = (((*a as usize) ^ text.len()) & 15) * 16 + (*b as usize & 15);
            let low = (*c as usize & 15) * 16 + (*d as usize & 15);
            high * 256 + low
        }
        [.., last] => *last as usize,
        [] => 0,
    }
}

impl Names {
    ghost use Rattle.std.specs.Prelude.{◌≡◌, ◌<◌, ◌++◌, ◌∷◌, [], ◌↔◌, length, IsTrue, IfOk, OnOk, OnErr, IfSome, IfNone, Contains, option_map, slice_get};
    ghost use Rattle.flow_event_log.specs.Numbers.{IsNumberedIn};

    /// No names, with so many buckets: a search takes as long as there are names in a bucket.
    pub fn new(alloc: Global, buckets: usize) -> Result<Names, AllocError>
        requires { 0 < buckets }
        ensures { IfOk result (λ names. names ≡ []) }
    {
        Names::with_key(alloc, NamesKey::new(0, 0), buckets)
    }

    /// The same, for texts of strangers: these are not to know the key.
    pub fn with_key(alloc: Global, key: NamesKey, buckets: usize) -> Result<Names, AllocError>
        requires { 0 < buckets }
        ensures { IfOk result (λ names. names ≡ []) }
    {
        Ok(Names {
            entries: Vec::new(alloc),
            newest: Vec::from_elem(alloc, 0, buckets)?,
            key,
            recent: Vec::from_elem(alloc, 0, SLOTS)?,
        })
    }

    /// The key by which texts are hashed.
    pub(crate) fn key(&self) -> NamesKey {
        self.key
    }

    /// How many there are.
    pub fn len(&self) -> usize
        ensures { result ≡ length self.now }
    {
        self.entries.len()
    }

    /// Whether there is none.
    pub fn is_empty(&self) -> bool
        ensures { IsTrue result ↔ (self.now ≡ []) }
    {
        self.entries.is_empty()
    }

    /// The text of a number.
    pub fn get(&self, number: usize) -> Option<&[u8]>
        ensures { option_map (λ text. text.now) result ≡ slice_get self.now number }
    {
        match self.entries.get(number) {
            Some(entry) => Some(entry.text.as_slice()),
            None => None,
        }
    }

    /// Whether the text has that number.
    fn is_at(&self, number: u32, text: &[u8]) -> bool
        ensures { IsTrue result → slice_get self.now number ≡ Some text.now }
    {
        match self.get(number as usize) {
            Some(known) => known == text,
            None => false,
        }
    }

    /// The number of a text, if it is the one of its slot that was asked for last.
    pub(crate) fn recall(&self, text: &[u8]) -> Option<u32>
        ensures { IfSome result (λ number. slice_get self.now number ≡ Some text.now) }
    {
        let number = self.recent.get(slot(text))?.checked_sub(1)?;
        if self.is_at(number, text) {
            Some(number)
        } else {
            None
        }
    }

    /// The number of a text that came.
    pub fn find(&self, text: &[u8]) -> Option<u32>
        ensures found { IfSome result (λ number. slice_get self.now number ≡ Some text.now) }
        ensures absent { IfNone result (¬ Contains self.now text.now) }
    {
        match self.recall(text) {
            Some(number) => Some(number),
            None => self.search(text),
        }
    }

    /// The number of a text that came, by its bucket.
    fn search(&self, text: &[u8]) -> Option<u32>
        ensures found { IfSome result (λ number. slice_get self.now number ≡ Some text.now) }
        ensures absent { IfNone result (¬ Contains self.now text.now) }
    {
        let mut link = self.newest[bucket(self.key, text, self.newest.len())];
        while link != 0 {
            let number = link - 1;
            let entry = &self.entries[number as usize];
            if entry.text.as_slice() == text {
                return Some(number);
            }
            link = entry.older;
        }
        None
    }

    /// Keeps the number of a text that was asked for.
    fn keep(&mut self, text: &[u8], number: u32)
        ensures { self.new ≡ self.old }
    {
        if let Some(recent) = self.recent.get_mut(slot(text)) {
            *recent = number.saturating_add(1);
        }
    }

    /// The number of a text, which it is given now if it did not come before. An error is want of memory, and leaves the names as they were.
    pub fn number_of(&mut self, text: &[u8]) -> Result<u32, AllocError>
        ensures number { IfOk result (λ number. slice_get self.new number ≡ Some text.now) }
        ensures names { OnOk result (IsNumberedIn self.old text.now self.new) }
        ensures err { OnErr result (self.new ≡ self.old) }
    {
        if let Some(number) = self.recall(text) {
            return Ok(number);
        }
        let number = self.search_or_add(text)?;
        self.keep(text, number);
        Ok(number)
    }

    /// The number of a text by its bucket, in which it is put now if it did not come before.
    fn search_or_add(&mut self, text: &[u8]) -> Result<u32, AllocError>
        ensures number { IfOk result (λ number. slice_get self.new number ≡ Some text.now) }
        ensures names { OnOk result (IsNumberedIn self.old text.now self.new) }
        ensures err { OnErr result (self.new ≡ self.old) }
    {
        match self.search(text) {
            Some(number) => Ok(number),
            None => self.add(text),
        }
    }

    /// Adds a text that did not come before.
    fn add(&mut self, text: &[u8]) -> Result<u32, AllocError>
        requires { ¬ Contains self.old text.now }
        ensures number { IfOk result (λ number. number ≡ length self.old) }
        ensures names { OnOk result (self.new ≡ self.old ++ text.now ∷ []) }
        ensures err { OnErr result (self.new ≡ self.old) }
    {
        let alloc = *self.entries.allocator();
        let Ok(number) = u32::try_from(self.entries.len()) else {
            return Err(AllocError);
        };
        let Some(link) = number.checked_add(1) else {
            return Err(AllocError);
        };
        let place = bucket(self.key, text, self.newest.len());
        let entry = Entry {
            text: Vec::from_slice(alloc, text)?,
            older: self.newest[place],
        };
        self.entries.push(entry)?;
        self.newest[place] = link;
        Ok(number)
    }
}
