ghost use Rattle.std.specs.Prelude.{◌≡◌, ◌⊎◌, ◌↔◌, ◌≤◌, ◌<◌, ◌-◌, ◌^◌, ◌++◌, ◌∷◌, [], ℕ, List, length, take, true, false, IsTrue, IfOk, OnOk, OnErr, MatchOption};
ghost use Rattle.std.specs.String.{string_bytes};
ghost use Rattle.flow_model.specs.Lists.{◌∈◌};
ghost use Rattle.flow_case.specs.RulesOf.{IsUser};

use flow_case::Users;
use flow_disk::Disk;
use flow_trail::{Trail, TrailLine};
use std::alloc::{AllocError, Global};

/// The names of a case's users by their numbers, which begin at 1.
#[derive(Drop)]
pub(crate) struct Names {
    names: Vec<String>,
    /// Whether others may come: a case without a policy knows whoever speaks.
    open: bool,
    ghost few: { length names.items ≤ 2 ^ 32 - 1 },
}

impl Names {
    ghost use Rattle.flow_case_book.specs.People.{names_in, name_of, IsNumberOf};

    /// The users of a policy; or of a trail, in the order in which they first made an entry.
    pub(crate) fn of<D: Disk>(
        alloc: Global,
        users: Option<&Users>,
        trail: &Trail<D>,
    ) -> Result<Names, AllocError> {
        let mut names = Names {
            names: Vec::new(alloc),
            open: users.is_none(),
        };
        match users {
            Some(users) => names.take_users(alloc, users)?,
            None => names.take_trail(alloc, trail.lines())?,
        }
        Ok(names)
    }

    fn take_users(&mut self, alloc: Global, users: &Users) -> Result<(), AllocError> {
        for number in 0..users.count() {
            if let Some(name) = users.name_of(number + 1) {
                self.push(text_of(alloc, name.bytes())?)?;
            }
        }
        Ok(())
    }

    fn take_trail(&mut self, alloc: Global, lines: &[TrailLine]) -> Result<(), AllocError> {
        for line in lines {
            if let TrailLine::Told(telling) = line {
                let _ = self.number_of(alloc, &telling.by)?;
            }
        }
        Ok(())
    }

    /// The number of the user; 0 where the case knows no such user, and takes no other.
    #[tactic(auto, using(crate::proofs::PeopleLemmas::speaks_known, crate::proofs::PeopleLemmas::speaks_none, crate::proofs::PeopleLemmas::speaks_next))]
    pub(crate) fn number_of(&mut self, alloc: Global, name: &str) -> Result<u32, AllocError>
        ensures speaks { IfOk result (IsNumberOf self.old.open (names_in self.old) name.now) }
        ensures number { IfOk result (λ n. (n ≡ 0) ⊎ IsUser (names_in self.new) n name.now) }
        ensures unknown { IfOk result (λ n. (n ≡ 0) ↔ ((self.old.open ≡ false) × ¬ (name.now ∈ names_in self.old))) }
        ensures names { (names_in self.new ≡ names_in self.old) ⊎ ((self.old.open ≡ true) × ¬ (name.now ∈ names_in self.old)
            × (names_in self.new ≡ names_in self.old ++ name.now ∷ [])) }
        ensures open { self.new.open ≡ self.old.open }
    {
        if let Some(number) = self.known(name) {
            return Ok(number);
        }
        if !self.open {
            return Ok(0);
        }
        self.push(String::from_str(alloc, name)?)?;
        Ok(self.count())
    }

    /// Takes up one more.
    fn push(&mut self, name: String) -> Result<(), AllocError>
        ensures ok { OnOk result (names_in self.new ≡ names_in self.old ++ string_bytes name ∷ []) }
        ensures err { OnErr result (names_in self.new ≡ names_in self.old) }
        ensures open { self.new.open ≡ self.old.open }
    {
        if self.names.len() >= u32::MAX as usize {
            return Err(AllocError);
        }
        self.names.push(name)?;
        Ok(())
    }

    /// The number of the user, where the case knows it.
    fn known(&self, name: &str) -> Option<u32>
        ensures { MatchOption result (¬ (name.now ∈ names_in self.now)) (λ number. IsUser (names_in self.now) number name.now) }
    {
        for (place, known) in self.names.iter().enumerate() {
            if is_name(known, name) {
                return Some(place as u32 + 1);
            }
        }
        None
    }

    /// Lets go all names but the first so many.
    pub(crate) fn forget(&mut self, count: usize)
        ensures names { names_in self.new ≡ take count (names_in self.old) }
        ensures open { self.new.open ≡ self.old.open }
    {
        self.names.truncate(count);
    }

    pub(crate) fn name_of(&self, number: u32) -> &str
        ensures { result.now ≡ name_of (names_in self.now) number }
    {
        if number == 0 {
            return "nobody";
        }
        match self.names.get(number as usize - 1) {
            Some(name) => name.as_str(),
            None => "nobody",
        }
    }

    pub(crate) fn count(&self) -> u32
        ensures { result ≡ length (names_in self.now) }
    {
        self.names.len() as u32
    }
}

fn is_name(known: &String, name: &str) -> bool
    ensures { IsTrue result ↔ (string_bytes known.now ≡ name.now) }
{
    known.as_bytes() == name.as_bytes()
}

/// The bytes of a name as a text.
fn text_of(alloc: Global, name: &[u8]) -> Result<String, AllocError> {
    match str::from_utf8(name) {
        Ok(text) => format!(in alloc; "{text}"),
        Err(_) => format!(in alloc; "?"),
    }
}
