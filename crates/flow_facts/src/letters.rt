ghost use Rattle.std.specs.Prelude.{◌≡◌, ◌≤◌, IfOk, length};
ghost use Rattle.flow_facts.specs.Letters.{letters_of};
ghost use Rattle.flow_facts.specs.declared.letters.TheConstants.{MOST_HERE};

use std::alloc::{AllocError, Global};

/// The most bytes that stand in the value itself.
const MOST_HERE: usize = 14;

/// The bytes of a name. Few of them take no memory, and many are behind one pointer, so the value is small.
#[derive(Drop)]
pub(crate) enum Letters {
    /// So many of the bytes.
    Here(u8, [u8; MOST_HERE]),
    Away(Box<Vec<u8>>),
}

const _: () = prove!(size_of::<Letters>() == 16);

/// The bytes, of which there are few enough.
fn letters_here(bytes: &[u8]) -> Letters
    requires { length bytes.now ≤ MOST_HERE }
    ensures { letters_of result ≡ bytes.now }
{
    let mut room = [0; MOST_HERE];
    room[..bytes.len()].copy_from_slice(bytes);
    Letters::Here(bytes.len() as u8, room)
}

impl Letters {
    pub(crate) fn new(alloc: Global, bytes: &[u8]) -> Result<Letters, AllocError>
        ensures { IfOk result (λ letters. letters_of letters ≡ bytes.now) }
    {
        if bytes.len() <= MOST_HERE {
            return Ok(letters_here(bytes));
        }
        let bytes = Vec::from_slice(alloc, bytes)?;
        Ok(Letters::Away(Box::new(alloc, bytes)?))
    }

    pub(crate) fn copy(&self, alloc: Global) -> Result<Letters, AllocError>
        ensures { IfOk result (λ letters. letters_of letters ≡ letters_of self.now) }
    {
        match self {
            Letters::Here(size, room) => Ok(Letters::Here(*size, *room)),
            Letters::Away(bytes) => Letters::new(alloc, bytes),
        }
    }

    pub(crate) fn bytes(&self) -> &[u8]
        ensures { result.now ≡ letters_of self.now }
    {
        match self {
            Letters::Here(size, room) => room.get(..usize::from(*size)).unwrap_or(room),
            Letters::Away(bytes) => bytes,
        }
    }
}
