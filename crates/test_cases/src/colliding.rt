use anyhow::Result;
use std::hash::{DefaultHasher, Hasher};

/// The letters of the names.
const LETTERS: [u8; 32] = *b"abcdefghijklmnopqrstuvwxyzABCDEF";

/// A name of five letters, made of the bits of a number.
fn name_of(number: u32) -> [u8; 5] {
    let letter = |place: u32| LETTERS[(number >> (5 * place)) as usize % 32];
    [letter(0), letter(1), letter(2), letter(3), letter(4)]
}

/// Whether names like this one fall together in a table that hashes them by no key of its own: it finds the place of a name by the
/// low bits of its hash, the halves of which it joins.
fn falls_together(name: &[u8]) -> bool {
    let mut read = DefaultHasher::new();
    read.write(name);
    let hash = read.finish();
    (hash ^ (hash >> 32)) % 32_768 < 64
}

/// Puts so many names behind the text that fall together under a hash without a key, and a comma between two of them.
pub(crate) fn push_colliding(text: &mut Vec<u8>, count: u32) -> Result<()> {
    let mut left = count;
    for number in 0..33_554_432u32 {
        if left == 0 {
            break;
        }
        let name = name_of(number);
        if falls_together(&name) {
            if left < count {
                text.push(b',')?;
            }
            text.extend_from_slice(&name)?;
            left -= 1;
        }
    }
    Ok(())
}
