ghost use Rattle.std.specs.Prelude.{◌≡◌, ◌<◌, IfOk, length};
ghost use Rattle.flow_audit.specs.Cuts.{AreCuts, cuts_of};

use flow_record::cut;
use std::alloc::{AllocError, Global};

/// An audit has at most so many journals.
pub const MOST_JOURNALS: u32 = 1_024;

/// Where each journal of a text begins, and where it ends: a line `%%` stands between two of them.
/// An empty text is one empty journal.
pub fn journals(alloc: Global, text: &[u8]) -> Result<Vec<(usize, usize)>, AllocError>
    ensures parts { IfOk result (λ cuts. cuts.items ≡ cuts_of text.now) }
    ensures within { IfOk result (λ cuts. AreCuts text.now cuts.items) }
    ensures some { IfOk result (λ cuts. 0 < length cuts.items) }
{
    let mut cuts = Vec::new(alloc);
    let mut start = 0;
    loop {
        let (size, next) = cut(&text[start..]);
        let end = start + size;
        cuts.push((start, end))?;
        let is_last = end == text.len();
        if is_last {
            return Ok(cuts);
        }
        start += next;
    }
}
