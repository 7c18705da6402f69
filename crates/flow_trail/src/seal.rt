//! Seals: SHA-256 of the seal before and of the bytes that are sealed.
ghost use Rattle.std.specs.Prelude.{◌≡◌, ◌++◌, ◌∷◌};
ghost use Rattle.sha2.specs.Sha256.{sha256};

use sha2::{Digest, Sha256};

/// What the first line of a trail is sealed by: the workflow's bytes, a zero byte and the policy's bytes, which are none where there is
/// no policy. A text has no zero byte.
pub fn first_seal(workflow: &[u8], policy: &[u8]) -> [u8; 32]
    ensures { result ≡ sha256 (workflow.now ++ 0 ∷ policy.now) }
{
    let mut hasher = Sha256::new();
    hasher.update(workflow);
    hasher.update(b"\0".as_slice());
    hasher.update(policy);
    hasher.finalize()
}

/// The seal of what stands behind another seal.
pub(crate) fn seal_behind(seal: &[u8], text: &[u8]) -> [u8; 32]
    ensures { result ≡ sha256 (seal.now ++ text.now) }
{
    let mut hasher = Sha256::new();
    hasher.update(seal);
    hasher.update(text);
    hasher.finalize()
}
