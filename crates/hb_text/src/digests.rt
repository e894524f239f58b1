ghost use Rattle.std.specs.Prelude.{◌≡◌, ◌≢◌, ◌++◌, [], ℕ, List, IfSome, IfNone};
ghost use Rattle.sha2.specs.Hashers.{Holds256};
ghost use Rattle.hb_text.specs.Digests.{digest_of, digest_text, IsDigest};

use hb_base::{Duplicate, Memory};
use sha2::{Digest as _, Sha256};
use std::alloc::Global;

/// A SHA-256 digest (FIPS 180-4) of a blob or a manifest, by its 32 bytes.
///
/// Of the algorithms that the OCI Image Specification registers ("Digests") this one alone is taken.
#[derive(Clone, Copy, Debug, PartialEq, Eq, PartialOrd, Ord, Hash)]
pub struct Digest(pub [u8; 32]);

impl Digest {
    /// The digest of these bytes. It takes no memory.
    pub fn of(bytes: &[u8]) -> Digest
        ensures { result ≡ digest_of bytes.now }
    {
        Digest(Sha256::digest(bytes))
    }

    /// The digest that a text names: `sha256:` and 64 hexadecimal digits in lower case. Any other
    /// text is `None`. It takes no memory.
    pub fn read(text: &[u8]) -> Option<Digest>
        ensures some { IfSome result (λ d. text.now ≡ digest_text d) }
        ensures none { IfNone result ((d : Digest) → IsDigest d → text.now ≢ digest_text d) }
    {
        if text.len() != 71 {
            return None;
        }
        let mut bytes = [0u8; 32];
        if hex::decode_to_slice(&text[7..], &mut bytes).is_err() {
            return None;
        }
        let digest = Digest(bytes);
        let written = digest.write();
        if written.as_slice() == text {
            Some(digest)
        } else {
            None
        }
    }

    /// The digest's text: `sha256:` and 64 hexadecimal digits in lower case. It takes no memory.
    pub fn write(&self) -> [u8; 71]
        ensures { result ≡ digest_text self.now }
    {
        let mut text = *b"sha256:0000000000000000000000000000000000000000000000000000000000000000";
        let _done = hex::encode_to_slice(self.0.as_slice(), &mut text[7..]);
        text
    }
}

impl Duplicate for Digest {
    fn copy(&self, _alloc: Global) -> Result<Digest, Memory> {
        Ok(*self)
    }
}

/// A digest of bytes that come in pieces. No call of it takes memory.
///
/// The message that a hash holds is a relation and no value of its own: whoever keeps one names the
/// message, as the contracts here do by `m`.
#[derive(Drop)]
pub struct Hash {
    pub inner: Sha256,
}

impl Hash {
    /// The hash of nothing yet.
    pub fn new() -> Hash
        ensures { Holds256 result.inner [] }
    {
        Hash {
            inner: Sha256::new(),
        }
    }

    /// Takes in the next piece.
    pub fn add(&mut self, piece: &[u8])
        ensures { (m : List ℕ) → Holds256 self.old.inner m → Holds256 self.new.inner (m ++ piece.now) }
    {
        self.inner.update(piece);
    }

    /// The digest of all that was taken in.
    pub fn end(self) -> Digest
        ensures { (m : List ℕ) → Holds256 self.inner m → result ≡ digest_of m }
    {
        Digest(self.inner.finalize())
    }
}
