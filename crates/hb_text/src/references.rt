ghost use Rattle.std.specs.Prelude.{◌≡◌};

use crate::digests::Digest;
use crate::tags::Tag;
use hb_base::{Duplicate, Memory};
use std::alloc::Global;

/// What names a manifest of a repository: a tag, or the digest of the manifest's bytes (OCI
/// Distribution Specification 1.1, "Pulling manifests").
#[derive(Debug, PartialEq, Eq, PartialOrd, Ord, Drop)]
pub enum Reference {
    Tag(Tag),
    Digest(Digest),
}

impl Duplicate for Reference {
    fn copy(&self, alloc: Global) -> Result<Reference, Memory> {
        match self {
            Reference::Tag(tag) => Ok(Reference::Tag(tag.copy(alloc)?)),
            Reference::Digest(digest) => Ok(Reference::Digest(*digest)),
        }
    }
}
