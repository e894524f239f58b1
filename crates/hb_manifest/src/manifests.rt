use hb_base::{Duplicate, Listed, Memory};
use hb_text::{Digest, Text};
use std::alloc::Global;
use std::error::Error;
use std::fmt;

/// Digests in order. Contracts see them as a list.
pub type DigestList = Listed<Digest>;

/// What a manifest says.
#[derive(Drop)]
pub struct Manifest {
    /// Its media type, without parameters: one of the four that are read.
    pub media: Text,
    /// The digests that an image refers to: its config, and its layers in order but for those that may
    /// not be distributed. Each stands once, at its first place. An index has none.
    pub refs: DigestList,
    /// The digests of the manifests in an index, in order, each once. An image has none.
    pub children: DigestList,
    /// The digest of the manifest that this one is about, where it says one.
    pub subject: Option<Digest>,
}

impl Duplicate for Manifest {
    fn copy(&self, alloc: Global) -> Result<Manifest, Memory> {
        Ok(Manifest {
            media: self.media.copy(alloc)?,
            refs: self.refs.copy(alloc)?,
            children: self.children.copy(alloc)?,
            subject: self.subject,
        })
    }
}

/// Why bytes aren't read as a manifest.
#[derive(Clone, Copy, Debug, PartialEq, Eq, Hash)]
pub enum ManifestFault {
    /// The media type is none of the four that are read, or nothing says one.
    MediaUnknown,
    /// The bytes are no JSON object.
    NotJson,
    /// `schemaVersion` isn't 2, or `config`, `layers` or `manifests` isn't there as its kind wants it.
    NoSchema,
    /// Something that is listed is no descriptor: the first such, by its place from 0. An image's config
    /// has place 0 and its first layer place 1.
    BadDescriptor { place: u32 },
    /// There are more than [`MAX_DESCRIPTORS`](crate::MAX_DESCRIPTORS) descriptors.
    TooMany,
    /// There are more than [`MAX_MANIFEST`](crate::MAX_MANIFEST) bytes.
    TooLong,
    /// Memory was wanting.
    Memory,
}

impl fmt::Display for ManifestFault {
    fn fmt<W: fmt::Write>(&self, f: &mut fmt::Formatter<W>) -> fmt::Result {
        match self {
            ManifestFault::MediaUnknown => write!(f, "unknown media type"),
            ManifestFault::NotJson => write!(f, "not a JSON object"),
            ManifestFault::NoSchema => write!(f, "not of schema 2"),
            ManifestFault::BadDescriptor { place } => write!(f, "no descriptor at {place}"),
            ManifestFault::TooMany => write!(f, "too many descriptors"),
            ManifestFault::TooLong => write!(f, "too long"),
            ManifestFault::Memory => write!(f, "out of memory"),
        }
    }
}

impl Error for ManifestFault {}

impl From<Memory> for ManifestFault {
    ghost use Rattle.std.specs.Prelude.{◌≡◌};
    ghost use Rattle.hb_manifest.specs.declared.manifests.ManifestFault.{ManifestFault};

    ghost from_gives = { λ _ fault. fault ≡ ManifestFault.Memory };

    fn from(_memory: Memory) -> ManifestFault {
        ManifestFault::Memory
    }
}
