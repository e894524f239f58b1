ghost use Rattle.std.specs.Prelude.{◌≡◌, IfOk};

use crate::records::DigestList;
use hb_text::{Digest, Duplicate, Memory, Name, Tag, Text};
use std::alloc::Global;

/// A manifest that is to be put, and its tag where it gets one.
#[derive(Drop)]
pub struct PutAsk {
    pub name: Name,
    /// That of the manifest's bytes.
    pub digest: Digest,
    /// That of the manifest, in bytes.
    pub size: u64,
    /// The manifest's media type.
    pub media: Text,
    /// The blobs that the manifest lists, each once.
    pub refs: DigestList,
    /// The manifests that an index lists, each once.
    pub children: DigestList,
    pub tag: Option<Tag>,
}

pub(crate) fn copy_tag(alloc: Global, tag: &Option<Tag>) -> Result<Option<Tag>, Memory>
    ensures { IfOk result (λ made. made ≡ tag.now) }
{
    match tag {
        Some(tag) => Ok(Some(tag.copy(alloc)?)),
        None => Ok(None),
    }
}

impl Duplicate for PutAsk {
    fn copy(&self, alloc: Global) -> Result<PutAsk, Memory> {
        Ok(PutAsk {
            name: self.name.copy(alloc)?,
            digest: self.digest,
            size: self.size,
            media: self.media.copy(alloc)?,
            refs: self.refs.copy(alloc)?,
            children: self.children.copy(alloc)?,
            tag: copy_tag(alloc, &self.tag)?,
        })
    }
}
