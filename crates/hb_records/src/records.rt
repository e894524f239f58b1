ghost use Rattle.std.specs.Prelude.{◌≡◌, IfOk};

use crate::rules::Rules;
use hb_base::Listed;
use hb_text::{Digest, Duplicate, Memory, Name, ProjectName, Tag, Text};
use std::alloc::Global;

/// Digests, in an order that whoever made the list has chosen.
pub type DigestList = Listed<Digest>;

/// Tags, in an order that whoever made the list has chosen.
pub type TagList = Listed<Tag>;

/// Projects, as a page has them.
pub type ProjectList = Listed<Project>;

/// Blobs, as a page has them.
pub type BlobList = Listed<Blob>;

/// Associations, as a page has them.
pub type AssocList = Listed<Assoc>;

/// Artifacts, as a page has them.
pub type ArtifactList = Listed<Artifact>;

/// Tags with what they name, as a page has them.
pub type TagRowList = Listed<TagRow>;

/// Uploads, as a page has them.
pub type UploadList = Listed<Upload>;

/// A project: what its repositories may store, and what they do.
#[derive(Drop)]
pub struct Project {
    pub name: ProjectName,
    /// The most bytes that the project may use, or -1 for any number.
    pub limit: i64,
    /// The bytes that it uses: the sum of the sizes of its distinct digests.
    pub used: u128,
    pub rules: Rules,
    /// The number of the entry that last set its limit or its rules, or changed what it uses.
    pub version: u64,
}

impl Duplicate for Project {
    fn copy(&self, alloc: Global) -> Result<Project, Memory> {
        Ok(Project {
            name: self.name.copy(alloc)?,
            limit: self.limit,
            used: self.used,
            rules: self.rules.copy(alloc)?,
            version: self.version,
        })
    }
}

/// How far a blob is from being removed.
#[derive(Clone, Copy, Debug, PartialEq, Eq)]
pub enum Status {
    /// It is kept.
    Idle,
    /// A collection marked it.
    Delete,
    /// A collection took it, and its removal may be under way.
    Deleting,
    /// Its removal failed, or came too late to be sent.
    DeleteFailed,
}

/// Stored content, by its digest.
#[derive(Clone, Copy, Debug, PartialEq, Eq)]
pub struct Blob {
    pub digest: Digest,
    /// In bytes.
    pub size: u64,
    pub status: Status,
    /// The number of the entry that last changed this row.
    pub version: u64,
    /// The moment at which it was last pushed, named or adopted.
    pub touched: u64,
    /// The moment from which a removal that was sent can have no effect. It is 0 where no collection
    /// took the blob since it was last pushed or adopted.
    pub bar: u64,
}

impl Duplicate for Blob {
    fn copy(&self, _alloc: Global) -> Result<Blob, Memory> {
        Ok(*self)
    }
}

/// A pair of a project and a digest: the project has the blob, and its size counts as used.
#[derive(Drop)]
pub struct Assoc {
    pub project: ProjectName,
    pub digest: Digest,
    /// In bytes.
    pub size: u64,
    /// The moment at which the project last pushed or named it.
    pub touched: u64,
}

impl Duplicate for Assoc {
    fn copy(&self, alloc: Global) -> Result<Assoc, Memory> {
        Ok(Assoc {
            project: self.project.copy(alloc)?,
            digest: self.digest,
            size: self.size,
            touched: self.touched,
        })
    }
}

/// A manifest of a repository (OCI Image Specification 1.1, "Image Manifest" and "Image Index").
#[derive(Drop)]
pub struct Artifact {
    pub name: Name,
    /// That of the manifest's bytes.
    pub digest: Digest,
    /// That of the manifest, in bytes.
    pub size: u64,
    /// The manifest's media type.
    pub media: Text,
    /// The blobs that the manifest lists: its config and its layers, each once.
    pub refs: DigestList,
    /// The manifests that an index lists, each once.
    pub children: DigestList,
    /// The moment of its last push.
    pub pushed: u64,
    /// The moment of its last pull, or 0 where it was never pulled.
    pub pulled: u64,
    /// The number of the entry that last changed this row.
    pub version: u64,
}

impl Duplicate for Artifact {
    fn copy(&self, alloc: Global) -> Result<Artifact, Memory> {
        Ok(Artifact {
            name: self.name.copy(alloc)?,
            digest: self.digest,
            size: self.size,
            media: self.media.copy(alloc)?,
            refs: self.refs.copy(alloc)?,
            children: self.children.copy(alloc)?,
            pushed: self.pushed,
            pulled: self.pulled,
            version: self.version,
        })
    }
}

/// A tag of a repository, and the artifact that it names.
#[derive(Drop)]
pub struct TagRow {
    pub name: Name,
    pub tag: Tag,
    pub digest: Digest,
    /// The moment of the push that last set it.
    pub pushed: u64,
    /// The number of the entry that last set it.
    pub version: u64,
}

impl Duplicate for TagRow {
    fn copy(&self, alloc: Global) -> Result<TagRow, Memory> {
        Ok(TagRow {
            name: self.name.copy(alloc)?,
            tag: self.tag.copy(alloc)?,
            digest: self.digest,
            pushed: self.pushed,
            version: self.version,
        })
    }
}

/// An upload session (OCI Distribution Specification 1.1, "Pushing a blob in chunks").
#[derive(Drop)]
pub struct Upload {
    /// The number of the entry that began it.
    pub id: u64,
    pub name: Name,
    /// How many bytes of it arrived and were acknowledged.
    pub offset: u64,
    /// The moment at which it began or last grew.
    pub touched: u64,
    /// The number of the entry that last changed this row.
    pub version: u64,
}

impl Duplicate for Upload {
    fn copy(&self, alloc: Global) -> Result<Upload, Memory> {
        Ok(Upload {
            id: self.id,
            name: self.name.copy(alloc)?,
            offset: self.offset,
            touched: self.touched,
            version: self.version,
        })
    }
}
