ghost use Rattle.std.specs.Prelude.{◌≡◌, ◌≤◌, ◌^◌, IfOk};
ghost use Rattle.hb_records.specs.Entries.{LAST_MOMENT, MOST_ENTRIES};

use crate::jobs::{JobKind, TagVerdict, Verdict};
use crate::puts::{PutAsk, copy_tag};
use crate::records::DigestList;
use crate::rules::Rules;
use hb_base::Listed;
use hb_text::{Digest, Duplicate, Memory, Name, ProjectName, Tag, Text};
use std::alloc::Global;
use std::marker::Model;

/// The greatest moment: 9998-12-31T23:59:59Z, in seconds since 1970-01-01T00:00:00Z.
pub const MAX_MOMENT: u64 = 253_370_764_799;

/// The most entries of an audit: 2^62.
pub const MAX_ENTRIES: u64 = 1 << 62;

/// The seconds for which what was pushed or named is safe from a collection, and after which a removal
/// that was sent can have no effect.
pub const WINDOW: u64 = 7_200;

/// Entries, the oldest first.
pub type EntryList = Listed<Entry>;

/// What an entry says was done. A `job` of 0 is no job: a client asked. Each row that an entry makes or
/// changes gets the entry's number as its version; a pair has none, and a tag in a snapshot keeps the
/// version of the tag. A part that changes a row that isn't there does nothing.
#[derive(Drop)]
pub enum EntryKind {
    /// The project is made, with nothing used and no rules.
    ProjectMade {
        project: ProjectName,
        limit: i64,
    },
    /// The project gets this limit.
    LimitSet {
        project: ProjectName,
        limit: i64,
    },
    /// The project gets these rules in place of those that it had.
    RulesSet {
        project: ProjectName,
        rules: Rules,
    },
    /// An upload begins, with the entry's number as its id and nothing arrived.
    UploadBegun {
        name: Name,
    },
    /// The upload has so many bytes.
    UploadGrown {
        upload: u64,
        offset: u64,
    },
    /// The upload goes.
    UploadEnded {
        job: u64,
        upload: u64,
    },
    /// The project has the digest, which is stored with this size. A new pair adds it to what is used. The
    /// pair and the blob are touched, and the blob is idle without a bar.
    Associated {
        project: ProjectName,
        digest: Digest,
        size: u64,
    },
    /// The pair and the blob are touched.
    Touched {
        project: ProjectName,
        digest: Digest,
    },
    /// The pair goes, and its size from what is used.
    Unassociated {
        job: u64,
        project: ProjectName,
        digest: Digest,
    },
    /// The project has the manifest's digest, as if it were associated. Its references are touched. The
    /// artifact is made, never pulled, or kept, and is pushed now. The tag, where there is one, names it.
    ArtifactPut {
        name: Name,
        digest: Digest,
        size: u64,
        media: Text,
        refs: DigestList,
        children: DigestList,
        tag: Option<Tag>,
    },
    /// The artifact and its tags go.
    ArtifactDropped {
        job: u64,
        name: Name,
        digest: Digest,
    },
    /// The tag goes.
    TagDropped {
        name: Name,
        tag: Tag,
    },
    /// The artifact was pulled now.
    Pulled {
        name: Name,
        digest: Digest,
    },
    /// A job is queued, with the entry's number as its own.
    JobQueued {
        kind: JobKind,
    },
    /// The job is claimed.
    JobClaimed {
        job: u64,
    },
    /// A collection looked at a page of blobs, up to `upto`, and at all of them where it is the `last`.
    /// Those in `digests` are marked and become candidates. Those in `barred` weren't marked for the only
    /// reason that a removal of them may still take effect.
    GcMarked {
        job: u64,
        digests: DigestList,
        barred: DigestList,
        upto: Option<Digest>,
        last: bool,
    },
    /// The job takes the digest, to remove its content. Its bar is the moment, [`WINDOW`] later.
    Taking {
        job: u64,
        digest: Digest,
    },
    /// The content was removed. The blob goes, and the candidate has its verdict.
    Collected {
        job: u64,
        digest: Digest,
    },
    /// The candidate was left, and has this verdict. Where the removal failed or came too late, the blob
    /// says so.
    GcSkipped {
        job: u64,
        digest: Digest,
        why: Verdict,
    },
    /// Content that the store held and that had no row gets one.
    Adopted {
        job: u64,
        digest: Digest,
        size: u64,
    },
    /// The collection is finished.
    GcDone {
        job: u64,
    },
    /// The project's tags are copied, each with whether the rules keep it.
    RetainBegun {
        job: u64,
    },
    /// A tag of the snapshot has had its turn. One that is dropped goes.
    RetainTurn {
        job: u64,
        name: Name,
        tag: Tag,
        verdict: TagVerdict,
    },
    /// The retention job is finished.
    RetainDone {
        job: u64,
    },
}

impl Duplicate for EntryKind {
    fn copy(&self, alloc: Global) -> Result<EntryKind, Memory> {
        match self {
            EntryKind::ProjectMade { project, limit } => Ok(EntryKind::ProjectMade {
                project: project.copy(alloc)?,
                limit: *limit,
            }),
            EntryKind::LimitSet { project, limit } => Ok(EntryKind::LimitSet {
                project: project.copy(alloc)?,
                limit: *limit,
            }),
            EntryKind::RulesSet { project, rules } => Ok(EntryKind::RulesSet {
                project: project.copy(alloc)?,
                rules: rules.copy(alloc)?,
            }),
            EntryKind::UploadBegun { name } => Ok(EntryKind::UploadBegun {
                name: name.copy(alloc)?,
            }),
            EntryKind::UploadGrown { upload, offset } => Ok(EntryKind::UploadGrown {
                upload: *upload,
                offset: *offset,
            }),
            EntryKind::UploadEnded { job, upload } => Ok(EntryKind::UploadEnded {
                job: *job,
                upload: *upload,
            }),
            EntryKind::Associated {
                project,
                digest,
                size,
            } => Ok(EntryKind::Associated {
                project: project.copy(alloc)?,
                digest: *digest,
                size: *size,
            }),
            EntryKind::Touched { project, digest } => Ok(EntryKind::Touched {
                project: project.copy(alloc)?,
                digest: *digest,
            }),
            EntryKind::Unassociated {
                job,
                project,
                digest,
            } => Ok(EntryKind::Unassociated {
                job: *job,
                project: project.copy(alloc)?,
                digest: *digest,
            }),
            EntryKind::ArtifactPut {
                name,
                digest,
                size,
                media,
                refs,
                children,
                tag,
            } => Ok(EntryKind::ArtifactPut {
                name: name.copy(alloc)?,
                digest: *digest,
                size: *size,
                media: media.copy(alloc)?,
                refs: refs.copy(alloc)?,
                children: children.copy(alloc)?,
                tag: copy_tag(alloc, tag)?,
            }),
            EntryKind::ArtifactDropped { job, name, digest } => Ok(EntryKind::ArtifactDropped {
                job: *job,
                name: name.copy(alloc)?,
                digest: *digest,
            }),
            EntryKind::TagDropped { name, tag } => Ok(EntryKind::TagDropped {
                name: name.copy(alloc)?,
                tag: tag.copy(alloc)?,
            }),
            EntryKind::Pulled { name, digest } => Ok(EntryKind::Pulled {
                name: name.copy(alloc)?,
                digest: *digest,
            }),
            EntryKind::JobQueued { kind } => Ok(EntryKind::JobQueued {
                kind: kind.copy(alloc)?,
            }),
            EntryKind::JobClaimed { job } => Ok(EntryKind::JobClaimed { job: *job }),
            EntryKind::GcMarked {
                job,
                digests,
                barred,
                upto,
                last,
            } => Ok(EntryKind::GcMarked {
                job: *job,
                digests: digests.copy(alloc)?,
                barred: barred.copy(alloc)?,
                upto: *upto,
                last: *last,
            }),
            EntryKind::Taking { job, digest } => Ok(EntryKind::Taking {
                job: *job,
                digest: *digest,
            }),
            EntryKind::Collected { job, digest } => Ok(EntryKind::Collected {
                job: *job,
                digest: *digest,
            }),
            EntryKind::GcSkipped { job, digest, why } => Ok(EntryKind::GcSkipped {
                job: *job,
                digest: *digest,
                why: *why,
            }),
            EntryKind::Adopted { job, digest, size } => Ok(EntryKind::Adopted {
                job: *job,
                digest: *digest,
                size: *size,
            }),
            EntryKind::GcDone { job } => Ok(EntryKind::GcDone { job: *job }),
            EntryKind::RetainBegun { job } => Ok(EntryKind::RetainBegun { job: *job }),
            EntryKind::RetainTurn {
                job,
                name,
                tag,
                verdict,
            } => Ok(EntryKind::RetainTurn {
                job: *job,
                name: name.copy(alloc)?,
                tag: tag.copy(alloc)?,
                verdict: *verdict,
            }),
            EntryKind::RetainDone { job } => Ok(EntryKind::RetainDone { job: *job }),
        }
    }
}

/// An entry of the audit: what was done, as the how manyth change, and when. Contracts see the record
/// `AuditEntry` of its three parts.
#[derive(Drop)]
pub struct Entry {
    /// Counted from 1, at most [`MAX_ENTRIES`].
    pub number: u64,
    /// At most [`MAX_MOMENT`].
    pub moment: u64,
    pub kind: EntryKind,
}

impl Model for Entry {
    ghost use Rattle.std.specs.Prelude.{◌≤◌};
    ghost use Rattle.hb_records.specs.Entries.{AuditEntry, LAST_MOMENT, MOST_ENTRIES};

    ghost Value = { AuditEntry };

    ghost view = { λ e. record { number = e.number; moment = e.moment; kind = e.kind } };

    ghost invariant = { λ e. (e.number ≤ MOST_ENTRIES) × (e.moment ≤ LAST_MOMENT) };
}

impl Duplicate for Entry {
    fn copy(&self, alloc: Global) -> Result<Entry, Memory> {
        Ok(Entry {
            number: self.number,
            moment: self.moment,
            kind: self.kind.copy(alloc)?,
        })
    }
}

/// How long the audit is, and its latest moment. Contracts see the record `AuditMeta` of the two.
#[derive(Drop)]
pub struct Meta {
    /// The number of entries, at most [`MAX_ENTRIES`].
    pub entries: u64,
    /// The moment of the last entry, at most [`MAX_MOMENT`], or 0 where there is none.
    pub latest: u64,
}

impl Model for Meta {
    ghost use Rattle.std.specs.Prelude.{◌≤◌};
    ghost use Rattle.hb_records.specs.Entries.{AuditMeta, LAST_MOMENT, MOST_ENTRIES};

    ghost Value = { AuditMeta };

    ghost view = { λ m. record { entries = m.entries; latest = m.latest } };

    ghost invariant = { λ m. (m.entries ≤ MOST_ENTRIES) × (m.latest ≤ LAST_MOMENT) };
}
