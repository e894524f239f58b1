use hb_records::{JobRow, Page, Sums, TagList, TagVerdict, Verdict};
use hb_text::{Digest, Text};

/// What an ask that is answered Ok tells.
#[derive(Drop)]
pub enum Told {
    /// It is done.
    Done,
    /// Nothing was to be done.
    Nothing,
    /// A project: its limit in bytes, or -1 for none, the bytes that it uses, and its version.
    Project {
        limit: i64,
        used: u128,
        version: u64,
    },
    /// A blob that the project has, and its size in bytes.
    Blob {
        size: u64,
    },
    /// An upload has begun, with this id.
    Begun {
        upload: u64,
    },
    /// The project has the blob of another one now, by the entry of this number.
    Mounted {
        number: u64,
    },
    /// How many bytes of an upload arrived and were acknowledged.
    Offset {
        offset: u64,
    },
    /// What a reference names: the manifest's digest, its size in bytes, and its media type.
    Look {
        digest: Digest,
        size: u64,
        media: Text,
    },
    /// Tags of a repository in order, and whether there are more behind them.
    Tags {
        tags: TagList,
        more: bool,
    },
    /// A job's row.
    Job {
        row: JobRow,
    },
    /// A job's row, and what it did so far.
    JobState {
        row: JobRow,
        sums: Sums,
    },
    /// The next rows of a table.
    Page {
        page: Page,
    },
    /// A page of blobs was marked, the last one or not.
    Marked {
        last: bool,
    },
    /// What became of a candidate at its taking, and whether this ask took it.
    Taken {
        verdict: Verdict,
        fresh: bool,
    },
    /// What became of a candidate.
    Turn {
        verdict: Verdict,
    },
    /// What became of a tag.
    TagTurn {
        verdict: TagVerdict,
    },
    /// What a job did, over the whole of it.
    Sum {
        sums: Sums,
    },
}
