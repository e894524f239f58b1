//! What a registry remembers, as plain records: the rows of its tables, the entries of its audit, the
//! rules of its projects, and what a world notes beside them.
//!
//! - Rows: [`Project`], [`Blob`], [`Assoc`], [`Artifact`], [`TagRow`], [`Upload`], [`JobRow`], [`Candidate`],
//!   [`SnapTag`] and [`Entry`], each of a [`Table`] and with a [`Key`]. Contracts see an entry as a plain
//!   record, so that definitions can build one.
//! - [`EntryKind`]: the 24 things that can happen to the tables.
//! - [`Change`] and [`Batch`]: what one commit does. [`Page`]: rows of one table in the order of their keys.
//! - [`Rules`]: which tags are immutable, and which of them retention keeps. What they say stands in
//!   `specs/Patterns`, `specs/PatternTexts`, `specs/Selectors` and `specs/Retention`.
//! - [`Notes`], [`Sums`], [`PutAsk`]: what a world remembers since it started, what a job did, and a manifest
//!   that is to be put.
//! - [`laws`]: what holds of the definitions, as contracts of functions that do nothing.
//!
//! Each type with a list or a text has a `copy`, which is equal to it or answers want of memory. The tables
//! themselves stand in `hb_rows`.
#![tactic(auto)]

mod batches;
mod entries;
mod jobs;
mod keys;
pub mod laws;
mod notes;
mod orders;
mod pages;
mod puts;
mod records;
mod rules;
mod sums;
#[cfg(test)]
mod tests;

pub use batches::{Batch, Change, ChangeList, Row};
pub use entries::{Entry, EntryKind, EntryList, MAX_ENTRIES, MAX_MOMENT, Meta, WINDOW};
pub use hb_base::Listed;
pub use hb_text::{Digest, Duplicate, Memory, Name, ProjectName, Reference, Tag, Text};
pub use jobs::{
    Candidate, CandidateList, JobKind, JobList, JobRow, Phase, SnapList, SnapTag, TagVerdict,
    Verdict,
};
pub use keys::{ArtifactKey, Key, Table};
pub use notes::{
    Notes, NumberList, Placement, PlacementList, Sealed, SealedList, Sighting, SightingList, Spell,
    SpellList,
};
pub use pages::{MOST_ROWS, Page};
pub use puts::PutAsk;
pub use records::{
    Artifact, ArtifactList, Assoc, AssocList, Blob, BlobList, DigestList, Project, ProjectList,
    Status, TagList, TagRow, TagRowList, Upload, UploadList,
};
pub use rules::{
    ImmuteList, ImmuteRule, MOST_RULES, RetainList, RetainRule, Rules, Selector, Template,
};
pub use sums::{CollectSum, RetainSum, Sums};
