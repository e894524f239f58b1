use hb_desk::Told;
use hb_records::{Assoc, Batch, Project};
use hb_text::Digest;

/// What an ask is told, and the batch of its entry where it makes one.
#[derive(Drop)]
pub struct Planned {
    pub told: Told,
    pub batch: Option<Batch>,
}

// A project's row, and the row of its having a digest.
#[derive(Drop)]
pub(crate) struct Holding {
    pub project: Option<Project>,
    pub pair: Option<Assoc>,
}

// What a manifest is decided by: the first reference that the project hasn't, the first child that the
// repository hasn't, and what the project has of the manifest's own digest.
#[derive(Drop)]
pub(crate) struct Parts {
    pub missing_ref: Option<Digest>,
    pub missing_child: Option<Digest>,
    pub held: Holding,
}
