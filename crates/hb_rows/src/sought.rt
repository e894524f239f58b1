//! The keys by which the rows of one table are sought. Each borrows its parts, so that a look-up copies
//! nothing.
ghost use Rattle.std.specs.Prelude.{◌≡◌};

use hb_base::Seeks;
use hb_records::{
    Artifact, Assoc, Blob, Candidate, Digest, Entry, JobRow, Name, Project, ProjectName, SnapTag,
    Tag, TagRow, Upload,
};
use std::cmp::Ordering;

// The key of a project.
#[derive(Drop)]
pub struct ProjectKey<'a> {
    pub name: &'a ProjectName,
}

impl Seeks<Project> for ProjectKey<'_> {
    ghost use Rattle.hb_text.specs.Orders.{text_cmp};

    ghost seeks = { λ k row. text_cmp k.name.now row.name };

    fn compare_to(&self, row: &Project) -> Ordering {
        self.name.cmp(&row.name)
    }
}

// The key of a blob.
#[derive(Drop)]
pub struct BlobKey<'a> {
    pub digest: &'a Digest,
}

impl Seeks<Blob> for BlobKey<'_> {
    ghost use Rattle.hb_text.specs.Orders.{digest_cmp};

    ghost seeks = { λ k row. digest_cmp k.digest.now row.digest };

    fn compare_to(&self, row: &Blob) -> Ordering {
        self.digest.cmp(&row.digest)
    }
}

// The key of a pair of a project and a digest.
#[derive(Drop)]
pub struct PairKey<'a> {
    pub project: &'a ProjectName,
    pub digest: &'a Digest,
}

impl Seeks<Assoc> for PairKey<'_> {
    ghost use Rattle.hb_records.specs.Orders.{named_digest_cmp};

    ghost seeks = { λ k row. named_digest_cmp (k.project.now, k.digest.now) (row.project, row.digest) };

    fn compare_to(&self, row: &Assoc) -> Ordering {
        self.project
            .cmp(&row.project)
            .then(self.digest.cmp(&row.digest))
    }
}

// The key of an artifact.
#[derive(Drop)]
pub struct ArtifactKey<'a> {
    pub name: &'a Name,
    pub digest: &'a Digest,
}

impl Seeks<Artifact> for ArtifactKey<'_> {
    ghost use Rattle.hb_records.specs.Orders.{named_digest_cmp};

    ghost seeks = { λ k row. named_digest_cmp (k.name.now, k.digest.now) (row.name, row.digest) };

    fn compare_to(&self, row: &Artifact) -> Ordering {
        self.name.cmp(&row.name).then(self.digest.cmp(&row.digest))
    }
}

// The key of a tag.
#[derive(Drop)]
pub struct TagKey<'a> {
    pub name: &'a Name,
    pub tag: &'a Tag,
}

impl Seeks<TagRow> for TagKey<'_> {
    ghost use Rattle.hb_records.specs.Orders.{named_tag_cmp};

    ghost seeks = { λ k row. named_tag_cmp (k.name.now, k.tag.now) (row.name, row.tag) };

    fn compare_to(&self, row: &TagRow) -> Ordering {
        self.name.cmp(&row.name).then(self.tag.cmp(&row.tag))
    }
}

// The key of an upload, of a job and of an entry.
#[derive(Drop)]
pub struct Number(pub u64);

impl Seeks<Upload> for Number {
    ghost use Rattle.std.specs.Ordering.{nat_cmp};

    ghost seeks = { λ k row. nat_cmp k.0 row.id };

    fn compare_to(&self, row: &Upload) -> Ordering {
        self.0.cmp(&row.id)
    }
}

impl Seeks<JobRow> for Number {
    ghost use Rattle.std.specs.Ordering.{nat_cmp};

    ghost seeks = { λ k row. nat_cmp k.0 row.number };

    fn compare_to(&self, row: &JobRow) -> Ordering {
        self.0.cmp(&row.number)
    }
}

impl Seeks<Entry> for Number {
    ghost use Rattle.std.specs.Ordering.{nat_cmp};

    ghost seeks = { λ k row. nat_cmp k.0 row.number };

    fn compare_to(&self, row: &Entry) -> Ordering {
        self.0.cmp(&row.number)
    }
}

// The key of a candidate.
#[derive(Drop)]
pub struct CandidateKey<'a> {
    pub job: u64,
    pub digest: &'a Digest,
}

impl Seeks<Candidate> for CandidateKey<'_> {
    ghost use Rattle.hb_records.specs.Orders.{job_digest_cmp};

    ghost seeks = { λ k row. job_digest_cmp (k.job, k.digest.now) (row.job, row.digest) };

    fn compare_to(&self, row: &Candidate) -> Ordering {
        self.job.cmp(&row.job).then(self.digest.cmp(&row.digest))
    }
}

// The key of a tag in a snapshot.
#[derive(Drop)]
pub struct SnapKey<'a> {
    pub job: u64,
    pub name: &'a Name,
    pub tag: &'a Tag,
}

impl Seeks<SnapTag> for SnapKey<'_> {
    ghost use Rattle.hb_records.specs.Orders.{job_tag_cmp};

    ghost seeks = { λ k row. job_tag_cmp (k.job, (k.name.now, k.tag.now)) (row.job, (row.name, row.tag)) };

    fn compare_to(&self, row: &SnapTag) -> Ordering {
        self.job
            .cmp(&row.job)
            .then(self.name.cmp(&row.name).then(self.tag.cmp(&row.tag)))
    }
}
