//! How the rows of one table stand to one another: by their keys.
ghost use Rattle.std.specs.Prelude.{◌≡◌};

use crate::entries::Entry;
use crate::jobs::{Candidate, JobRow, SnapTag};
use crate::records::{Artifact, Assoc, Blob, Project, TagRow, Upload};
use hb_base::Ordered;
use std::cmp::Ordering;

impl Ordered for Project {
    ghost use Rattle.hb_text.specs.Orders.{text_cmp};

    ghost order = { λ a b. text_cmp a.name b.name };

    fn compare(&self, other: &Project) -> Ordering {
        self.name.cmp(&other.name)
    }
}

impl Ordered for Blob {
    ghost use Rattle.hb_text.specs.Orders.{digest_cmp};

    ghost order = { λ a b. digest_cmp a.digest b.digest };

    fn compare(&self, other: &Blob) -> Ordering {
        self.digest.cmp(&other.digest)
    }
}

impl Ordered for Assoc {
    ghost use Rattle.hb_records.specs.Orders.{named_digest_cmp};

    ghost order = { λ a b. named_digest_cmp (a.project, a.digest) (b.project, b.digest) };

    fn compare(&self, other: &Assoc) -> Ordering {
        self.project
            .cmp(&other.project)
            .then(self.digest.cmp(&other.digest))
    }
}

impl Ordered for Artifact {
    ghost use Rattle.hb_records.specs.Orders.{named_digest_cmp};

    ghost order = { λ a b. named_digest_cmp (a.name, a.digest) (b.name, b.digest) };

    fn compare(&self, other: &Artifact) -> Ordering {
        self.name
            .cmp(&other.name)
            .then(self.digest.cmp(&other.digest))
    }
}

impl Ordered for TagRow {
    ghost use Rattle.hb_records.specs.Orders.{named_tag_cmp};

    ghost order = { λ a b. named_tag_cmp (a.name, a.tag) (b.name, b.tag) };

    fn compare(&self, other: &TagRow) -> Ordering {
        self.name.cmp(&other.name).then(self.tag.cmp(&other.tag))
    }
}

impl Ordered for Upload {
    ghost use Rattle.std.specs.Ordering.{nat_cmp};

    ghost order = { λ a b. nat_cmp a.id b.id };

    fn compare(&self, other: &Upload) -> Ordering {
        self.id.cmp(&other.id)
    }
}

impl Ordered for JobRow {
    ghost use Rattle.std.specs.Ordering.{nat_cmp};

    ghost order = { λ a b. nat_cmp a.number b.number };

    fn compare(&self, other: &JobRow) -> Ordering {
        self.number.cmp(&other.number)
    }
}

impl Ordered for Candidate {
    ghost use Rattle.hb_records.specs.Orders.{job_digest_cmp};

    ghost order = { λ a b. job_digest_cmp (a.job, a.digest) (b.job, b.digest) };

    fn compare(&self, other: &Candidate) -> Ordering {
        self.job
            .cmp(&other.job)
            .then(self.digest.cmp(&other.digest))
    }
}

impl Ordered for SnapTag {
    ghost use Rattle.hb_records.specs.Orders.{job_tag_cmp};

    ghost order = { λ a b. job_tag_cmp (a.job, (a.name, a.tag)) (b.job, (b.name, b.tag)) };

    fn compare(&self, other: &SnapTag) -> Ordering {
        self.job
            .cmp(&other.job)
            .then(self.name.cmp(&other.name).then(self.tag.cmp(&other.tag)))
    }
}

impl Ordered for Entry {
    ghost use Rattle.std.specs.Ordering.{nat_cmp};

    ghost order = { λ a b. nat_cmp a.number b.number };

    fn compare(&self, other: &Entry) -> Ordering {
        self.number.cmp(&other.number)
    }
}
