ghost use Rattle.std.specs.Prelude.{◌≡◌};
ghost use Rattle.std.specs.Ordering.{nat_cmp};

use hb_base::{Ordered, Seeks};
use hb_text::{Digest, Text};
use std::cmp::Ordering;

/// The bytes of an upload's stage.
#[derive(Drop)]
pub struct StagedBytes {
    pub id: u64,
    pub bytes: Text,
}

/// The bytes held under a digest.
#[derive(Drop)]
pub struct HeldBlob {
    pub digest: Digest,
    pub bytes: Text,
}

/// A removal that was sent and not acknowledged: from the moment `until` on, in seconds since
/// 1970-01-01T00:00:00Z, it has no effect any more.
#[derive(Clone, Copy, Debug, PartialEq, Eq)]
pub struct Lapsing {
    pub digest: Digest,
    pub until: u64,
}

/// A content that was placed: its digest, and its length in bytes.
#[derive(Clone, Copy, Debug, PartialEq, Eq)]
pub struct Placed {
    pub digest: Digest,
    pub size: u64,
}

impl Ordered for StagedBytes {
    ghost use Rattle.std.specs.Ordering.{nat_cmp};

    ghost order = { λ a b. nat_cmp a.id b.id };

    fn compare(&self, other: &StagedBytes) -> Ordering {
        self.id.cmp(&other.id)
    }
}

impl Seeks<StagedBytes> for u64 {
    ghost use Rattle.std.specs.Ordering.{nat_cmp};

    ghost seeks = { λ id row. nat_cmp id row.id };

    fn compare_to(&self, row: &StagedBytes) -> Ordering {
        self.cmp(&row.id)
    }
}

impl Ordered for HeldBlob {
    ghost use Rattle.std.specs.Ordering.{nat_cmp};
    ghost use Rattle.std.specs.Cmp.Lexicographic.{slice_cmp};

    ghost order = { λ a b. slice_cmp nat_cmp a.digest.0 b.digest.0 };

    fn compare(&self, other: &HeldBlob) -> Ordering {
        self.digest.cmp(&other.digest)
    }
}

impl Seeks<HeldBlob> for Digest {
    ghost use Rattle.std.specs.Ordering.{nat_cmp};
    ghost use Rattle.std.specs.Cmp.Lexicographic.{slice_cmp};

    ghost seeks = { λ digest row. slice_cmp nat_cmp digest.0 row.digest.0 };

    fn compare_to(&self, row: &HeldBlob) -> Ordering {
        self.cmp(&row.digest)
    }
}
