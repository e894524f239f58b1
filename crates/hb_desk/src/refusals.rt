use hb_records::{Memory, Name};
use hb_store::StoreFault;
use hb_text::Digest;
use std::alloc::AllocError;

/// Why a call of a desk is refused. docs/ANSWERS.md has the cause of each that a request can meet.
#[derive(Debug, PartialEq, Eq, Drop)]
pub enum Refusal {
    /// Memory was wanting.
    Memory,
    /// The keeper failed: it comes only where the keeper's count of faults rose in this call.
    Keeper,
    /// The storage failed: it comes only where the storage's count of faults rose in this call.
    Storage,
    /// The audit has 2^62 entries, or the caller's seat has drawn its last ticket.
    Spent,
    /// The project isn't there.
    NoProject,
    /// No artifact has that name.
    NoRepo,
    /// The project hasn't the digest.
    BlobUnknown,
    /// The repository has no such upload.
    UploadUnknown,
    /// The upload's stage is out.
    Busy { upload: u64 },
    /// The start isn't the offset that was acknowledged, which is this.
    OutOfOrder { offset: u64 },
    /// The project hasn't this reference of the manifest, the first that is missing.
    MissingRef { digest: Digest },
    /// The repository has no such artifact for this child of the index, the first that is missing.
    MissingChild { digest: Digest },
    /// A tag that would go or move is immutable by the rule at this place, counted from 1.
    Immutable { rule: u32 },
    /// This artifact lists it as a child.
    HasParent { digest: Digest },
    /// The project would use more than its limit, all in bytes.
    OverLimit { used: u128, adds: u64, limit: i64 },
    /// A removal of the digest may still take effect until this moment.
    Collecting { until: u64 },
    /// The digest was taken or collected since it was placed: the number of entries at its placing, and the
    /// number of the entry that took or collected it.
    Raced { placed: u64, gone: u64 },
    /// The reference names no artifact.
    ManifestUnknown,
    /// The row has another version than the one that was sent: this, or 0 where there is no row.
    Stale { version: u64 },
    /// This artifact of the project needs the digest, the least one.
    Referenced { name: Name, digest: Digest },
    /// The window since it was last touched or pushed, at this moment, isn't over.
    Young { touched: u64 },
    /// There is no such job, candidate or snapshot.
    JobUnknown,
    /// Somebody has claimed the job.
    JobHeld { job: u64 },
    /// The removal wasn't sent, and may still be.
    NotSent,
    /// The upload has no placement of that digest.
    NotPlaced,
    /// A tag names the artifact.
    Tagged,
    /// The job isn't at its end.
    Unfinished,
    /// The job is finished.
    JobDone,
    /// The removal's bar is reached, which is this moment.
    Late { until: u64 },
    /// The removal was sent.
    Sent,
}

impl From<Memory> for Refusal {
    ghost use Rattle.std.specs.Prelude.{◌≡◌};
    ghost use Rattle.hb_desk.specs.declared.refusals.Refusal.TheVariants.{Memory as WantOfMemory};

    ghost from_gives = { λ _ refusal. refusal ≡ WantOfMemory };

    fn from(_fault: Memory) -> Refusal {
        Refusal::Memory
    }
}

impl From<AllocError> for Refusal {
    ghost use Rattle.std.specs.Prelude.{◌≡◌};
    ghost use Rattle.hb_desk.specs.declared.refusals.Refusal.TheVariants.{Memory as WantOfMemory};

    ghost from_gives = { λ _ refusal. refusal ≡ WantOfMemory };

    fn from(_fault: AllocError) -> Refusal {
        Refusal::Memory
    }
}

impl From<StoreFault> for Refusal {
    ghost use Rattle.std.specs.Prelude.{◌≡◌};
    ghost use Rattle.hb_desk.specs.declared.refusals.Refusal.TheVariants.{Memory as WantOfMemory, Storage as StorageFailed};
    ghost use Rattle.hb_store.specs.declared.store.StoreFault.TheVariants as store;

    ghost from_gives = { λ given refusal. (given ≡ store.Failed → refusal ≡ StorageFailed) × (given ≡ store.Memory → refusal ≡ WantOfMemory) };

    fn from(fault: StoreFault) -> Refusal {
        match fault {
            StoreFault::Failed => Refusal::Storage,
            StoreFault::Memory => Refusal::Memory,
        }
    }
}
