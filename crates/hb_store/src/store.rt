ghost use Rattle.std.specs.Prelude.{◌≡◌, ◌<◌, ◌≤◌, ◌+◌, ℕ, List, length, IfOk, OnOk};
ghost use Rattle.std.specs.declared.option.Option.{Option};
ghost use Rattle.hb_store.specs.Contents.{Contents};
ghost use Rattle.hb_store.specs.Calls.{Becomes, Unchanged, Staging, Placing, Dropping, Stages, Fetches};
ghost use Rattle.hb_store.specs.Causes.{StoreCause};
ghost use Rattle.hb_store.specs.declared.store.StoreFault.TheVariants.{Memory};
ghost use Rattle.hb_store.specs.Bytes.{Appends, StageReads, StageCount, ReaderReads, ReaderCount};

use hb_base::Memory;
use hb_text::Digest;
use std::alloc::AllocError;
use std::error::Error;
use std::fmt;

/// Why a call of a store, a stage or a reader failed.
#[derive(Clone, Copy, Debug, PartialEq, Eq, Hash)]
pub enum StoreFault {
    /// The device failed: it comes only where that object's count of faults rose.
    Failed,
    /// Memory was wanting: the call had no effect of its own.
    Memory,
}

impl fmt::Display for StoreFault {
    fn fmt<W: fmt::Write>(&self, f: &mut fmt::Formatter<W>) -> fmt::Result {
        match self {
            StoreFault::Failed => write!(f, "storage failed"),
            StoreFault::Memory => write!(f, "out of memory"),
        }
    }
}

impl Error for StoreFault {}

impl From<Memory> for StoreFault {
    ghost from_gives = { λ _ fault. fault ≡ Memory };

    fn from(_fault: Memory) -> StoreFault {
        StoreFault::Memory
    }
}

impl From<AllocError> for StoreFault {
    ghost from_gives = { λ _ fault. fault ≡ Memory };

    fn from(_fault: AllocError) -> StoreFault {
        StoreFault::Memory
    }
}

/// The bytes of an upload on their way in, out of the store that gave them.
pub trait Stage: Drop {
    /// Its bytes, where it tells them.
    ghost bytes: { Self → Option (List ℕ) };

    /// The upload that it was made for. No call changes it.
    ghost upload: { Self → ℕ };

    /// How many bytes it was given with, and how many appends that were Ok added since. Behind them may
    /// stand a part of a piece whose append failed.
    ghost size: { Self → ℕ };

    /// How often a call of it has failed. It never falls.
    ghost faults: { Self → ℕ };

    /// How many bytes it has.
    fn len(&self) -> u64
        ensures { result ≡ size self.now };

    /// Adds the piece at the end. After `Failed` a part of the piece may stand there.
    fn append(&mut self, piece: &[u8]) -> Result<(), StoreFault>
        ensures bytes { Appends (bytes self.old) (bytes self.new) piece.now result }
        ensures upload { upload self.new ≡ upload self.old }
        ensures size { OnOk result (size self.new ≡ size self.old + length piece.now) }
        ensures grows { size self.old ≤ size self.new }
        ensures cause { StoreCause (faults self.old) (faults self.new) result };

    /// Reads bytes from a place on: at least one where the place is below `len` and `into` isn't empty,
    /// and none where it isn't below. It changes no byte.
    fn read(&mut self, place: u64, into: &mut [u8]) -> Result<usize, StoreFault>
        ensures bytes { StageReads (bytes self.old) place into.new result }
        ensures count { StageCount (size self.old) place (length into.old) result }
        ensures same { (bytes self.new ≡ bytes self.old) × (upload self.new ≡ upload self.old) × (size self.new ≡ size self.old) }
        ensures cause { StoreCause (faults self.old) (faults self.new) result };
}

/// The bytes of a blob on their way out. A removal of the blob doesn't touch them.
pub trait Reader: Drop {
    /// The bytes that are left, where it tells them.
    ghost bytes: { Self → Option (List ℕ) };

    /// How many bytes are left.
    ghost left: { Self → ℕ };

    /// How often a read has failed. It never falls.
    ghost faults: { Self → ℕ };

    /// How many bytes are left.
    fn left(&self) -> u64
        ensures { result ≡ left self.now };

    /// Takes the next bytes: at least one where some are left and `into` isn't empty. A read that is
    /// refused takes none.
    fn read(&mut self, into: &mut [u8]) -> Result<usize, StoreFault>
        ensures bytes { ReaderReads (bytes self.old) (bytes self.new) into.new result }
        ensures count { ReaderCount (left self.old) (left self.new) (length into.old) result }
        ensures cause { StoreCause (faults self.old) (faults self.new) result };
}

/// A store of blobs by their digests, and of the bytes of uploads by their ids.
///
/// Each call is handed the moment at which it is made, in seconds since 1970-01-01T00:00:00Z. At any
/// call a removal that is still lapsing may first take effect. A call that answers `Memory` has no
/// effect of its own.
pub trait Store {
    type Stage: Stage;

    type Reader: Reader;

    /// What it holds, where it tells it.
    ghost contents: { Self → Option Contents };

    /// How often a call of it has failed. It never falls.
    ghost faults: { Self → ℕ };

    /// Gives the first `keep` bytes of that id's stage, a new one where `keep` is 0. Fewer bytes than
    /// `keep` is `Failed` and a counted fault; a refused call leaves the first `keep` bytes as they were.
    fn stage(&mut self, id: u64, keep: u64, now: u64) -> Result<Self::Stage, StoreFault>
        ensures contents { Becomes (contents self.old) now (Staging id keep result) (contents self.new) }
        ensures made { IfOk result (λ s. (Self.Stage.upload s ≡ id) × (Self.Stage.size s ≡ keep)) }
        ensures told { IfOk result (λ s. Stages (contents self.new) id keep (Self.Stage.bytes s)) }
        ensures cause { StoreCause (faults self.old) (faults self.new) result };

    /// Makes the stage's bytes the content of the digest, and ends the id's stage. After `Failed` the
    /// content is as before or the stage's bytes. The stage is given up, whatever is answered.
    fn place(
        &mut self,
        id: u64,
        stage: Self::Stage,
        digest: &Digest,
        now: u64,
    ) -> Result<(), StoreFault>
        ensures contents { Becomes (contents self.old) now (Placing id (Self.Stage.bytes stage) digest.now result) (contents self.new) }
        ensures cause { StoreCause (faults self.old) (faults self.new) result };

    /// Gives a reader of all bytes of the digest's content. A digest that isn't held is `Failed` and a
    /// counted fault.
    fn fetch(&mut self, digest: &Digest, now: u64) -> Result<Self::Reader, StoreFault>
        ensures contents { Becomes (contents self.old) now Unchanged (contents self.new) }
        ensures told { IfOk result (λ r. Fetches (contents self.new) digest.now (Self.Reader.bytes r) (Self.Reader.left r)) }
        ensures cause { StoreCause (faults self.old) (faults self.new) result };

    /// Ends the id's stage. One that isn't there is `Ok`.
    fn drop_stage(&mut self, id: u64, now: u64) -> Result<(), StoreFault>
        ensures contents { Becomes (contents self.old) now (Dropping id result) (contents self.new) }
        ensures cause { StoreCause (faults self.old) (faults self.new) result };
}
