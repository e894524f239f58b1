ghost use Rattle.std.specs.Prelude.{◌≡◌, ◌≢◌, ◌≤◌, ◌<◌, ◌^◌, ℕ, true, false, length, Some, IfOk, IfSome, IsSomeAnd, OnOk};
ghost use Rattle.std.specs.Option.{option_copied};
ghost use Rattle.std.specs.declared.option.Option.{Option};
ghost use Rattle.hb_text.specs.Digests.{digest_of};
ghost use Rattle.hb_store.specs.Calls.{Dropping, Placing, Stages, Staging, Unchanged};
ghost use Rattle.hb_store.specs.Contents.{Contents};
ghost use Rattle.hb_desk.specs.Calls.{Asked, StageTaken, StagePlaced, StageDropped, BlobOpened, ManifestOpened, Tells, StageAt, Number, Dropped, Content, plain};
ghost use Rattle.hb_desk.specs.Clause.{View, Causes, EventOf, Known, Seals};
ghost use Rattle.hb_desk.specs.StoreCalls.{AreAcknowledged, HasNoStage, OneCall};
ghost use Rattle.hb_desk.specs.Notes.{sealed_at};

use crate::asks::Ask;
use crate::gave::{Opened, Staged};
use crate::refusals::Refusal;
use crate::told::Told;
use hb_store::{Reader, Stage};
use hb_text::{Digest, Name, Reference};

/// A registry as one caller meets it: each call but `seen`, `moment` and `last` is one event.
///
/// An event is answered by the reply that the audit and the notes give at that point (`specs/Reply`), or by want
/// of memory, or by a device's fault, which comes only where the device's count of faults rose. Before it others
/// may have acted, and each of their events was answered so too. Where the answer is Ok and has an entry, the
/// audit that the caller has seen has it as its newest. Where nobody else acts, an event makes one call of the store at
/// most, at its moment, and its effect is that of the event's name.
pub trait Desk {
    type Stage: Stage;

    type Reader: Reader;

    /// What contracts see of it.
    ghost view: { Self → View };

    /// No digest stands for two lengths in what its store ever placed.
    ghost one_length: { Self → Type 0 };

    /// What its store holds, where it tells it.
    ghost contents: { Self → Option Contents };

    /// Asks for what takes no stage and no reader.
    fn ask(&mut self, ask: &Ask, now: u64) -> Result<Told, Refusal>
        ensures event { EventOf (view self.old) (view self.new) (Asked ask.now) (plain Tells result) }
        ensures causes { Causes (view self.old) (view self.new) now (Asked ask.now) (plain Tells result) }
        ensures seals { Seals ask.now result (view self.new).sealed }
        ensures store { (view self.old).sole ≡ true → contents self.new ≡ contents self.old }
        ensures own { (view self.new).last ≢ (view self.old).last → ((view self.old).entries < (view self.new).last) × ((view self.new).last ≤ (view self.new).entries) };

    /// Gives the stage of an upload of the repository, with the bytes that were acknowledged. A `start` that isn't
    /// their number is refused. The stage is out until it is handed to `place` or `drop_stage`.
    fn stage(
        &mut self,
        name: &Name,
        upload: u64,
        start: Option<u64>,
        now: u64,
    ) -> Result<Staged<Self::Stage>, Refusal>
        ensures event { EventOf (view self.old) (view self.new) (StageTaken name.now upload start) (plain (λ s. StageAt s.offset) result) }
        ensures causes { Causes (view self.old) (view self.new) now (StageTaken name.now upload start) (plain (λ s. StageAt s.offset) result) }
        ensures made { IfOk result (λ s. (Self.Stage.upload s.stage ≡ upload) × (Self.Stage.size s.stage ≡ s.offset)) }
        ensures staged { IfOk result (λ s. Stages (contents self.new) upload s.offset (Self.Stage.bytes s.stage)) }
        ensures store { (view self.old).sole ≡ true → (keep : ℕ) × AreAcknowledged (view self.old).state upload keep × IfOk result (λ s. s.offset ≡ keep) × OneCall (Staging upload keep) (contents self.old) (view self.new).moment result (contents self.new) }
        ensures bytes { (view self.old).told_bytes ≡ true → IfOk result (λ s. IsSomeAnd (Self.Stage.bytes s.stage) (λ b. length b ≡ s.offset)) };

    /// Makes a stage's bytes the content of the digest that the caller sealed, and gives the number of its
    /// placement. The stage is given up, whatever is answered.
    fn place(
        &mut self,
        upload: u64,
        stage: Self::Stage,
        digest: &Digest,
        now: u64,
    ) -> Result<u64, Refusal>
        requires own { sealed_at upload (view self.old).sealed ≡ Some (record { upload = upload; digest = digest.now; size = Self.Stage.size stage }) }
        requires stage { Self.Stage.upload stage ≡ upload }
        requires bytes { (view self.old).told_bytes ≡ true → IsSomeAnd (Self.Stage.bytes stage) (λ b. (digest_of b ≡ digest.now) × (length b ≡ Self.Stage.size stage)) }
        ensures event { EventOf (view self.old) (view self.new) (StagePlaced upload digest.now) (plain Number result) }
        ensures causes { Causes (view self.old) (view self.new) now (StagePlaced upload digest.now) (plain Number result) }
        ensures store { (view self.old).sole ≡ true → OneCall (Placing upload (Self.Stage.bytes stage) digest.now) (contents self.old) (view self.new).moment result (contents self.new) }
        ensures ended { OnOk result (HasNoStage (contents self.new) upload) };

    /// Ends the stage of an upload, which is given up, whatever is answered.
    fn drop_stage(&mut self, upload: u64, stage: Self::Stage, now: u64) -> Result<(), Refusal>
        requires stage { Self.Stage.upload stage ≡ upload }
        ensures event { EventOf (view self.old) (view self.new) (StageDropped upload true) (plain (λ _. Dropped) result) }
        ensures causes { Causes (view self.old) (view self.new) now (StageDropped upload true) (plain (λ _. Dropped) result) }
        ensures store { (view self.old).sole ≡ true → OneCall (Dropping upload) (contents self.old) (view self.new).moment result (contents self.new) }
        ensures ended { OnOk result (HasNoStage (contents self.new) upload) };

    /// Ends the stage of an upload that nobody holds. It is refused where the stage is out, or the upload is there.
    fn drop_left_stage(&mut self, upload: u64, now: u64) -> Result<(), Refusal>
        ensures event { EventOf (view self.old) (view self.new) (StageDropped upload false) (plain (λ _. Dropped) result) }
        ensures causes { Causes (view self.old) (view self.new) now (StageDropped upload false) (plain (λ _. Dropped) result) }
        ensures store { (view self.old).sole ≡ true → OneCall (Dropping upload) (contents self.old) (view self.new).moment result (contents self.new) }
        ensures ended { OnOk result (HasNoStage (contents self.new) upload) };

    /// Opens a blob that the repository's project has.
    fn open_blob(
        &mut self,
        name: &Name,
        digest: &Digest,
        now: u64,
    ) -> Result<Opened<Self::Reader>, Refusal>
        ensures event { EventOf (view self.old) (view self.new) (BlobOpened name.now digest.now) (plain (λ o. Content o.digest o.size o.media) result) }
        ensures causes { Causes (view self.old) (view self.new) now (BlobOpened name.now digest.now) (plain (λ o. Content o.digest o.size o.media) result) }
        ensures bytes { (view self.old).told_bytes ≡ true → IfOk result (λ o. IsSomeAnd (Self.Reader.bytes o.reader) (λ b. (digest_of b ≡ o.digest) × (length b ≡ Self.Reader.left o.reader))) }
        ensures store { (view self.old).sole ≡ true → OneCall (λ answer. Unchanged) (contents self.old) (view self.new).moment result (contents self.new) }
        ensures length { one_length self.new → IfOk result (λ o. Self.Reader.left o.reader ≡ o.size) };

    /// Opens the manifest that the reference names in the repository.
    fn open_manifest(
        &mut self,
        name: &Name,
        reference: &Reference,
        now: u64,
    ) -> Result<Opened<Self::Reader>, Refusal>
        ensures event { EventOf (view self.old) (view self.new) (ManifestOpened name.now reference.now) (plain (λ o. Content o.digest o.size o.media) result) }
        ensures causes { Causes (view self.old) (view self.new) now (ManifestOpened name.now reference.now) (plain (λ o. Content o.digest o.size o.media) result) }
        ensures bytes { (view self.old).told_bytes ≡ true → IfOk result (λ o. IsSomeAnd (Self.Reader.bytes o.reader) (λ b. (digest_of b ≡ o.digest) × (length b ≡ Self.Reader.left o.reader))) }
        ensures store { (view self.old).sole ≡ true → OneCall (λ answer. Unchanged) (contents self.old) (view self.new).moment result (contents self.new) }
        ensures length { one_length self.new → IfOk result (λ o. Self.Reader.left o.reader ≡ o.size) };

    /// How many entries the caller has seen. It never falls, and rises with each own entry. It also tells what is known of
    /// what was seen.
    fn seen(&self) -> u64
        ensures is { result ≡ (view self.now).entries }
        ensures room { (view self.now).entries ≤ 2 ^ 62 }
        ensures known { IfSome (view self.now).state (λ s. Known (view self.now) s) };

    /// The moment of the caller's last event.
    fn moment(&self) -> u64
        ensures { result ≡ (view self.now).moment };

    /// The number of the caller's last own entry, or 0.
    fn last(&self) -> u64
        ensures is { result ≡ (view self.now).last }
        ensures low { result ≤ (view self.now).entries };
}
