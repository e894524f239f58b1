//! The events of a world that take or give a stage.
ghost use Rattle.std.specs.Prelude.{◌≡◌, ◌≤◌, ℕ, Some, None, IfSome, IfOk, IfErr, IsErrOf, IsSomeAnd, OnOk, length, true, false};
ghost use Rattle.hb_outside.specs.Causes.{Rose};
ghost use Rattle.hb_text.specs.Digests.{digest_of};
ghost use Rattle.hb_records.specs.declared.notes.Notes.{Notes};
ghost use Rattle.hb_rows.specs.Tables.{Tables, upload_at};
ghost use Rattle.hb_store.specs.Calls.{Dropping, Placing, Stages, Staging};
ghost use Rattle.hb_store.specs.Contents.{bytes_of};
ghost use Rattle.hb_desk.specs.Calls.{StageTaken, StageDropped, StageAt, Number, Dropped, plain};
ghost use Rattle.hb_desk.specs.Notes.{is_out as stage_is_out, sealed_at};
ghost use Rattle.hb_desk.specs.Noting.{handed_back, placing, taking_out};
ghost use Rattle.hb_desk.specs.declared.refusals.Refusal.TheVariants.{Keeper as KeeperFailed, Storage, Spent};
ghost use Rattle.hb_desk.specs.StoreCalls.{HasNoStage, OneCall};
ghost use Rattle.hb_world.specs.StoreStands.{Stands};
ghost use Rattle.hb_world.specs.Storing.{HasOffset, IsStoreFault, RowsReply, upload_over};

use crate::looking::has_project;
use crate::refusing::{keep_refusal, store_refusal};
use crate::remembered::Remembered;
use hb_desk::{Refusal, Staged};
use hb_keeper::Keeper;
use hb_records::{Placement, Upload};
use hb_store::{Stage, Store};
use hb_text::{Digest, Name};
use std::alloc::Global;

// The offset at which the upload's stage is taken.
fn offset_of(
    row: &Option<Upload>,
    name: &Name,
    upload: u64,
    start: Option<u64>,
    out: bool,
) -> Result<u64, Refusal>
    ensures reply { (r : Tables) (n : Notes) → upload_at r upload ≡ row.now → stage_is_out n upload ≡ out
        → plain StageAt result ≡ (upload_over r n name.now upload start).outcome }
    ensures offset { IfOk result (λ o. IfSome row.now (λ x. x.offset ≡ o)) }
    ensures keeper { ¬ (IsErrOf result KeeperFailed) }
    ensures storage { ¬ (IsErrOf result Storage) }
    ensures spent { ¬ (IsErrOf result Spent) }
{
    let Some(row) = row else {
        return Err(Refusal::UploadUnknown);
    };
    if !name.cmp(&row.name).is_eq() {
        return Err(Refusal::UploadUnknown);
    }
    if out {
        return Err(Refusal::Busy { upload });
    }
    match start {
        Some(start) => {
            if start != row.offset {
                return Err(Refusal::OutOfOrder { offset: row.offset });
            }
            Ok(row.offset)
        }
        None => Ok(row.offset),
    }
}

// The same, with the rows looked up.
fn find_offset<K: Keeper>(
    alloc: Global,
    keeper: &mut K,
    name: &Name,
    upload: u64,
    start: Option<u64>,
    out: bool,
) -> Result<u64, Refusal>
    ensures reply { (n : Notes) → stage_is_out n upload ≡ out → RowsReply (K.rows keeper.old) n (StageTaken name.now upload start) (plain StageAt result) }
    ensures offset { IfOk result (λ o. HasOffset (K.rows keeper.old) upload o) }
    ensures rows { K.rows keeper.new ≡ K.rows keeper.old }
    ensures later { K.faults keeper.old ≤ K.faults keeper.new }
    ensures keeper { IsErrOf result KeeperFailed → Rose (K.faults keeper.old) (K.faults keeper.new) }
    ensures storage { ¬ (IsErrOf result Storage) }
    ensures spent { ¬ (IsErrOf result Spent) }
{
    if !has_project(alloc, keeper, name)? {
        return Err(Refusal::NoProject);
    }
    match keeper.upload(upload) {
        Ok(row) => offset_of(&row, name, upload, start, out),
        Err(fault) => Err(keep_refusal(fault)),
    }
}

/// Gives the stage of an upload of the repository. The slot of its being out is taken before the store's call.
pub(crate) fn take_stage<K: Keeper, S: Store>(
    alloc: Global,
    keeper: &mut K,
    store: &mut S,
    notes: &mut Remembered,
    name: &Name,
    upload: u64,
    start: Option<u64>,
    moment: u64,
) -> Result<Staged<S::Stage>, Refusal>
    ensures reply { RowsReply (K.rows keeper.old) notes.old (StageTaken name.now upload start) (plain (λ s. StageAt s.offset) result) }
    ensures noted { notes.new ≡ taking_out upload (plain (λ s. StageAt s.offset) result) notes.old }
    ensures made { IfOk result (λ s. (S.Stage.upload s.stage ≡ upload) × (S.Stage.size s.stage ≡ s.offset)) }
    ensures bytes { IfSome (S.contents store.old) (λ _. IfOk result (λ s. IsSomeAnd (S.Stage.bytes s.stage) (λ b. length b ≡ s.offset))) }
    ensures staged { IfOk result (λ s. Stages (S.contents store.new) upload s.offset (S.Stage.bytes s.stage)) }
    ensures called { (keep : ℕ) × HasOffset (K.rows keeper.old) upload keep × IfOk result (λ s. s.offset ≡ keep) × OneCall (Staging upload keep) (S.contents store.old) moment result (S.contents store.new) }
    ensures rows { K.rows keeper.new ≡ K.rows keeper.old }
    ensures stands { Stands (S.contents store.old) (S.contents store.new) }
    ensures keeper_later { K.faults keeper.old ≤ K.faults keeper.new }
    ensures store_later { S.faults store.old ≤ S.faults store.new }
    ensures keeper { IsErrOf result KeeperFailed → Rose (K.faults keeper.old) (K.faults keeper.new) }
    ensures storage { IsErrOf result Storage → Rose (S.faults store.old) (S.faults store.new) }
    ensures spent { ¬ (IsErrOf result Spent) }
{
    let offset = find_offset(alloc, keeper, name, upload, start, notes.is_out(upload))?;
    if notes.begin_out(upload).is_err() {
        return Err(Refusal::Memory);
    }
    match store.stage(upload, offset, moment) {
        Ok(stage) => Ok(Staged { stage, offset }),
        Err(fault) => {
            notes.undo_out();
            Err(store_refusal(fault))
        }
    }
}

/// Makes the stage's bytes the content of the digest with which the upload is sealed. The slot of the placement is
/// taken before the store's call. The upload is sealed no more, and its stage given up, whatever is answered.
/// `entries` is how many the audit has, and the placement's number.
pub(crate) fn place_noted<S: Store>(
    store: &mut S,
    notes: &mut Remembered,
    entries: u64,
    upload: u64,
    stage: S::Stage,
    digest: &Digest,
    moment: u64,
) -> Result<u64, Refusal>
    requires own { sealed_at upload notes.old.sealed ≡ Some (record { upload = upload; digest = digest.now; size = S.Stage.size stage }) }
    requires bytes { IfSome (S.contents store.old) (λ _. IsSomeAnd (S.Stage.bytes stage) (λ b. (digest_of b ≡ digest.now) × (length b ≡ S.Stage.size stage))) }
    ensures number { IfOk result (λ n. n ≡ entries) }
    ensures noted { notes.new ≡ placing upload entries (plain Number result) notes.old }
    ensures ended { OnOk result (HasNoStage (S.contents store.new) upload) }
    ensures called { OneCall (Placing upload (S.Stage.bytes stage) digest.now) (S.contents store.old) moment result (S.contents store.new) }
    ensures held { OnOk result (IfSome (S.contents store.new) (λ c. IsSomeAnd (bytes_of c digest.now) (λ b. (digest_of b ≡ digest.now) × (length b ≡ S.Stage.size stage)))) }
    ensures stands { Stands (S.contents store.old) (S.contents store.new) }
    ensures fault { IfErr result IsStoreFault }
    ensures later { S.faults store.old ≤ S.faults store.new }
    ensures storage { IsErrOf result Storage → Rose (S.faults store.old) (S.faults store.new) }
{
    let slot = notes.begin_placement(Placement {
        upload,
        digest: *digest,
        size: stage.len(),
        placed: entries,
        gone: 0,
    });
    notes.unseal(upload);
    if slot.is_err() {
        return Err(Refusal::Memory);
    }
    match store.place(upload, stage, digest, moment) {
        Ok(()) => Ok(entries),
        Err(fault) => {
            notes.undo_placement();
            Err(store_refusal(fault))
        }
    }
}

// Ends the upload's stage in the store.
fn end_stage<S: Store>(store: &mut S, upload: u64, moment: u64) -> Result<(), Refusal>
    ensures ended { OnOk result (HasNoStage (S.contents store.new) upload) }
    ensures called { OneCall (Dropping upload) (S.contents store.old) moment result (S.contents store.new) }
    ensures stands { Stands (S.contents store.old) (S.contents store.new) }
    ensures fault { IfErr result IsStoreFault }
    ensures later { S.faults store.old ≤ S.faults store.new }
    ensures storage { IsErrOf result Storage → Rose (S.faults store.old) (S.faults store.new) }
{
    match store.drop_stage(upload, moment) {
        Ok(()) => Ok(()),
        Err(fault) => Err(store_refusal(fault)),
    }
}

/// Ends the stage that is handed back.
pub(crate) fn drop_handed<S: Store>(
    store: &mut S,
    notes: &mut Remembered,
    upload: u64,
    stage: S::Stage,
    moment: u64,
) -> Result<(), Refusal>
    ensures noted { notes.new ≡ handed_back upload true notes.old }
    ensures ended { OnOk result (HasNoStage (S.contents store.new) upload) }
    ensures called { OneCall (Dropping upload) (S.contents store.old) moment result (S.contents store.new) }
    ensures stands { Stands (S.contents store.old) (S.contents store.new) }
    ensures fault { IfErr result IsStoreFault }
    ensures later { S.faults store.old ≤ S.faults store.new }
    ensures storage { IsErrOf result Storage → Rose (S.faults store.old) (S.faults store.new) }
{
    notes.hand_back(upload);
    drop(stage);
    end_stage(store, upload, moment)
}

/// Ends the stage of an upload that nobody holds.
pub(crate) fn drop_left<K: Keeper, S: Store>(
    keeper: &mut K,
    store: &mut S,
    out: bool,
    upload: u64,
    moment: u64,
) -> Result<(), Refusal>
    ensures reply { (n : Notes) → stage_is_out n upload ≡ out → RowsReply (K.rows keeper.old) n (StageDropped upload false) (plain (λ _. Dropped) result) }
    ensures ended { OnOk result (HasNoStage (S.contents store.new) upload) }
    ensures called { OneCall (Dropping upload) (S.contents store.old) moment result (S.contents store.new) }
    ensures rows { K.rows keeper.new ≡ K.rows keeper.old }
    ensures stands { Stands (S.contents store.old) (S.contents store.new) }
    ensures keeper_later { K.faults keeper.old ≤ K.faults keeper.new }
    ensures store_later { S.faults store.old ≤ S.faults store.new }
    ensures keeper { IsErrOf result KeeperFailed → Rose (K.faults keeper.old) (K.faults keeper.new) }
    ensures storage { IsErrOf result Storage → Rose (S.faults store.old) (S.faults store.new) }
    ensures spent { ¬ (IsErrOf result Spent) }
{
    match keeper.upload(upload) {
        Ok(row) => {
            if out || row.is_some() {
                return Err(Refusal::Busy { upload });
            }
            end_stage(store, upload, moment)
        }
        Err(fault) => Err(keep_refusal(fault)),
    }
}
