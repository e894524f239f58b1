//! An ask of a world: it is planned over the rows, the batch of its entry is committed, and what is remembered
//! is brought up to date.
ghost use Rattle.std.specs.Prelude.{◌≡◌, ◌≢◌, ◌≤◌, ◌<◌, ◌^◌, length, None, IfSome, IfOk, IfErr, IsErrOf};
ghost use Rattle.hb_outside.specs.Causes.{Rose};
ghost use Rattle.hb_records.specs.Entries.{LAST_MOMENT};
ghost use Rattle.hb_records.specs.declared.notes.Notes.{Notes};
ghost use Rattle.hb_desk.specs.Calls.{Asked, Tells, plain};
ghost use Rattle.hb_desk.specs.Noting.{noted_ask};
ghost use Rattle.hb_desk.specs.declared.refusals.Refusal.TheVariants.{Keeper as KeeperFailed, Storage, Spent};
ghost use Rattle.hb_plan.specs.Plans.{IsPlanFault};
ghost use Rattle.hb_plan.specs.RowReplies.{row_reply};
ghost use Rattle.hb_world.specs.Asking.{AskFits, count_with, last_with, settles, settled_by as placement_ended, with_batch};

use crate::refusing::keep_refusal;
use crate::remembered::Remembered;
use hb_desk::{Ask, Refusal, Told, seal_of};
use hb_keeper::Keeper;
use hb_plan::{Planned, plan};
use hb_records::{Batch, Placement};
use std::alloc::Global;

// Commits the batch, where there is one.
fn commit<K: Keeper>(keeper: &mut K, batch: &Option<Batch>) -> Result<(), Refusal>
    ensures rows { IfOk result (λ _. K.rows keeper.new ≡ with_batch batch.now (K.rows keeper.old)) }
    ensures same { IfErr result (λ _. K.rows keeper.new ≡ K.rows keeper.old) }
    ensures fault { IfErr result IsPlanFault }
    ensures later { K.faults keeper.old ≤ K.faults keeper.new }
    ensures keeper { IsErrOf result KeeperFailed → Rose (K.faults keeper.old) (K.faults keeper.new) }
{
    let Some(batch) = batch else {
        return Ok(());
    };
    match keeper.commit(batch) {
        Ok(()) => Ok(()),
        Err(fault) => Err(keep_refusal(fault)),
    }
}

// Commits what was planned, and counts its entry. `entries` is how many there are before it.
fn commit_planned<K: Keeper>(
    keeper: &mut K,
    planned: Planned,
    entries: &mut u64,
    last: &mut u64,
) -> Result<Told, Refusal>
    requires room { entries.old ≤ 2 ^ 62 }
    ensures told { IfOk result (λ x. x ≡ planned.told) }
    ensures rows { IfOk result (λ _. K.rows keeper.new ≡ with_batch planned.batch (K.rows keeper.old)) }
    ensures count { IfOk result (λ _. entries.new ≡ count_with planned.batch entries.old) }
    ensures last { IfOk result (λ _. last.new ≡ last_with planned.batch entries.old last.old) }
    ensures own { last.new ≢ last.old → (entries.old < last.new) × (last.new ≤ entries.new) }
    ensures same { IfErr result (λ _. (K.rows keeper.new ≡ K.rows keeper.old) × (entries.new ≡ entries.old) × (last.new ≡ last.old)) }
    ensures fault { IfErr result IsPlanFault }
    ensures later { K.faults keeper.old ≤ K.faults keeper.new }
    ensures keeper { IsErrOf result KeeperFailed → Rose (K.faults keeper.old) (K.faults keeper.new) }
{
    let committed = commit(keeper, &planned.batch);
    if let Err(refusal) = committed {
        return Err(refusal);
    }
    if planned.batch.is_some() {
        *entries += 1;
        *last = *entries;
    }
    Ok(planned.told)
}

// Plans an ask and commits its entry.
fn commit_ask<K: Keeper>(
    alloc: Global,
    keeper: &mut K,
    placements: &[Placement],
    ask: &Ask,
    entries: &mut u64,
    last: &mut u64,
    moment: u64,
) -> Result<Told, Refusal>
    requires moment { moment ≤ LAST_MOMENT }
    requires room { entries.old ≤ 2 ^ 62 }
    ensures told { IfSome (K.rows keeper.old) (λ r. entries.old ≡ length r.audit → (n : Notes) → n.placements ≡ placements.now
        → AskFits r (row_reply (Asked ask.now) r n) moment (K.rows keeper.new) entries.new last.old last.new (plain Tells result)) }
    ensures untold { K.rows keeper.old ≡ None → K.rows keeper.new ≡ None }
    ensures room { entries.new ≤ 2 ^ 62 }
    ensures grows { entries.old ≤ entries.new }
    ensures low { last.old ≤ entries.old → last.new ≤ entries.new }
    ensures own { last.new ≢ last.old → (entries.old < last.new) × (last.new ≤ entries.new) }
    ensures later { K.faults keeper.old ≤ K.faults keeper.new }
    ensures keeper { IsErrOf result KeeperFailed → Rose (K.faults keeper.old) (K.faults keeper.new) }
    ensures storage { ¬ (IsErrOf result Storage) }
    ensures spent { IsErrOf result Spent → 2 ^ 62 ≤ entries.new }
{
    let number = *entries + 1;
    match plan(alloc, keeper, placements, ask, number, moment) {
        Ok(planned) => commit_planned(keeper, planned, entries, last),
        Err(refusal) => Err(refusal),
    }
}

// The upload whose placement an ask ends, whatever it is answered.
fn settled_by(ask: &Ask) -> Option<u64>
    ensures { result ≡ placement_ended ask.now }
{
    match ask {
        Ask::Settle { upload, .. } => Some(*upload),
        Ask::PutArtifact { upload, .. } => Some(*upload),
        _ => None,
    }
}

// Ends the placement of an ask that settles one.
fn settle(notes: &mut Remembered, ask: &Ask)
    ensures { notes.new ≡ settles ask.now notes.old }
{
    if let Some(upload) = settled_by(ask) {
        notes.settle(upload);
    }
}

/// An ask: what is told, and what is remembered after it. The slot of what it seals is taken before the
/// commit, so that want of memory never follows one.
pub(crate) fn ask_noted<K: Keeper>(
    alloc: Global,
    keeper: &mut K,
    notes: &mut Remembered,
    ask: &Ask,
    entries: &mut u64,
    last: &mut u64,
    moment: u64,
) -> Result<Told, Refusal>
    requires moment { moment ≤ LAST_MOMENT }
    requires room { entries.old ≤ 2 ^ 62 }
    ensures told { IfSome (K.rows keeper.old) (λ r. entries.old ≡ length r.audit
        → AskFits r (row_reply (Asked ask.now) r notes.old) moment (K.rows keeper.new) entries.new last.old last.new (plain Tells result)) }
    ensures noted { notes.new ≡ noted_ask ask.now notes.old (plain Tells result) }
    ensures untold { K.rows keeper.old ≡ None → K.rows keeper.new ≡ None }
    ensures room { entries.new ≤ 2 ^ 62 }
    ensures grows { entries.old ≤ entries.new }
    ensures low { last.old ≤ entries.old → last.new ≤ entries.new }
    ensures own { last.new ≢ last.old → (entries.old < last.new) × (last.new ≤ entries.new) }
    ensures later { K.faults keeper.old ≤ K.faults keeper.new }
    ensures keeper { IsErrOf result KeeperFailed → Rose (K.faults keeper.old) (K.faults keeper.new) }
    ensures storage { ¬ (IsErrOf result Storage) }
    ensures spent { IsErrOf result Spent → 2 ^ 62 ≤ entries.new }
{
    let seal = seal_of(ask);
    if notes.begin_seal(seal).is_err() {
        return Err(Refusal::Memory);
    }
    let result = commit_ask(
        alloc,
        keeper,
        notes.placements(),
        ask,
        entries,
        last,
        moment,
    );
    if result.is_err() {
        notes.undo_seal(seal);
    }
    settle(notes, ask);
    result
}
