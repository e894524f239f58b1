//! What a world answers to an ask, and the batch of its entry.
ghost use Rattle.std.specs.Prelude.{◌≡◌, ◌≤◌};
ghost use Rattle.hb_records.specs.Entries.{LAST_MOMENT};
ghost use Rattle.hb_desk.specs.declared.asks.Ask.TheVariants as ask;
ghost use Rattle.hb_plan.specs.Plans.{Plans, PlansAnyhow, IsStamped, PlanCause};

use crate::asks::{begin, end, look, pull, seal, seal_manifest, settle, show, touch};
use crate::batches::{put_by, put_changes_of};
use crate::deciding::puts;
use crate::finding::{find_artifact, holding, parts, placement_of, told};
use crate::planned::Planned;
use hb_desk::{Ask, Refusal};
use hb_keeper::Keeper;
use hb_model::changes::Stamp;
use hb_model::names::project_name;
use hb_records::{Placement, PutAsk};
use hb_text::{Digest, Name, ProjectName, Reference};
use std::alloc::Global;

fn plan_show<K: Keeper>(
    keeper: &mut K,
    name: &ProjectName,
    stamp: Stamp,
) -> Result<Planned, Refusal>
    ensures plan { PlansAnyhow (K.rows keeper.old) (ask.ShowProject name.now) stamp.number stamp.moment result }
    ensures rows { K.rows keeper.new ≡ K.rows keeper.old }
    ensures cause { PlanCause stamp.number (K.faults keeper.old) (K.faults keeper.new) result }
    ensures stamped { IsStamped stamp.number stamp.moment result }
{
    let row = told(keeper.project(name))?;
    show(&row, stamp)
}

fn plan_touch<K: Keeper>(
    alloc: Global,
    keeper: &mut K,
    name: &Name,
    digest: &Digest,
    stamp: Stamp,
) -> Result<Planned, Refusal>
    requires { stamp.moment ≤ LAST_MOMENT }
    ensures plan { PlansAnyhow (K.rows keeper.old) (ask.TouchBlob name.now digest.now) stamp.number stamp.moment result }
    ensures rows { K.rows keeper.new ≡ K.rows keeper.old }
    ensures cause { PlanCause stamp.number (K.faults keeper.old) (K.faults keeper.new) result }
    ensures stamped { IsStamped stamp.number stamp.moment result }
{
    let project = project_name(alloc, name)?;
    let held = told(holding(keeper, &project, digest))?;
    let blob = told(keeper.blob(digest))?;
    touch(alloc, stamp, &project, digest, &held, &blob)
}

fn plan_begin<K: Keeper>(
    alloc: Global,
    keeper: &mut K,
    name: &Name,
    stamp: Stamp,
) -> Result<Planned, Refusal>
    requires { stamp.moment ≤ LAST_MOMENT }
    ensures plan { PlansAnyhow (K.rows keeper.old) (ask.BeginUpload name.now) stamp.number stamp.moment result }
    ensures rows { K.rows keeper.new ≡ K.rows keeper.old }
    ensures cause { PlanCause stamp.number (K.faults keeper.old) (K.faults keeper.new) result }
    ensures stamped { IsStamped stamp.number stamp.moment result }
{
    let project = project_name(alloc, name)?;
    let row = told(keeper.project(&project))?;
    begin(alloc, stamp, name, &row)
}

fn plan_end<K: Keeper>(
    alloc: Global,
    keeper: &mut K,
    job: u64,
    upload: u64,
    stamp: Stamp,
) -> Result<Planned, Refusal>
    requires { stamp.moment ≤ LAST_MOMENT }
    ensures plan { PlansAnyhow (K.rows keeper.old) (ask.EndUpload job upload) stamp.number stamp.moment result }
    ensures rows { K.rows keeper.new ≡ K.rows keeper.old }
    ensures cause { PlanCause stamp.number (K.faults keeper.old) (K.faults keeper.new) result }
    ensures stamped { IsStamped stamp.number stamp.moment result }
{
    if job != 0 {
        return Err(Refusal::JobUnknown);
    }
    let row = told(keeper.upload(upload))?;
    end(alloc, stamp, upload, &row)
}

fn plan_seal<K: Keeper>(
    alloc: Global,
    keeper: &mut K,
    upload: u64,
    digest: &Digest,
    size: u64,
    stamp: Stamp,
) -> Result<Planned, Refusal>
    requires { stamp.moment ≤ LAST_MOMENT }
    ensures plan { PlansAnyhow (K.rows keeper.old) (ask.Seal upload digest.now size) stamp.number stamp.moment result }
    ensures rows { K.rows keeper.new ≡ K.rows keeper.old }
    ensures cause { PlanCause stamp.number (K.faults keeper.old) (K.faults keeper.new) result }
    ensures stamped { IsStamped stamp.number stamp.moment result }
{
    let Some(row) = told(keeper.upload(upload))? else {
        return Err(Refusal::UploadUnknown);
    };
    let project = project_name(alloc, &row.name)?;
    let held = told(holding(keeper, &project, digest))?;
    seal(alloc, stamp, upload, &row, &held, digest, size)
}

fn plan_seal_manifest<K: Keeper>(
    alloc: Global,
    keeper: &mut K,
    upload: u64,
    put: &PutAsk,
    stamp: Stamp,
) -> Result<Planned, Refusal>
    requires { stamp.moment ≤ LAST_MOMENT }
    ensures plan { PlansAnyhow (K.rows keeper.old) (ask.SealManifest upload put.now) stamp.number stamp.moment result }
    ensures rows { K.rows keeper.new ≡ K.rows keeper.old }
    ensures cause { PlanCause stamp.number (K.faults keeper.old) (K.faults keeper.new) result }
    ensures stamped { IsStamped stamp.number stamp.moment result }
{
    let project = project_name(alloc, &put.name)?;
    let row = told(keeper.upload(upload))?;
    let parts = told(parts(keeper, &project, put))?;
    seal_manifest(alloc, stamp, upload, &row, put, &parts)
}

fn plan_settle<K: Keeper>(
    alloc: Global,
    keeper: &mut K,
    placements: &[Placement],
    name: &Name,
    upload: u64,
    digest: &Digest,
    stamp: Stamp,
) -> Result<Planned, Refusal>
    requires { stamp.moment ≤ LAST_MOMENT }
    ensures plan { Plans (K.rows keeper.old) placements.now (ask.Settle name.now upload digest.now) stamp.number stamp.moment result }
    ensures rows { K.rows keeper.new ≡ K.rows keeper.old }
    ensures cause { PlanCause stamp.number (K.faults keeper.old) (K.faults keeper.new) result }
    ensures stamped { IsStamped stamp.number stamp.moment result }
{
    let project = project_name(alloc, name)?;
    let held = told(holding(keeper, &project, digest))?;
    let blob = told(keeper.blob(digest))?;
    let placement = placement_of(placements, upload, digest);
    settle(
        alloc, stamp, name, &project, digest, &held, &blob, placement,
    )
}

fn plan_put<K: Keeper>(
    alloc: Global,
    keeper: &mut K,
    placements: &[Placement],
    upload: u64,
    put: &PutAsk,
    stamp: Stamp,
) -> Result<Planned, Refusal>
    requires { stamp.moment ≤ LAST_MOMENT }
    ensures plan { Plans (K.rows keeper.old) placements.now (ask.PutArtifact upload put.now) stamp.number stamp.moment result }
    ensures rows { K.rows keeper.new ≡ K.rows keeper.old }
    ensures cause { PlanCause stamp.number (K.faults keeper.old) (K.faults keeper.new) result }
    ensures stamped { IsStamped stamp.number stamp.moment result }
{
    let project = project_name(alloc, &put.name)?;
    let parts = told(parts(keeper, &project, put))?;
    let blob = told(keeper.blob(&put.digest))?;
    let placement = placement_of(placements, upload, &put.digest);
    let size = match puts(put, &parts, &blob, placement) {
        Ok(size) => size,
        Err(refusal) => return Err(refusal),
    };
    let changes = put_changes_of(alloc, keeper, stamp, &project, put, size, &parts.held);
    put_by(alloc, stamp, put, size, told(changes)?)
}

fn plan_look<K: Keeper>(
    alloc: Global,
    keeper: &mut K,
    name: &Name,
    reference: &Reference,
    stamp: Stamp,
) -> Result<Planned, Refusal>
    ensures plan { PlansAnyhow (K.rows keeper.old) (ask.Look name.now reference.now) stamp.number stamp.moment result }
    ensures rows { K.rows keeper.new ≡ K.rows keeper.old }
    ensures cause { PlanCause stamp.number (K.faults keeper.old) (K.faults keeper.new) result }
    ensures stamped { IsStamped stamp.number stamp.moment result }
{
    let owner = project_name(alloc, name)?;
    let project = told(keeper.project(&owner))?;
    let row = told(find_artifact(keeper, name, reference))?;
    look(alloc, stamp, &project, &row)
}

fn plan_pull<K: Keeper>(
    alloc: Global,
    keeper: &mut K,
    name: &Name,
    digest: &Digest,
    stamp: Stamp,
) -> Result<Planned, Refusal>
    requires { stamp.moment ≤ LAST_MOMENT }
    ensures plan { PlansAnyhow (K.rows keeper.old) (ask.NotePull name.now digest.now) stamp.number stamp.moment result }
    ensures rows { K.rows keeper.new ≡ K.rows keeper.old }
    ensures cause { PlanCause stamp.number (K.faults keeper.old) (K.faults keeper.new) result }
    ensures stamped { IsStamped stamp.number stamp.moment result }
{
    let row = told(keeper.artifact(name, digest))?;
    pull(alloc, stamp, name, digest, &row)
}

/// What an ask is told, and the batch of its entry, decided over the keeper's rows and these placements.
/// Nothing is changed: who plans commits the batch.
///
/// `number` is that of the next entry, and `moment` is at most [`hb_records::MAX_MOMENT`]. An `Err` is the
/// reply's refusal, or Keeper where the keeper's count of faults rose, or Memory. Memory comes also where what
/// a project uses would pass its type.
pub fn plan<K: Keeper>(
    alloc: Global,
    keeper: &mut K,
    placements: &[Placement],
    ask: &Ask,
    number: u64,
    moment: u64,
) -> Result<Planned, Refusal>
    requires { moment ≤ LAST_MOMENT }
    ensures plan { Plans (K.rows keeper.old) placements.now ask.now number moment result }
    ensures rows { K.rows keeper.new ≡ K.rows keeper.old }
    ensures cause { PlanCause number (K.faults keeper.old) (K.faults keeper.new) result }

    // Also where no rows are told.
    ensures stamped { IsStamped number moment result }
{
    let stamp = Stamp { number, moment };
    match ask {
        Ask::ShowProject { name } => plan_show(keeper, name, stamp),
        Ask::TouchBlob { name, digest } => plan_touch(alloc, keeper, name, digest, stamp),
        Ask::BeginUpload { name } => plan_begin(alloc, keeper, name, stamp),
        Ask::EndUpload { job, upload } => plan_end(alloc, keeper, *job, *upload, stamp),
        Ask::Seal {
            upload,
            digest,
            size,
        } => plan_seal(alloc, keeper, *upload, digest, *size, stamp),
        Ask::SealManifest { upload, put } => {
            plan_seal_manifest(alloc, keeper, *upload, put, stamp)
        }
        Ask::Settle {
            name,
            upload,
            digest,
        } => plan_settle(alloc, keeper, placements, name, *upload, digest, stamp),
        Ask::PutArtifact { upload, put } => {
            plan_put(alloc, keeper, placements, *upload, put, stamp)
        }
        Ask::Look { name, reference } => plan_look(alloc, keeper, name, reference, stamp),
        Ask::NotePull { name, digest } => plan_pull(alloc, keeper, name, digest, stamp),
    }
}
