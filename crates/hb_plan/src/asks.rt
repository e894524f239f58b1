//! What asks are answered by rows that were looked up.
ghost use Rattle.std.specs.Prelude.{◌≡◌, ◌≤◌, ℕ, List, Some};
ghost use Rattle.std.specs.Option.{option_copied};
ghost use Rattle.hb_text.specs.Names.{project_of};
ghost use Rattle.hb_text.specs.declared.references.Reference.{Reference as Referring};
ghost use Rattle.hb_records.specs.Entries.{LAST_MOMENT};
ghost use Rattle.hb_rows.specs.Tables.{project_at, artifact_at, upload_at, blob_at};
ghost use Rattle.hb_desk.specs.Reply.{refuse};
ghost use Rattle.hb_plan.specs.Findings.{holding_of, parts_of};
ghost use Rattle.hb_plan.specs.Plans.{Answers, IsStamped, IsOwn};
ghost use Rattle.hb_plan.specs.RowRefusals.{no_project_row};
ghost use Rattle.hb_plan.specs.RowReplies.{show_row, touch_over, begin_over, end_over, seal_over, seal_manifest_over, settle_over, row_named_by, look_over, pull_over};

use crate::batches::{begun, ended, pulled_by, settled, touched_by};
use crate::deciding::{seals, seals_manifest, settles};
use crate::planned::{Holding, Parts, Planned};
use hb_desk::{Refusal, Told};
use hb_model::changes::Stamp;
use hb_records::{Artifact, Blob, Placement, Project, PutAsk, Upload};
use hb_text::{Digest, Duplicate, Name, ProjectName};
use std::alloc::Global;

pub(crate) fn show(row: &Option<Project>, stamp: Stamp) -> Result<Planned, Refusal>
    ensures fits { (name : List ℕ) → Answers (λ r. project_at r name ≡ row.now) (λ r. show_row (project_at r name)) stamp.number stamp.moment result }
    ensures stamped { IsStamped stamp.number stamp.moment result }
    ensures own { IsOwn stamp.number result }
{
    match row {
        None => Err(Refusal::NoProject),
        Some(row) => Ok(Planned {
            told: Told::Project {
                limit: row.limit,
                used: row.used,
                version: row.version,
            },
            batch: None,
        }),
    }
}

pub(crate) fn touch(
    alloc: Global,
    stamp: Stamp,
    project: &ProjectName,
    digest: &Digest,
    held: &Holding,
    blob: &Option<Blob>,
) -> Result<Planned, Refusal>
    requires { stamp.moment ≤ LAST_MOMENT }
    ensures fits { (name : List ℕ) → project.now ≡ project_of name
        → Answers (λ r. (holding_of r project.now digest.now ≡ held.now) × (blob_at r digest.now ≡ blob.now)) (λ r. touch_over r name digest.now) stamp.number stamp.moment result }
    ensures stamped { IsStamped stamp.number stamp.moment result }
    ensures own { IsOwn stamp.number result }
{
    if held.project.is_none() {
        return Err(Refusal::NoProject);
    }
    let Some(pair) = &held.pair else {
        return Err(Refusal::BlobUnknown);
    };
    touched_by(alloc, stamp, project, digest, pair.size, &held.pair, blob)
}

pub(crate) fn begin(
    alloc: Global,
    stamp: Stamp,
    name: &Name,
    row: &Option<Project>,
) -> Result<Planned, Refusal>
    requires { stamp.moment ≤ LAST_MOMENT }
    ensures fits { Answers (λ r. project_at r (project_of name.now) ≡ row.now) (λ r. begin_over r name.now) stamp.number stamp.moment result }
    ensures stamped { IsStamped stamp.number stamp.moment result }
    ensures own { IsOwn stamp.number result }
{
    match row {
        None => Err(Refusal::NoProject),
        Some(_) => begun(alloc, stamp, name),
    }
}

pub(crate) fn end(
    alloc: Global,
    stamp: Stamp,
    upload: u64,
    row: &Option<Upload>,
) -> Result<Planned, Refusal>
    requires { stamp.moment ≤ LAST_MOMENT }
    ensures fits { Answers (λ r. upload_at r upload ≡ row.now) (λ r. end_over r 0 upload) stamp.number stamp.moment result }
    ensures stamped { IsStamped stamp.number stamp.moment result }
    ensures own { IsOwn stamp.number result }
{
    match row {
        None => Err(Refusal::UploadUnknown),
        Some(_) => ended(alloc, stamp, upload),
    }
}

pub(crate) fn seal(
    alloc: Global,
    stamp: Stamp,
    upload: u64,
    row: &Upload,
    held: &Holding,
    digest: &Digest,
    size: u64,
) -> Result<Planned, Refusal>
    requires { stamp.moment ≤ LAST_MOMENT }
    ensures fits { Answers (λ r. holding_of r (project_of row.now.name) digest.now ≡ held.now) (λ r. seal_over r upload digest.now size (Some row.now)) stamp.number stamp.moment result }
    ensures stamped { IsStamped stamp.number stamp.moment result }
    ensures own { IsOwn stamp.number result }
{
    match seals(upload, row, held, digest, size) {
        Ok(()) => ended(alloc, stamp, upload),
        Err(refusal) => Err(refusal),
    }
}

pub(crate) fn seal_manifest(
    alloc: Global,
    stamp: Stamp,
    upload: u64,
    row: &Option<Upload>,
    put: &PutAsk,
    parts: &Parts,
) -> Result<Planned, Refusal>
    requires { stamp.moment ≤ LAST_MOMENT }
    ensures fits { Answers (λ r. (upload_at r upload ≡ row.now) × (parts_of r (project_of put.now.name) put.now ≡ parts.now)) (λ r. seal_manifest_over r upload put.now) stamp.number stamp.moment result }
    ensures stamped { IsStamped stamp.number stamp.moment result }
    ensures own { IsOwn stamp.number result }
{
    match seals_manifest(upload, row, put, parts) {
        Ok(()) => ended(alloc, stamp, upload),
        Err(refusal) => Err(refusal),
    }
}

pub(crate) fn settle(
    alloc: Global,
    stamp: Stamp,
    name: &Name,
    project: &ProjectName,
    digest: &Digest,
    held: &Holding,
    blob: &Option<Blob>,
    placement: Option<&Placement>,
) -> Result<Planned, Refusal>
    requires project { project.now ≡ project_of name.now }
    requires moment { stamp.moment ≤ LAST_MOMENT }
    ensures fits { Answers (λ r. (holding_of r (project_of name.now) digest.now ≡ held.now) × (blob_at r digest.now ≡ blob.now)) (λ r. refuse (no_project_row r (project_of name.now)) (settle_over r name.now digest.now (option_copied placement.entry))) stamp.number stamp.moment result }
    ensures stamped { IsStamped stamp.number stamp.moment result }
    ensures own { IsOwn stamp.number result }
{
    match settles(name, digest, held, blob, placement) {
        Ok(size) => settled(alloc, stamp, project, digest, size, held),
        Err(refusal) => Err(refusal),
    }
}

// What a reference names, by the rows of its project and of the artifact.
pub(crate) fn look(
    alloc: Global,
    stamp: Stamp,
    project: &Option<Project>,
    row: &Option<Artifact>,
) -> Result<Planned, Refusal>
    ensures fits { (name : List ℕ) (reference : Referring) → Answers (λ r. (project_at r (project_of name) ≡ project.now) × (row_named_by r name reference ≡ row.now)) (λ r. look_over r name reference) stamp.number stamp.moment result }
    ensures stamped { IsStamped stamp.number stamp.moment result }
    ensures own { IsOwn stamp.number result }
{
    if project.is_none() {
        return Err(Refusal::NoProject);
    }
    let Some(row) = row else {
        return Err(Refusal::ManifestUnknown);
    };
    Ok(Planned {
        told: Told::Look {
            digest: row.digest,
            size: row.size,
            media: row.media.copy(alloc)?,
        },
        batch: None,
    })
}

pub(crate) fn pull(
    alloc: Global,
    stamp: Stamp,
    name: &Name,
    digest: &Digest,
    row: &Option<Artifact>,
) -> Result<Planned, Refusal>
    requires { stamp.moment ≤ LAST_MOMENT }
    ensures fits { Answers (λ r. artifact_at r name.now digest.now ≡ row.now) (λ r. pull_over r name.now digest.now) stamp.number stamp.moment result }
    ensures stamped { IsStamped stamp.number stamp.moment result }
    ensures own { IsOwn stamp.number result }
{
    if row.is_none() {
        return Ok(Planned {
            told: Told::Nothing,
            batch: None,
        });
    }
    pulled_by(alloc, stamp, name, digest, row)
}
