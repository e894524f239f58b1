//! The batches of the entries that asks make.
ghost use Rattle.std.specs.Prelude.{◌≡◌, ◌≤◌, ◌++◌, ◌∷◌, IfOk, IfSome, OnOk};
ghost use Rattle.hb_text.specs.Names.{project_of};
ghost use Rattle.hb_records.specs.Entries.{LAST_MOMENT};
ghost use Rattle.hb_records.specs.declared.entries.EntryKind.TheVariants as entry;
ghost use Rattle.hb_rows.specs.Tables.{Tables, artifact_at, blob_at, pair_at};
ghost use Rattle.hb_model.specs.Changes.{changes_of};
ghost use Rattle.hb_model.specs.ContentChanges.{associate_changes};
ghost use Rattle.hb_model.specs.ArtifactChanges.{artifact_change, tag_changes, put_changes};
ghost use Rattle.hb_keeper.specs.Keeps.{KeepCause};
ghost use Rattle.hb_desk.specs.declared.told.Told.TheVariants as told;
ghost use Rattle.hb_plan.specs.Findings.{holding_of};
ghost use Rattle.hb_plan.specs.Plans.{Commits, IsStamped, IsOwn};

use crate::deciding::has_room;
use crate::finding::touch_others;
use crate::planned::{Holding, Planned};
use hb_desk::{Refusal, Told};
use hb_keeper::{KeepFault, Keeper};
use hb_model::changes::{
    Stamp, artifact_pushed, associated, pulled, tag_put, touched, upload_begun, upload_ended,
};
use hb_records::{
    Artifact, Assoc, Batch, Blob, ChangeList, Entry, EntryKind, MAX_ENTRIES, Memory, PutAsk,
};
use hb_text::{Digest, Duplicate, Name, ProjectName, Tag};
use std::alloc::Global;

// What is told, and the batch of an entry, where the audit has room for it.
fn planned(
    told: Told,
    stamp: Stamp,
    kind: EntryKind,
    changes: ChangeList,
) -> Result<Planned, Refusal>
    requires { stamp.moment ≤ LAST_MOMENT }
    ensures fits { Commits (λ r. changes ≡ changes_of r (record { number = stamp.number; moment = stamp.moment; kind = kind })) told kind stamp.number stamp.moment result }
    ensures stamped { IsStamped stamp.number stamp.moment result }
    ensures own { IsOwn stamp.number result }
{
    if stamp.number > MAX_ENTRIES {
        return Err(Refusal::Spent);
    }
    let entry = Entry {
        number: stamp.number,
        moment: stamp.moment,
        kind,
    };
    Ok(Planned {
        told,
        batch: Some(Batch { changes, entry }),
    })
}

// An upload begins.
pub(crate) fn begun(alloc: Global, stamp: Stamp, name: &Name) -> Result<Planned, Refusal>
    requires { stamp.moment ≤ LAST_MOMENT }
    ensures fits { Commits (λ r. Unit {0}) (told.Begun stamp.number) (entry.UploadBegun name.now) stamp.number stamp.moment result }
    ensures stamped { IsStamped stamp.number stamp.moment result }
    ensures own { IsOwn stamp.number result }
{
    let changes = upload_begun(alloc, stamp, name)?;
    let kind = EntryKind::UploadBegun {
        name: name.copy(alloc)?,
    };
    let told = Told::Begun {
        upload: stamp.number,
    };
    planned(told, stamp, kind, changes)
}

// An upload ends, by its client.
pub(crate) fn ended(alloc: Global, stamp: Stamp, upload: u64) -> Result<Planned, Refusal>
    requires { stamp.moment ≤ LAST_MOMENT }
    ensures fits { Commits (λ r. Unit {0}) told.Done (entry.UploadEnded 0 upload) stamp.number stamp.moment result }
    ensures stamped { IsStamped stamp.number stamp.moment result }
    ensures own { IsOwn stamp.number result }
{
    let changes = upload_ended(alloc, upload)?;
    let kind = EntryKind::UploadEnded { job: 0, upload };
    planned(Told::Done, stamp, kind, changes)
}

// The changes by which a project gets a digest. Memory comes also where what it uses has no room in its type.
fn association(
    alloc: Global,
    stamp: Stamp,
    project: &ProjectName,
    digest: &Digest,
    size: u64,
    held: &Holding,
) -> Result<ChangeList, Memory>
    ensures { (r : Tables) → holding_of r project.now digest.now ≡ held.now
        → IfOk result (λ made. made ≡ associate_changes stamp.number stamp.moment project.now digest.now size r) }
{
    if let Some(row) = &held.project
        && !has_room(row, size)
    {
        return Err(Memory);
    }
    let row = held.project.as_ref();
    associated(alloc, stamp, project, digest, size, row, held.pair.as_ref())
}

// A blob of a project is touched, by the rows of both. It has this size.
pub(crate) fn touched_by(
    alloc: Global,
    stamp: Stamp,
    project: &ProjectName,
    digest: &Digest,
    size: u64,
    pair: &Option<Assoc>,
    blob: &Option<Blob>,
) -> Result<Planned, Refusal>
    requires { stamp.moment ≤ LAST_MOMENT }
    ensures fits { Commits (λ r. (pair_at r project.now digest.now ≡ pair.now) × (blob_at r digest.now ≡ blob.now)) (told.Blob size) (entry.Touched project.now digest.now) stamp.number stamp.moment result }
    ensures stamped { IsStamped stamp.number stamp.moment result }
    ensures own { IsOwn stamp.number result }
{
    let changes = touched(alloc, stamp, pair.as_ref(), blob.as_ref())?;
    let kind = EntryKind::Touched {
        project: project.copy(alloc)?,
        digest: *digest,
    };
    planned(Told::Blob { size }, stamp, kind, changes)
}

// A project gets what was placed.
pub(crate) fn settled(
    alloc: Global,
    stamp: Stamp,
    project: &ProjectName,
    digest: &Digest,
    size: u64,
    held: &Holding,
) -> Result<Planned, Refusal>
    requires { stamp.moment ≤ LAST_MOMENT }
    ensures fits { Commits (λ r. holding_of r project.now digest.now ≡ held.now) told.Done (entry.Associated project.now digest.now size) stamp.number stamp.moment result }
    ensures stamped { IsStamped stamp.number stamp.moment result }
    ensures own { IsOwn stamp.number result }
{
    let changes = association(alloc, stamp, project, digest, size, held)?;
    let kind = EntryKind::Associated {
        project: project.copy(alloc)?,
        digest: *digest,
        size,
    };
    planned(Told::Done, stamp, kind, changes)
}

// The changes of a put, and what it touches is read.
pub(crate) fn put_changes_of<K: Keeper>(
    alloc: Global,
    keeper: &mut K,
    stamp: Stamp,
    project: &ProjectName,
    put: &PutAsk,
    size: u64,
    held: &Holding,
) -> Result<ChangeList, KeepFault>
    ensures told { IfSome (K.rows keeper.old) (λ r. project.now ≡ project_of put.now.name → holding_of r project.now put.now.digest ≡ held.now
        → IfOk result (λ made. made ≡ put_changes stamp.number stamp.moment put.now.name put.now.digest size put.now.media put.now.refs put.now.children put.now.tag r)) }
    ensures rows { K.rows keeper.new ≡ K.rows keeper.old }
    ensures cause { KeepCause (K.faults keeper.old) (K.faults keeper.new) result }
{
    let mut made = association(alloc, stamp, project, &put.digest, size, held)?;
    touch_others(
        alloc,
        keeper,
        &mut made,
        stamp,
        project,
        &put.digest,
        put.refs.as_slice(),
    )?;
    let row = keeper.artifact(&put.name, &put.digest)?;
    push_artifact(alloc, &mut made, stamp, put, size, &row)?;
    Ok(made)
}

// Adds the artifact of a put and its tag.
fn push_artifact(
    alloc: Global,
    made: &mut ChangeList,
    stamp: Stamp,
    put: &PutAsk,
    size: u64,
    row: &Option<Artifact>,
) -> Result<(), Memory>
    ensures { OnOk result (made.new ≡ made.old ++ artifact_change stamp.number stamp.moment put.now.name put.now.digest size put.now.media put.now.refs put.now.children row.now ∷ tag_changes stamp.number stamp.moment put.now.name put.now.digest put.now.tag) }
{
    let change = artifact_pushed(
        alloc,
        stamp,
        &put.name,
        &put.digest,
        size,
        &put.media,
        &put.refs,
        &put.children,
        row.as_ref(),
    )?;
    made.push(change)?;
    tag_put(alloc, made, stamp, &put.name, &put.digest, &put.tag)
}

fn copy_tag(alloc: Global, tag: &Option<Tag>) -> Result<Option<Tag>, Memory>
    ensures { IfOk result (λ made. made ≡ tag.now) }
{
    match tag {
        Some(tag) => Ok(Some(tag.copy(alloc)?)),
        None => Ok(None),
    }
}

fn put_kind(alloc: Global, put: &PutAsk, size: u64) -> Result<EntryKind, Memory>
    ensures { IfOk result (λ kind. kind ≡ entry.ArtifactPut put.now.name put.now.digest size put.now.media put.now.refs put.now.children put.now.tag) }
{
    Ok(EntryKind::ArtifactPut {
        name: put.name.copy(alloc)?,
        digest: put.digest,
        size,
        media: put.media.copy(alloc)?,
        refs: put.refs.copy(alloc)?,
        children: put.children.copy(alloc)?,
        tag: copy_tag(alloc, &put.tag)?,
    })
}

// A manifest is put, by these changes.
pub(crate) fn put_by(
    alloc: Global,
    stamp: Stamp,
    put: &PutAsk,
    size: u64,
    changes: ChangeList,
) -> Result<Planned, Refusal>
    requires { stamp.moment ≤ LAST_MOMENT }
    ensures fits { Commits (λ r. changes ≡ put_changes stamp.number stamp.moment put.now.name put.now.digest size put.now.media put.now.refs put.now.children put.now.tag r) told.Done (entry.ArtifactPut put.now.name put.now.digest size put.now.media put.now.refs put.now.children put.now.tag) stamp.number stamp.moment result }
    ensures stamped { IsStamped stamp.number stamp.moment result }
    ensures own { IsOwn stamp.number result }
{
    let kind = put_kind(alloc, put, size)?;
    planned(Told::Done, stamp, kind, changes)
}

// An artifact was pulled, by its row.
pub(crate) fn pulled_by(
    alloc: Global,
    stamp: Stamp,
    name: &Name,
    digest: &Digest,
    row: &Option<Artifact>,
) -> Result<Planned, Refusal>
    requires { stamp.moment ≤ LAST_MOMENT }
    ensures fits { Commits (λ r. artifact_at r name.now digest.now ≡ row.now) told.Done (entry.Pulled name.now digest.now) stamp.number stamp.moment result }
    ensures stamped { IsStamped stamp.number stamp.moment result }
    ensures own { IsOwn stamp.number result }
{
    let changes = pulled(alloc, stamp, row.as_ref())?;
    let kind = EntryKind::Pulled {
        name: name.copy(alloc)?,
        digest: *digest,
    };
    planned(Told::Done, stamp, kind, changes)
}
