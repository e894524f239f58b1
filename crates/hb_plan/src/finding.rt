//! What an ask finds in a keeper's rows.
ghost use Rattle.std.specs.Prelude.{◌≡◌, ◌++◌, ℕ, List, is_some, IfOk, IfErr, IfSome, IsErrOf, OnOk, option_and_then};
ghost use Rattle.std.specs.List.{find, flat_map};
ghost use Rattle.hb_rows.specs.Tables.{Tables, pair_at, blob_at, artifact_at, tag_at};
ghost use Rattle.hb_model.specs.ArtifactEffects.{other_refs};
ghost use Rattle.hb_model.specs.ContentChanges.{touch_changes};
ghost use Rattle.hb_keeper.specs.Keeps.{KeepCause, Reads};
ghost use Rattle.hb_desk.specs.Notes.{is_placement};
ghost use Rattle.hb_desk.specs.declared.refusals.Refusal.TheVariants.{Keeper as KeeperFailed};
ghost use Rattle.std.specs.Option.{option_copied};
ghost use Rattle.hb_plan.specs.Findings.{holding_of, first_missing_ref, first_missing_child, parts_of};
ghost use Rattle.hb_plan.specs.Plans.{IsPlanFault};
ghost use Rattle.hb_plan.specs.RowReplies.{row_named_by};

use crate::planned::{Holding, Parts};
use hb_desk::Refusal;
use hb_keeper::{KeepFault, Keeper};
use hb_model::changes::{Stamp, touch};
use hb_records::{Artifact, Assoc, Blob, ChangeList, Memory, Placement, PutAsk};
use hb_text::{Digest, Name, ProjectName, Reference, Tag};
use std::alloc::Global;

// The answer of a keeper, with its fault as a refusal.
pub(crate) fn told<T>(answer: Result<T, KeepFault>) -> Result<T, Refusal>
    ensures ok { IfOk result (λ x. answer ≡ Ok x) }
    ensures fault { IfErr result IsPlanFault }
    ensures keeper { IsErrOf result KeeperFailed → IsErrOf answer KeepFault.Failed }
{
    match answer {
        Ok(found) => Ok(found),
        Err(KeepFault::Failed) => Err(Refusal::Keeper),
        Err(KeepFault::Memory) => Err(Refusal::Memory),
    }
}

// The upload's placement of this digest.
pub(crate) fn placement_of<'a>(
    placements: &'a [Placement],
    upload: u64,
    digest: &Digest,
) -> Option<&'a Placement>
    ensures { option_copied result ≡ find (is_placement upload digest.now) placements.now }
{
    for placement in placements {
        if upload == placement.upload && digest.cmp(&placement.digest).is_eq() {
            return Some(placement);
        }
    }
    None
}

pub(crate) fn holding<K: Keeper>(
    keeper: &mut K,
    project: &ProjectName,
    digest: &Digest,
) -> Result<Holding, KeepFault>
    ensures told { Reads (K.rows keeper.old) result (λ t. holding_of t project.now digest.now) }
    ensures rows { K.rows keeper.new ≡ K.rows keeper.old }
    ensures cause { KeepCause (K.faults keeper.old) (K.faults keeper.new) result }
{
    Ok(Holding {
        project: keeper.project(project)?,
        pair: keeper.pair(project, digest)?,
    })
}

fn has_pair<K: Keeper>(
    keeper: &mut K,
    project: &ProjectName,
    digest: &Digest,
) -> Result<bool, KeepFault>
    ensures told { Reads (K.rows keeper.old) result (λ t. is_some (pair_at t project.now digest.now)) }
    ensures rows { K.rows keeper.new ≡ K.rows keeper.old }
    ensures cause { KeepCause (K.faults keeper.old) (K.faults keeper.new) result }
{
    Ok(keeper.pair(project, digest)?.is_some())
}

fn has_artifact<K: Keeper>(keeper: &mut K, name: &Name, digest: &Digest) -> Result<bool, KeepFault>
    ensures told { Reads (K.rows keeper.old) result (λ t. is_some (artifact_at t name.now digest.now)) }
    ensures rows { K.rows keeper.new ≡ K.rows keeper.old }
    ensures cause { KeepCause (K.faults keeper.old) (K.faults keeper.new) result }
{
    Ok(keeper.artifact(name, digest)?.is_some())
}

// The artifact that the tag names in the repository.
fn artifact_by_tag<K: Keeper>(
    keeper: &mut K,
    name: &Name,
    tag: &Tag,
) -> Result<Option<Artifact>, KeepFault>
    ensures told { Reads (K.rows keeper.old) result (λ t. option_and_then (λ row. artifact_at t name.now row.digest) (tag_at t name.now tag.now)) }
    ensures rows { K.rows keeper.new ≡ K.rows keeper.old }
    ensures cause { KeepCause (K.faults keeper.old) (K.faults keeper.new) result }
{
    match keeper.tag(name, tag)? {
        Some(row) => keeper.artifact(name, &row.digest),
        None => Ok(None),
    }
}

/// The row of the artifact that the reference names in the repository. It takes one look-up for a digest, and two for a
/// tag.
pub fn find_artifact<K: Keeper>(
    keeper: &mut K,
    name: &Name,
    reference: &Reference,
) -> Result<Option<Artifact>, KeepFault>
    ensures told { Reads (K.rows keeper.old) result (λ t. row_named_by t name.now reference.now) }
    ensures rows { K.rows keeper.new ≡ K.rows keeper.old }
    ensures cause { KeepCause (K.faults keeper.old) (K.faults keeper.new) result }
{
    match reference {
        Reference::Tag(tag) => artifact_by_tag(keeper, name, tag),
        Reference::Digest(digest) => keeper.artifact(name, digest),
    }
}

// The first reference that the project hasn't.
fn missing_ref<K: Keeper>(
    keeper: &mut K,
    project: &ProjectName,
    refs: &[Digest],
) -> Result<Option<Digest>, KeepFault>
    ensures told { Reads (K.rows keeper.old) result (λ t. first_missing_ref t project.now refs.now) }
    ensures rows { K.rows keeper.new ≡ K.rows keeper.old }
    ensures cause { KeepCause (K.faults keeper.old) (K.faults keeper.new) result }
{
    for reference in refs {
        if !has_pair(keeper, project, reference)? {
            return Ok(Some(*reference));
        }
    }
    Ok(None)
}

// The first child that the repository hasn't.
fn missing_child<K: Keeper>(
    keeper: &mut K,
    name: &Name,
    children: &[Digest],
) -> Result<Option<Digest>, KeepFault>
    ensures told { Reads (K.rows keeper.old) result (λ t. first_missing_child t name.now children.now) }
    ensures rows { K.rows keeper.new ≡ K.rows keeper.old }
    ensures cause { KeepCause (K.faults keeper.old) (K.faults keeper.new) result }
{
    for child in children {
        if !has_artifact(keeper, name, child)? {
            return Ok(Some(*child));
        }
    }
    Ok(None)
}

// What a manifest is decided by.
pub(crate) fn parts<K: Keeper>(
    keeper: &mut K,
    project: &ProjectName,
    put: &PutAsk,
) -> Result<Parts, KeepFault>
    ensures told { Reads (K.rows keeper.old) result (λ t. parts_of t project.now put.now) }
    ensures rows { K.rows keeper.new ≡ K.rows keeper.old }
    ensures cause { KeepCause (K.faults keeper.old) (K.faults keeper.new) result }
{
    Ok(Parts {
        missing_ref: missing_ref(keeper, project, put.refs.as_slice())?,
        missing_child: missing_child(keeper, &put.name, put.children.as_slice())?,
        held: holding(keeper, project, &put.digest)?,
    })
}

// Adds the touch of a digest by its rows.
fn touch_found(
    alloc: Global,
    made: &mut ChangeList,
    stamp: Stamp,
    pair: &Option<Assoc>,
    blob: &Option<Blob>,
) -> Result<(), Memory>
    ensures { (t : Tables) (project : List ℕ) (digest : Digest) → pair_at t project digest ≡ pair.now → blob_at t digest ≡ blob.now
        → OnOk result (made.new ≡ made.old ++ touch_changes stamp.number stamp.moment project t digest) }
{
    touch(alloc, made, stamp, pair.as_ref(), blob.as_ref())
}

// Adds the touch of a digest.
fn touch_one<K: Keeper>(
    alloc: Global,
    keeper: &mut K,
    made: &mut ChangeList,
    stamp: Stamp,
    project: &ProjectName,
    digest: &Digest,
) -> Result<(), KeepFault>
    ensures told { IfSome (K.rows keeper.old) (λ t. OnOk result (made.new ≡ made.old ++ touch_changes stamp.number stamp.moment project.now t digest.now)) }
    ensures rows { K.rows keeper.new ≡ K.rows keeper.old }
    ensures cause { KeepCause (K.faults keeper.old) (K.faults keeper.new) result }
{
    let pair = keeper.pair(project, digest)?;
    let blob = keeper.blob(digest)?;
    touch_found(alloc, made, stamp, &pair, &blob)?;
    Ok(())
}

// Adds the touches of a manifest's references, in order. The association of its own digest touches that one.
pub(crate) fn touch_others<K: Keeper>(
    alloc: Global,
    keeper: &mut K,
    made: &mut ChangeList,
    stamp: Stamp,
    project: &ProjectName,
    digest: &Digest,
    refs: &[Digest],
) -> Result<(), KeepFault>
    ensures told { IfSome (K.rows keeper.old) (λ t. OnOk result (made.new ≡ made.old ++ flat_map (touch_changes stamp.number stamp.moment project.now t) (other_refs digest.now refs.now))) }
    ensures rows { K.rows keeper.new ≡ K.rows keeper.old }
    ensures cause { KeepCause (K.faults keeper.old) (K.faults keeper.new) result }
{
    for reference in refs {
        if !digest.cmp(reference).is_eq() {
            touch_one(alloc, keeper, made, stamp, project, reference)?;
        }
    }
    Ok(())
}
