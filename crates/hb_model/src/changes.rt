//! The changes by which a batch makes an entry's effect, of rows that were looked up.
//!
//! Each function is handed the rows that its entry reads, wherever they were found, and gives the changes of
//! `specs/Changes` for every tables that have these rows. [`changes_of`] looks them up in [`Rows`].
ghost use Rattle.std.specs.Prelude.{◌≡◌, ◌<◌, ◌+◌, ◌^◌, ◌++◌, [], ◌∷◌, ℕ, not, List, is_some, IfOk, IfSome, OnErr, OnOk};
ghost use Rattle.std.specs.List.{flat_map};
ghost use Rattle.std.specs.Option.{option_copied};
ghost use Rattle.hb_text.specs.Names.{project_of};
ghost use Rattle.hb_rows.specs.Tables.{Tables, project_at, blob_at, pair_at, artifact_at};
ghost use Rattle.hb_records.specs.declared.batches.Change.TheVariants.{Set, Drop};
ghost use Rattle.hb_records.specs.declared.batches.Row.TheVariants as row;
ghost use Rattle.hb_records.specs.declared.keys.Key.TheVariants as key;
ghost use Rattle.hb_records.specs.declared.entries.EntryKind.TheVariants.{Pulled};
ghost use Rattle.hb_model.specs.Changes.{changes, changes_of as changes_of_entry};
ghost use Rattle.hb_model.specs.ContentChanges.{used_changes, associate_changes, touch_changes};
ghost use Rattle.hb_model.specs.ArtifactChanges.{artifact_change, tag_changes, put_changes};
ghost use Rattle.hb_model.specs.Words.{same_digest};
ghost use Rattle.hb_model.specs.ArtifactEffects.{other_refs};
ghost use Rattle.hb_model.specs.ProjectEffects.{new_project};
ghost use Rattle.hb_model.specs.Built.{is_built, HasRoom};

use crate::names::project_name;
use hb_base::Listed;
use hb_records::{
    Artifact, Assoc, Blob, Change, ChangeList, DigestList, Entry, EntryKind, ImmuteList, Key,
    Memory, Project, RetainList, Row, Rules, Status, TagRow, Upload,
};
use hb_rows::Rows;
use hb_text::{Digest, Duplicate, Name, ProjectName, Tag, Text};
use std::alloc::Global;

/// The number and the moment of the entry whose changes are made. The number is the version of each row that
/// it makes or changes.
#[derive(Clone, Copy, Debug, PartialEq, Eq)]
pub struct Stamp {
    pub number: u64,
    pub moment: u64,
}

fn no_rules(alloc: Global) -> Rules
    ensures { result ≡ record { immutes = []; retains = [] } }
{
    Rules {
        immutes: ImmuteList::of(Listed::new(alloc)),
        retains: RetainList::of(Listed::new(alloc)),
    }
}

fn one(alloc: Global, change: Change) -> Result<ChangeList, Memory>
    ensures { IfOk result (λ made. made ≡ change ∷ []) }
{
    let mut made = Listed::new(alloc);
    made.push(change)?;
    Ok(made)
}

/// A project is made, with nothing used and no rules.
pub fn project_made(
    alloc: Global,
    stamp: Stamp,
    project: &ProjectName,
    limit: i64,
) -> Result<ChangeList, Memory>
    ensures { IfOk result (λ made. made ≡ Set (row.Project (new_project stamp.number project.now limit)) ∷ []) }
{
    let row = Project {
        name: project.copy(alloc)?,
        limit,
        used: 0,
        rules: no_rules(alloc),
        version: stamp.number,
    };
    one(alloc, Change::Set(Row::Project(row)))
}

/// An upload begins, with the entry's number as its id.
pub fn upload_begun(alloc: Global, stamp: Stamp, name: &Name) -> Result<ChangeList, Memory>
    ensures { IfOk result (λ made. made ≡ Set (row.Upload (record { id = stamp.number; name = name.now; offset = 0; touched = stamp.moment; version = stamp.number })) ∷ []) }
{
    let row = Upload {
        id: stamp.number,
        name: name.copy(alloc)?,
        offset: 0,
        touched: stamp.moment,
        version: stamp.number,
    };
    one(alloc, Change::Set(Row::Upload(row)))
}

/// An upload ends.
pub fn upload_ended(alloc: Global, upload: u64) -> Result<ChangeList, Memory>
    ensures { IfOk result (λ made. made ≡ Drop (key.Upload upload) ∷ []) }
{
    one(alloc, Change::Drop(Key::Upload { id: upload }))
}

// What a new pair adds to its project, where that changes what is used.
fn use_more(
    alloc: Global,
    made: &mut ChangeList,
    stamp: Stamp,
    row: Option<&Project>,
    size: u64,
) -> Result<(), Memory>
    requires room { IfSome row (λ r. r.now.used + size < 2 ^ 128) }
    ensures { OnOk result (made.new ≡ made.old ++ used_changes stamp.number (λ used. used + size) (option_copied row.entry)) }
{
    let Some(row) = row else {
        return Ok(());
    };
    if size == 0 {
        return Ok(());
    }
    let mut row = row.copy(alloc)?;
    row.used += u128::from(size);
    row.version = stamp.number;
    made.push(Change::Set(Row::Project(row)))
}

fn idle_row(stamp: Stamp, digest: &Digest, size: u64) -> Row
    ensures { result ≡ row.Blob (record { digest = digest.now; size = size; status = Status.Idle; version = stamp.number; touched = stamp.moment; bar = 0 }) }
{
    Row::Blob(Blob {
        digest: *digest,
        size,
        status: Status::Idle,
        version: stamp.number,
        touched: stamp.moment,
        bar: 0,
    })
}

/// A project gets a digest: the pair is made and counts in what the project uses, or is touched where it is
/// there, and the blob is stored. The project's use stays below 2^128.
pub fn associated(
    alloc: Global,
    stamp: Stamp,
    project: &ProjectName,
    digest: &Digest,
    size: u64,
    row: Option<&Project>,
    pair: Option<&Assoc>,
) -> Result<ChangeList, Memory>
    requires room { IfSome row (λ r. r.now.used + size < 2 ^ 128) }
    ensures { (t : Tables) → project_at t project.now ≡ option_copied row.entry → pair_at t project.now digest.now ≡ option_copied pair.entry
        → IfOk result (λ made. made ≡ associate_changes stamp.number stamp.moment project.now digest.now size t) }
{
    let mut made = Listed::new(alloc);
    if let Some(pair) = pair {
        let mut pair = pair.copy(alloc)?;
        pair.touched = stamp.moment;
        made.push(Change::Set(Row::Pair(pair)))?;
    } else {
        let pair = Assoc {
            project: project.copy(alloc)?,
            digest: *digest,
            size,
            touched: stamp.moment,
        };
        made.push(Change::Set(Row::Pair(pair)))?;
        use_more(alloc, &mut made, stamp, row, size)?;
    }
    made.push(Change::Set(idle_row(stamp, digest, size)))?;
    Ok(made)
}

/// A digest is touched: its pair, and its blob.
pub fn touch(
    alloc: Global,
    made: &mut ChangeList,
    stamp: Stamp,
    pair: Option<&Assoc>,
    blob: Option<&Blob>,
) -> Result<(), Memory>
    ensures { (t : Tables) (project : List ℕ) (digest : Digest) → pair_at t project digest ≡ option_copied pair.entry → blob_at t digest ≡ option_copied blob.entry
        → OnOk result (made.new ≡ made.old ++ touch_changes stamp.number stamp.moment project t digest) }
{
    if let Some(row) = pair {
        let mut row = row.copy(alloc)?;
        row.touched = stamp.moment;
        made.push(Change::Set(Row::Pair(row)))?;
    }
    if let Some(row) = blob {
        let mut row = *row;
        row.touched = stamp.moment;
        row.version = stamp.number;
        made.push(Change::Set(Row::Blob(row)))?;
    }
    Ok(())
}

/// A project's digest is touched: its pair and its blob, where they are there.
pub fn touched(
    alloc: Global,
    stamp: Stamp,
    pair: Option<&Assoc>,
    blob: Option<&Blob>,
) -> Result<ChangeList, Memory>
    ensures { (t : Tables) (project : List ℕ) (digest : Digest) → pair_at t project digest ≡ option_copied pair.entry → blob_at t digest ≡ option_copied blob.entry
        → IfOk result (λ made. made ≡ touch_changes stamp.number stamp.moment project t digest) }
{
    let mut made = Listed::new(alloc);
    touch(alloc, &mut made, stamp, pair, blob)?;
    Ok(made)
}

fn new_artifact(
    alloc: Global,
    stamp: Stamp,
    name: &Name,
    digest: &Digest,
    size: u64,
    media: &Text,
    refs: &DigestList,
    children: &DigestList,
) -> Result<Artifact, Memory>
    ensures { IfOk result (λ made. made ≡ record { name = name.now; digest = digest.now; size = size; media = media.now; refs = refs.now; children = children.now; pushed = stamp.moment; pulled = 0; version = stamp.number }) }
{
    Ok(Artifact {
        name: name.copy(alloc)?,
        digest: *digest,
        size,
        media: media.copy(alloc)?,
        refs: refs.copy(alloc)?,
        children: children.copy(alloc)?,
        pushed: stamp.moment,
        pulled: 0,
        version: stamp.number,
    })
}

/// The artifact of a manifest is made, never pulled, or kept and pushed again: a kept one keeps its size, its
/// media type, its references and its children.
pub fn artifact_pushed(
    alloc: Global,
    stamp: Stamp,
    name: &Name,
    digest: &Digest,
    size: u64,
    media: &Text,
    refs: &DigestList,
    children: &DigestList,
    row: Option<&Artifact>,
) -> Result<Change, Memory>
    ensures { IfOk result (λ made. made ≡ artifact_change stamp.number stamp.moment name.now digest.now size media.now refs.now children.now (option_copied row.entry)) }
{
    let row = match row {
        Some(row) => {
            let mut row = row.copy(alloc)?;
            row.pushed = stamp.moment;
            row.version = stamp.number;
            row
        }
        None => new_artifact(alloc, stamp, name, digest, size, media, refs, children)?,
    };
    Ok(Change::Set(Row::Artifact(row)))
}

/// The tag, where there is one, names the digest.
pub fn tag_put(
    alloc: Global,
    made: &mut ChangeList,
    stamp: Stamp,
    name: &Name,
    digest: &Digest,
    tag: &Option<Tag>,
) -> Result<(), Memory>
    ensures made { OnOk result (made.new ≡ made.old ++ tag_changes stamp.number stamp.moment name.now digest.now tag.now) }
    ensures err { OnErr result (made.new ≡ made.old) }
{
    let Some(tag) = tag else {
        return Ok(());
    };
    let row = TagRow {
        name: name.copy(alloc)?,
        tag: tag.copy(alloc)?,
        digest: *digest,
        pushed: stamp.moment,
        version: stamp.number,
    };
    made.push(Change::Set(Row::Tag(row)))
}

/// An artifact is pulled, where it is there.
pub fn pulled(alloc: Global, stamp: Stamp, row: Option<&Artifact>) -> Result<ChangeList, Memory>
    ensures { (t : Tables) (name : List ℕ) (digest : Digest) → artifact_at t name digest ≡ option_copied row.entry
        → IfOk result (λ made. made ≡ changes stamp.number stamp.moment (Pulled name digest) t) }
{
    let Some(row) = row else {
        return Ok(Listed::new(alloc));
    };
    let mut row = row.copy(alloc)?;
    row.pulled = stamp.moment;
    row.version = stamp.number;
    one(alloc, Change::Set(Row::Artifact(row)))
}

// Whether a reference is another digest than the manifest's own, which the association touches already.
fn is_other(digest: &Digest, reference: &Digest) -> bool
    ensures { result ≡ not (same_digest digest.now reference.now) }
{
    !digest.cmp(reference).is_eq()
}

// The touches of a manifest's references, in order.
fn touch_others(
    alloc: Global,
    made: &mut ChangeList,
    rows: &Rows,
    stamp: Stamp,
    project: &ProjectName,
    digest: &Digest,
    refs: &[Digest],
) -> Result<(), Memory>
    ensures { OnOk result (made.new ≡ made.old ++ flat_map (touch_changes stamp.number stamp.moment project.now rows.now) (other_refs digest.now refs.now)) }
{
    for reference in refs {
        if is_other(digest, reference) {
            let pair = rows.pair(project, reference);
            touch(alloc, made, stamp, pair, rows.blob(reference))?;
        }
    }
    Ok(())
}

// The changes of a put: the association, the touches, the artifact, and its tag.
fn artifact_put(
    alloc: Global,
    rows: &Rows,
    stamp: Stamp,
    name: &Name,
    digest: &Digest,
    size: u64,
    media: &Text,
    refs: &DigestList,
    children: &DigestList,
    tag: &Option<Tag>,
) -> Result<ChangeList, Memory>
    requires room { IfSome (project_at rows.now (project_of name.now)) (λ r. r.used + size < 2 ^ 128) }
    ensures { IfOk result (λ made. made ≡ put_changes stamp.number stamp.moment name.now digest.now size media.now refs.now children.now tag.now rows.now) }
{
    let project = project_name(alloc, name)?;
    let row = rows.project(&project);
    let pair = rows.pair(&project, digest);
    let mut made = associated(alloc, stamp, &project, digest, size, row, pair)?;
    touch_others(
        alloc,
        &mut made,
        rows,
        stamp,
        &project,
        digest,
        refs.as_slice(),
    )?;
    let row = rows.artifact(name, digest);
    made.push(artifact_pushed(alloc, stamp, name, digest, size, media, refs, children, row)?)?;
    tag_put(alloc, &mut made, stamp, name, digest, tag)?;
    Ok(made)
}

/// The changes that an entry makes of these rows, or None where its kind isn't built.
pub fn changes_of(alloc: Global, rows: &Rows, entry: &Entry) -> Result<Option<ChangeList>, Memory>
    requires room { HasRoom rows.now entry.now.kind }
    ensures built { IfOk result (λ found. is_some found ≡ is_built entry.now.kind) }
    ensures changes { IfOk result (λ found. IfSome found (λ made. made ≡ changes_of_entry rows.now entry.now)) }
{
    let stamp = Stamp {
        number: entry.number,
        moment: entry.moment,
    };
    match &entry.kind {
        EntryKind::ProjectMade { project, limit } => {
            Ok(Some(project_made(alloc, stamp, project, *limit)?))
        }
        EntryKind::UploadBegun { name } => Ok(Some(upload_begun(alloc, stamp, name)?)),
        EntryKind::UploadEnded { job: _, upload } => Ok(Some(upload_ended(alloc, *upload)?)),
        EntryKind::Associated {
            project,
            digest,
            size,
        } => {
            let row = rows.project(project);
            let pair = rows.pair(project, digest);
            Ok(Some(associated(alloc, stamp, project, digest, *size, row, pair)?))
        }
        EntryKind::Touched { project, digest } => {
            let pair = rows.pair(project, digest);
            Ok(Some(touched(alloc, stamp, pair, rows.blob(digest))?))
        }
        EntryKind::ArtifactPut {
            name,
            digest,
            size,
            media,
            refs,
            children,
            tag,
        } => Ok(Some(artifact_put(
            alloc, rows, stamp, name, digest, *size, media, refs, children, tag,
        )?)),
        EntryKind::Pulled { name, digest } => {
            Ok(Some(pulled(alloc, stamp, rows.artifact(name, digest))?))
        }
        _ => Ok(None),
    }
}
