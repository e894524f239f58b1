//! Rows that don't fit their audit, one table after the other, each at its first place and behind its last.
ghost use Rattle.std.specs.Prelude.{◌≡◌, ◌≤◌, ◌<◌, ◌+◌, ◌^◌, true, IfOk, IfSome};
ghost use Rattle.std.specs.Option.{option_copied};
ghost use Rattle.hb_model.specs.Built.{HasRoom};

use hb_model::changes::changes_of;
use hb_model::names::project_name;
use hb_model::{Misfit, fit};
use hb_records::{
    Artifact, Assoc, Batch, Blob, Candidate, Change, ChangeList, DigestList, Entry, EntryKind,
    ImmuteList, JobKind, JobRow, Key, Listed, Memory, Name, Phase, Project, ProjectName,
    RetainList, Row, Rules, SnapTag, Status, Table, Tag, TagRow, TagVerdict, Text, Upload, Verdict,
};
use hb_rows::Rows;
use hb_text::{Digest, Duplicate};
use std::alloc::Global;
use std::test::Fail;

// ---- the rows of a small log

fn digest(byte: u8) -> Digest {
    Digest([byte; 32])
}

fn entry(number: u64, moment: u64, kind: EntryKind) -> Entry
    requires number { number ≤ 300 }
    requires moment { moment ≤ 300 }
{
    Entry {
        number,
        moment,
        kind,
    }
}

// Whether the bytes go into the row of a project that uses little, as all projects of these tests do.
fn takes(row: Option<&Project>, size: u64) -> bool
    ensures { result ≡ true → IfSome (option_copied row.entry) (λ r. r.used + size < 2 ^ 128) }
{
    match row {
        Some(row) => row.used < 1000,
        None => size < u64::MAX,
    }
}

fn has_room(alloc: Global, rows: &Rows, kind: &EntryKind) -> Result<bool, Memory>
    ensures { IfOk result (λ b. b ≡ true → HasRoom rows.now kind.now) }
{
    match kind {
        EntryKind::Associated { project, size, .. } => Ok(takes(rows.project(project), *size)),
        EntryKind::ArtifactPut { name, size, .. } => {
            let project = project_name(alloc, name)?;
            Ok(takes(rows.project(&project), *size))
        }
        _ => Ok(true),
    }
}

// The changes of an entry of a kind that is built.
fn made_by(alloc: Global, rows: &Rows, entry: &Entry) -> Result<ChangeList, Fail> {
    if !has_room(alloc, rows, &entry.kind)? {
        return Err(Fail::new("no room"));
    }
    match changes_of(alloc, rows, entry)? {
        Some(changes) => Ok(changes),
        None => Err(Fail::new("not built")),
    }
}

fn batch_of(alloc: Global, rows: &Rows, entry: Entry) -> Result<Batch, Fail> {
    let changes = made_by(alloc, rows, &entry)?;
    Ok(Batch { changes, entry })
}

// Makes the changes of the entry, and adds it.
fn add(rows: &mut Rows, alloc: Global, entry: Entry) -> Result<(), Fail> {
    let batch = batch_of(alloc, rows, entry)?;
    rows.apply(alloc, &batch)?;
    Ok(())
}

fn project_made(alloc: Global, name: &[u8], limit: i64) -> Result<EntryKind, Fail> {
    let project = ProjectName::read(alloc, name)?;
    Ok(EntryKind::ProjectMade { project, limit })
}

fn upload_begun(alloc: Global) -> Result<EntryKind, Fail> {
    let name = Name::read(alloc, b"library/a")?;
    Ok(EntryKind::UploadBegun { name })
}

fn associated(alloc: Global, name: &[u8]) -> Result<EntryKind, Fail> {
    Ok(EntryKind::Associated {
        project: ProjectName::read(alloc, name)?,
        digest: digest(1),
        size: 5,
    })
}

fn artifact_put(
    alloc: Global,
    byte: u8,
    size: u64,
    refs: DigestList,
    tag: &[u8],
) -> Result<EntryKind, Fail> {
    Ok(EntryKind::ArtifactPut {
        name: Name::read(alloc, b"library/a")?,
        digest: digest(byte),
        size,
        media: Text::new(alloc, b"application/vnd.oci.image.manifest.v1+json")?,
        refs,
        children: Listed::new(alloc),
        tag: Some(Tag::read(alloc, tag)?),
    })
}

fn pulled(alloc: Global) -> Result<EntryKind, Fail> {
    Ok(EntryKind::Pulled {
        name: Name::read(alloc, b"library/a")?,
        digest: digest(2),
    })
}

// Two projects and three uploads, of which the second ends.
fn add_uploads(rows: &mut Rows, alloc: Global) -> Result<(), Fail> {
    add(
        rows,
        alloc,
        entry(1, 7, project_made(alloc, b"library", -1)?),
    )?;
    add(
        rows,
        alloc,
        entry(2, 7, project_made(alloc, b"other", 100)?),
    )?;
    for number in 3..6u64 {
        add(rows, alloc, entry(number, 8, upload_begun(alloc)?))?;
    }
    add(
        rows,
        alloc,
        entry(6, 9, EntryKind::UploadEnded { job: 0, upload: 4 }),
    )
}

// A digest that the two projects share, and two manifests of which the first refers to it.
fn add_content(rows: &mut Rows, alloc: Global) -> Result<(), Fail> {
    add(rows, alloc, entry(7, 10, associated(alloc, b"library")?))?;
    add(rows, alloc, entry(8, 10, associated(alloc, b"other")?))?;
    let mut refs = Listed::new(alloc);
    refs.push(digest(1))?;
    add(
        rows,
        alloc,
        entry(9, 11, artifact_put(alloc, 2, 7, refs, b"v1")?),
    )?;
    let refs = Listed::new(alloc);
    add(
        rows,
        alloc,
        entry(10, 12, artifact_put(alloc, 3, 9, refs, b"v2")?),
    )?;
    add(rows, alloc, entry(11, 13, pulled(alloc)?))
}

// The rows of the log. It has an entry of each kind that is built.
fn log(alloc: Global) -> Result<Rows, Fail> {
    let mut rows = Rows::new(alloc);
    add_uploads(&mut rows, alloc)?;
    add_content(&mut rows, alloc)?;
    Ok(rows)
}

// ---- misfits

// Rows that aren't those of the log: each has a key that one of the log's rows has, or that is behind them.

fn project(alloc: Global, name: &[u8], used: u128) -> Result<Row, Fail> {
    Ok(Row::Project(Project {
        name: ProjectName::read(alloc, name)?,
        limit: -1,
        used,
        rules: Rules {
            immutes: ImmuteList::of(Listed::new(alloc)),
            retains: RetainList::of(Listed::new(alloc)),
        },
        version: 1,
    }))
}

fn blob(byte: u8) -> Row {
    Row::Blob(Blob {
        digest: digest(byte),
        size: 99,
        status: Status::Idle,
        version: 1,
        touched: 7,
        bar: 0,
    })
}

fn pair(alloc: Global, name: &[u8], byte: u8) -> Result<Row, Fail> {
    Ok(Row::Pair(Assoc {
        project: ProjectName::read(alloc, name)?,
        digest: digest(byte),
        size: 99,
        touched: 7,
    }))
}

fn artifact(alloc: Global, byte: u8) -> Result<Row, Fail> {
    let name = Name::read(alloc, b"library/a")?;
    Ok(Row::Artifact(Artifact {
        name,
        digest: digest(byte),
        size: 99,
        media: Text::new(alloc, b"text/plain")?,
        refs: Listed::new(alloc),
        children: Listed::new(alloc),
        pushed: 7,
        pulled: 0,
        version: 1,
    }))
}

fn tag(alloc: Global, text: &[u8]) -> Result<Row, Fail> {
    let name = Name::read(alloc, b"library/a")?;
    Ok(Row::Tag(TagRow {
        name,
        tag: Tag::read(alloc, text)?,
        digest: digest(9),
        pushed: 7,
        version: 1,
    }))
}

fn upload(alloc: Global, id: u64) -> Result<Row, Fail> {
    Ok(Row::Upload(Upload {
        id,
        name: Name::read(alloc, b"library/a")?,
        offset: 99,
        touched: 7,
        version: id,
    }))
}

fn job(number: u64) -> Row {
    Row::Job(JobRow {
        number,
        kind: JobKind::Collect { untagged: false },
        phase: Phase::Queued,
        cursor: None,
        claimed: 0,
        barred: 0,
        version: number,
    })
}

fn candidate(byte: u8) -> Row {
    Row::Candidate(Candidate {
        job: 5,
        digest: digest(byte),
        size: 3,
        version: 6,
        verdict: Verdict::Pending,
    })
}

fn snap(alloc: Global, text: &[u8]) -> Result<Row, Fail> {
    let name = Name::read(alloc, b"library/a")?;
    Ok(Row::Snap(SnapTag {
        job: 5,
        name,
        tag: Tag::read(alloc, text)?,
        digest: digest(2),
        version: 4,
        pushed: 7,
        pulled: 0,
        verdict: TagVerdict::Kept,
    }))
}

fn at(table: Table, place: u64) -> Option<Misfit> {
    Some(Misfit { table, place })
}

// ---- what is told of the log's rows with one or two of these set

fn told_project(alloc: Global, name: &[u8], used: u128) -> Result<Option<Misfit>, Fail> {
    let mut rows = log(alloc)?;
    rows.set(project(alloc, name, used)?)?;
    Ok(fit(alloc, &rows)?)
}

fn told_blob(alloc: Global, byte: u8) -> Result<Option<Misfit>, Fail> {
    let mut rows = log(alloc)?;
    rows.set(blob(byte))?;
    Ok(fit(alloc, &rows)?)
}

fn told_pair(alloc: Global, name: &[u8], byte: u8) -> Result<Option<Misfit>, Fail> {
    let mut rows = log(alloc)?;
    rows.set(pair(alloc, name, byte)?)?;
    Ok(fit(alloc, &rows)?)
}

fn told_artifact(alloc: Global, byte: u8) -> Result<Option<Misfit>, Fail> {
    let mut rows = log(alloc)?;
    rows.set(artifact(alloc, byte)?)?;
    Ok(fit(alloc, &rows)?)
}

fn told_tag(alloc: Global, text: &[u8]) -> Result<Option<Misfit>, Fail> {
    let mut rows = log(alloc)?;
    rows.set(tag(alloc, text)?)?;
    Ok(fit(alloc, &rows)?)
}

fn told_upload(alloc: Global, id: u64) -> Result<Option<Misfit>, Fail> {
    let mut rows = log(alloc)?;
    rows.set(upload(alloc, id)?)?;
    Ok(fit(alloc, &rows)?)
}

fn told_jobs(alloc: Global, first: u64, second: u64) -> Result<Option<Misfit>, Fail> {
    let mut rows = log(alloc)?;
    rows.set(job(first))?;
    rows.set(job(second))?;
    Ok(fit(alloc, &rows)?)
}

fn told_candidates(alloc: Global, first: u8, second: u8) -> Result<Option<Misfit>, Fail> {
    let mut rows = log(alloc)?;
    rows.set(candidate(first))?;
    rows.set(candidate(second))?;
    Ok(fit(alloc, &rows)?)
}

fn told_snaps(alloc: Global, first: &[u8], second: &[u8]) -> Result<Option<Misfit>, Fail> {
    let mut rows = log(alloc)?;
    rows.set(snap(alloc, first)?)?;
    rows.set(snap(alloc, second)?)?;
    Ok(fit(alloc, &rows)?)
}

fn told_blob_and_project(alloc: Global) -> Result<Option<Misfit>, Fail> {
    let mut rows = log(alloc)?;
    rows.set(blob(1))?;
    rows.set(project(alloc, b"other", 6)?)?;
    Ok(fit(alloc, &rows)?)
}

fn told_queued(alloc: Global, number: u64, used: u128) -> Result<Option<Misfit>, Fail>
    requires { number ≤ 300 }
{
    let mut rows = log(alloc)?;
    rows.set(job_queued(number))?;
    rows.set(project(alloc, b"zoo", used)?)?;
    Ok(fit(alloc, &rows)?)
}

fn without(alloc: Global, key: Key) -> Result<ChangeList, Fail> {
    let mut changes = Listed::new(alloc);
    changes.push(Change::Drop(key))?;
    Ok(changes)
}

// Drops the row of the key, with the log's last entry once more, since a batch has one.
fn dropping(alloc: Global, key: Key) -> Result<Batch, Fail> {
    let changes = without(alloc, key)?;
    let kind = pulled(alloc)?;
    Ok(Batch {
        changes,
        entry: entry(11, 13, kind),
    })
}

fn drop_row(rows: &mut Rows, alloc: Global, key: Key) -> Result<(), Fail> {
    let batch = dropping(alloc, key)?;
    rows.apply(alloc, &batch)?;
    Ok(())
}

// What is told of the log's rows without the one of the key.
fn told_without(alloc: Global, key: Key) -> Result<Option<Misfit>, Fail> {
    let mut rows = log(alloc)?;
    drop_row(&mut rows, alloc, key)?;
    Ok(fit(alloc, &rows)?)
}

#[test]
fn the_log_fits(rt: HostRuntime) -> Result<(), Fail> {
    let rows = log(rt.alloc())?;
    assert_eq!(rt; fit(rt.alloc(), &rows)?, None);
    assert_eq!(rt; fit(rt.alloc(), &Rows::new(rt.alloc()))?, None);
    Ok(())
}

// The first place, an extra row behind, and the last row missing.
#[test]
fn misfits_of_projects(rt: HostRuntime) -> Result<(), Fail> {
    let alloc = rt.alloc();
    assert_eq!(rt; told_project(alloc, b"library", 20)?, at(Table::Project, 1));
    assert_eq!(rt; told_project(alloc, b"zoo", 0)?, at(Table::Project, 3));
    let name = ProjectName::read(alloc, b"other")?;
    assert_eq!(rt;
        told_without(alloc, Key::Project { name })?,
        at(Table::Project, 2)
    );
    Ok(())
}

#[test]
fn misfits_of_blobs(rt: HostRuntime) -> Result<(), Fail> {
    let alloc = rt.alloc();
    assert_eq!(rt; told_blob(alloc, 1)?, at(Table::Blob, 1));
    assert_eq!(rt; told_blob(alloc, 4)?, at(Table::Blob, 4));
    assert_eq!(rt;
        told_without(alloc, Key::Blob { digest: digest(3) })?,
        at(Table::Blob, 3)
    );
    Ok(())
}

#[test]
fn misfits_of_pairs(rt: HostRuntime) -> Result<(), Fail> {
    let alloc = rt.alloc();
    assert_eq!(rt; told_pair(alloc, b"library", 1)?, at(Table::Pair, 1));
    assert_eq!(rt; told_pair(alloc, b"other", 2)?, at(Table::Pair, 5));
    let project = ProjectName::read(alloc, b"other")?;
    let last = Key::Pair {
        project,
        digest: digest(1),
    };
    assert_eq!(rt; told_without(alloc, last)?, at(Table::Pair, 4));
    Ok(())
}

#[test]
fn misfits_of_artifacts(rt: HostRuntime) -> Result<(), Fail> {
    let alloc = rt.alloc();
    assert_eq!(rt; told_artifact(alloc, 2)?, at(Table::Artifact, 1));
    assert_eq!(rt; told_artifact(alloc, 4)?, at(Table::Artifact, 3));
    let name = Name::read(alloc, b"library/a")?;
    let last = Key::Artifact {
        name,
        digest: digest(3),
    };
    assert_eq!(rt; told_without(alloc, last)?, at(Table::Artifact, 2));
    Ok(())
}

fn last_tag(alloc: Global) -> Result<Key, Fail> {
    Ok(Key::Tag {
        name: Name::read(alloc, b"library/a")?,
        tag: Tag::read(alloc, b"v2")?,
    })
}

#[test]
fn misfits_of_tags(rt: HostRuntime) -> Result<(), Fail> {
    let alloc = rt.alloc();
    assert_eq!(rt; told_tag(alloc, b"v1")?, at(Table::Tag, 1));
    assert_eq!(rt; told_tag(alloc, b"v3")?, at(Table::Tag, 3));
    assert_eq!(rt; told_without(alloc, last_tag(alloc)?)?, at(Table::Tag, 2));
    Ok(())
}

#[test]
fn misfits_of_uploads(rt: HostRuntime) -> Result<(), Fail> {
    let alloc = rt.alloc();
    assert_eq!(rt; told_upload(alloc, 3)?, at(Table::Upload, 1));
    assert_eq!(rt; told_upload(alloc, 6)?, at(Table::Upload, 3));
    assert_eq!(rt;
        told_without(alloc, Key::Upload { id: 5 })?,
        at(Table::Upload, 2)
    );
    Ok(())
}

// No kind that is built fills these tables, so any row is the first misfit.
#[test]
fn misfits_of_jobs(rt: HostRuntime) -> Result<(), Fail> {
    let alloc = rt.alloc();
    assert_eq!(rt; told_jobs(alloc, 5, 5)?, at(Table::Job, 1));
    assert_eq!(rt; told_jobs(alloc, 5, 6)?, at(Table::Job, 1));
    assert_eq!(rt; told_candidates(alloc, 1, 1)?, at(Table::Candidate, 1));
    assert_eq!(rt; told_candidates(alloc, 1, 2)?, at(Table::Candidate, 1));
    assert_eq!(rt; told_snaps(alloc, b"v1", b"v1")?, at(Table::Snap, 1));
    assert_eq!(rt; told_snaps(alloc, b"v1", b"v2")?, at(Table::Snap, 1));
    Ok(())
}

// Where two tables differ, the earlier is told.
#[test]
fn the_first_table_is_told(rt: HostRuntime) -> Result<(), Fail> {
    assert_eq!(rt; told_blob_and_project(rt.alloc())?, at(Table::Project, 2));
    Ok(())
}

// What is told where the log goes on with this entry, and with a blob spoilt.
fn told_after(alloc: Global, number: u64, moment: u64, spoilt: bool) -> Result<Option<Misfit>, Fail>
    requires number { number ≤ 300 }
    requires moment { moment ≤ 300 }
{
    let mut rows = log(alloc)?;
    add(
        &mut rows,
        alloc,
        entry(number, moment, upload_begun(alloc)?),
    )?;
    if spoilt {
        rows.set(blob(3))?;
    }
    Ok(fit(alloc, &rows)?)
}

#[test]
fn a_last_entry_out_of_order(rt: HostRuntime) -> Result<(), Fail> {
    let alloc = rt.alloc();
    assert_eq!(rt; told_after(alloc, 12, 13, false)?, None);
    assert_eq!(rt; told_after(alloc, 13, 13, false)?, at(Table::Entry, 12));
    assert_eq!(rt; told_after(alloc, 12, 12, false)?, at(Table::Entry, 12));
    assert_eq!(rt; told_after(alloc, 12, 12, true)?, at(Table::Blob, 3));
    Ok(())
}

// What is told of two entries with these numbers, the first of the moment 7: a project made, and its upload begun.
fn told_of(alloc: Global, first: u64, second: u64, moment: u64) -> Result<Option<Misfit>, Fail>
    requires first { first ≤ 300 }
    requires second { second ≤ 300 }
    requires moment { moment ≤ 300 }
{
    let mut rows = Rows::new(alloc);
    add(
        &mut rows,
        alloc,
        entry(first, 7, project_made(alloc, b"library", -1)?),
    )?;
    add(
        &mut rows,
        alloc,
        entry(second, moment, upload_begun(alloc)?),
    )?;
    Ok(fit(alloc, &rows)?)
}

#[test]
fn first_entries_out_of_order(rt: HostRuntime) -> Result<(), Fail> {
    let alloc = rt.alloc();
    assert_eq!(rt; told_of(alloc, 1, 2, 7)?, None);
    assert_eq!(rt; told_of(alloc, 2, 3, 7)?, at(Table::Entry, 1));
    assert_eq!(rt; told_of(alloc, 1, 3, 7)?, at(Table::Entry, 2));
    assert_eq!(rt; told_of(alloc, 1, 2, 6)?, at(Table::Entry, 2));
    Ok(())
}

// An entry of a kind that isn't built is told before all else, at its place, which need not be its number.
#[test]
fn an_entry_that_is_not_built_is_told_first(rt: HostRuntime) -> Result<(), Fail> {
    let alloc = rt.alloc();
    assert_eq!(rt; told_queued(alloc, 12, 0)?, at(Table::Entry, 12));
    assert_eq!(rt; told_queued(alloc, 20, 0)?, at(Table::Entry, 12));
    assert_eq!(rt; told_queued(alloc, 1, 0)?, at(Table::Entry, 1));
    Ok(())
}

fn job_queued(number: u64) -> Row
    requires { number ≤ 300 }
{
    let kind = JobKind::Collect { untagged: false };
    Row::Entry(entry(number, 13, EntryKind::JobQueued { kind }))
}

// What is told of a registry of one project that uses so much by its row.
fn told_of_one(alloc: Global, used: u128) -> Result<Option<Misfit>, Fail> {
    let mut rows = Rows::new(alloc);
    rows.set(project(alloc, b"library", used)?)?;
    rows.set(Row::Entry(entry(1, 7, project_made(alloc, b"library", -1)?)))?;
    Ok(fit(alloc, &rows)?)
}

#[test]
fn a_project_that_uses_what_it_has_not(rt: HostRuntime) -> Result<(), Fail> {
    assert_eq!(rt; told_of_one(rt.alloc(), 1)?, at(Table::Project, 1));
    assert_eq!(rt; told_of_one(rt.alloc(), 0)?, None);
    Ok(())
}
