//! A keeper in memory, with ample memory.

ghost use Rattle.std.specs.Prelude.{◌≤◌};

use crate::{KeepFault, Keeper, MemKeeper};
use hb_records::{
    Artifact, ArtifactKey, Assoc, Batch, Blob, Candidate, Change, DigestList, Entry, EntryKind,
    ImmuteList, JobKind, JobRow, Key, Listed, Page, Phase, Project, RetainList, Row, Rules,
    SnapTag, Status, Table, TagRow, TagVerdict, Upload, Verdict,
};
use hb_rows::Rows;
use hb_text::{Digest, Name, ProjectName, Tag, Text};
use std::alloc::Global;
use std::test::Fail;

fn digest(byte: u8) -> Digest {
    Digest([byte; 32])
}

fn digests(alloc: Global, bytes: &[u8]) -> Result<DigestList, Fail> {
    let mut list = Listed::new(alloc);
    for byte in bytes {
        list.push(digest(*byte))?;
    }
    Ok(list)
}

fn project(alloc: Global) -> Result<Row, Fail> {
    Ok(Row::Project(Project {
        name: ProjectName::read(alloc, b"library")?,
        limit: -1,
        used: 0,
        rules: Rules {
            immutes: ImmuteList::of(Listed::new(alloc)),
            retains: RetainList::of(Listed::new(alloc)),
        },
        version: 11,
    }))
}

fn blob() -> Row {
    Row::Blob(Blob {
        digest: digest(1),
        size: 3,
        status: Status::Idle,
        version: 12,
        touched: 1_000_000,
        bar: 0,
    })
}

fn pair(alloc: Global, project: &[u8], byte: u8) -> Result<Row, Fail> {
    Ok(Row::Pair(Assoc {
        project: ProjectName::read(alloc, project)?,
        digest: digest(byte),
        size: 13,
        touched: 1_000_000,
    }))
}

fn artifact(
    alloc: Global,
    name: &[u8],
    byte: u8,
    refs: &[u8],
    children: &[u8],
) -> Result<Row, Fail> {
    Ok(Row::Artifact(Artifact {
        name: Name::read(alloc, name)?,
        digest: digest(byte),
        size: 7,
        media: Text::new(alloc, b"application/vnd.oci.image.manifest.v1+json")?,
        refs: digests(alloc, refs)?,
        children: digests(alloc, children)?,
        pushed: 1_000_000,
        pulled: 0,
        version: 14,
    }))
}

fn tag(alloc: Global) -> Result<Row, Fail> {
    Ok(Row::Tag(TagRow {
        name: Name::read(alloc, b"library/a")?,
        tag: Tag::read(alloc, b"v1")?,
        digest: digest(2),
        pushed: 1_000_000,
        version: 15,
    }))
}

fn upload(alloc: Global, id: u64) -> Result<Row, Fail> {
    Ok(Row::Upload(Upload {
        id,
        name: Name::read(alloc, b"library/a")?,
        offset: 0,
        touched: 1_000_000,
        version: 16,
    }))
}

fn job(number: u64, kind: JobKind, phase: Phase) -> Row {
    Row::Job(JobRow {
        number,
        kind,
        phase,
        cursor: None,
        claimed: 0,
        barred: 0,
        version: 17,
    })
}

fn candidate() -> Row {
    Row::Candidate(Candidate {
        job: 5,
        digest: digest(1),
        size: 3,
        version: 18,
        verdict: Verdict::Pending,
    })
}

fn snap(alloc: Global) -> Result<Row, Fail> {
    Ok(Row::Snap(SnapTag {
        job: 5,
        name: Name::read(alloc, b"library/a")?,
        tag: Tag::read(alloc, b"v1")?,
        digest: digest(2),
        version: 19,
        pushed: 1_000_000,
        pulled: 0,
        verdict: TagVerdict::Kept,
    }))
}

// Each entry is a second later than the one before.
fn entry(number: u64) -> Entry
    requires { number ≤ 300 }
{
    Entry {
        number,
        moment: 1_000_000 + number,
        kind: EntryKind::GcDone { job: 5 },
    }
}

fn collect(untagged: bool) -> JobKind {
    JobKind::Collect { untagged }
}

fn retain(alloc: Global, project: &[u8]) -> Result<JobKind, Fail> {
    Ok(JobKind::Retain {
        project: ProjectName::read(alloc, project)?,
    })
}

// Of two that need a digest, have it or list it as a child, the greater key is set first.
fn set_content(rows: &mut Rows, alloc: Global) -> Result<(), Fail> {
    rows.set(project(alloc)?)?;
    rows.set(blob())?;
    for project in [b"library".as_slice(), b"alpha"] {
        rows.set(pair(alloc, project, 1)?)?;
    }
    let artifacts: [(&[u8], u8, &[u8], &[u8]); 5] = [
        (b"library/b", 4, &[9, 1], &[2]),
        (b"library/a", 6, &[2], &[2]),
        (b"library/a", 3, &[2], &[8, 2]),
        (b"library/a", 2, &[1], &[]),
        (b"alpha/a", 5, &[1, 9], &[]),
    ];
    for (name, byte, refs, children) in artifacts {
        rows.set(artifact(alloc, name, byte, refs, children)?)?;
    }
    rows.set(tag(alloc)?)?;
    Ok(())
}

// Of each kind of job one is finished, and two aren't.
fn set_work(rows: &mut Rows, alloc: Global) -> Result<(), Fail> {
    rows.set(upload(alloc, 3)?)?;
    for (number, phase) in [
        (9, Phase::Sweeping),
        (7, Phase::Queued),
        (5, Phase::Finished),
    ] {
        rows.set(job(number, collect(number == 7), phase))?;
    }
    for (number, phase) in [
        (10, Phase::Turning),
        (8, Phase::Claimed),
        (6, Phase::Finished),
    ] {
        rows.set(job(number, retain(alloc, b"library")?, phase))?;
    }
    rows.set(candidate())?;
    rows.set(snap(alloc)?)?;
    rows.set(Row::Entry(entry(2)))?;
    rows.set(Row::Entry(entry(1)))?;
    Ok(())
}

// A keeper of rows in each table, of which these calls fail.
fn filled(alloc: Global, fails: &[u64]) -> Result<MemKeeper, Fail> {
    let mut rows = Rows::new(alloc);
    set_content(&mut rows, alloc)?;
    set_work(&mut rows, alloc)?;
    Ok(MemKeeper::of(alloc, rows, fails.to_vec(alloc)?))
}

// The version of the project, and the size of the pair.
fn by_project(keeper: &mut MemKeeper, project: &ProjectName) -> Result<[Option<u64>; 2], Fail> {
    Ok([
        keeper.project(project)?.map(|row| row.version),
        keeper.pair(project, &digest(1))?.map(|row| row.size),
    ])
}

// The versions of the artifact, the tag and the tag of the snapshot.
fn by_repository(keeper: &mut MemKeeper, name: &Name, tag: &Tag) -> Result<[Option<u64>; 3], Fail> {
    Ok([
        keeper.artifact(name, &digest(2))?.map(|row| row.version),
        keeper.tag(name, tag)?.map(|row| row.version),
        keeper.snap(5, name, tag)?.map(|row| row.version),
    ])
}

// The versions of the project, the artifact, the tag and the tag of the snapshot, and the size of the pair.
fn by_name(
    keeper: &mut MemKeeper,
    alloc: Global,
    name: &[u8],
    tag: &[u8],
) -> Result<[Option<u64>; 5], Fail> {
    let name = Name::read(alloc, name)?;
    let project = ProjectName::read(alloc, name.project())?;
    let tag = Tag::read(alloc, tag)?;
    let [own, used] = by_project(keeper, &project)?;
    let [artifact, row, snap] = by_repository(keeper, &name, &tag)?;
    Ok([own, artifact, row, snap, used])
}

// The versions of the upload, the job, the blob and the candidate.
fn by_number(keeper: &mut MemKeeper, number: u64, byte: u8) -> Result<[Option<u64>; 4], Fail> {
    Ok([
        keeper.upload(number)?.map(|row| row.version),
        keeper.job(number)?.map(|row| row.version),
        keeper.blob(&digest(byte))?.map(|row| row.version),
        keeper
            .candidate(number, &digest(byte))?
            .map(|row| row.version),
    ])
}

#[test]
fn rows_are_told_by_their_keys(rt: HostRuntime) -> Result<(), Fail> {
    let mut keeper = filled(rt.alloc(), &[])?;
    let names: [(&[u8], &[u8], [Option<u64>; 5]); 3] = [
        (
            b"library/a",
            b"v1",
            [Some(11), Some(14), Some(15), Some(19), Some(13)],
        ),
        (
            b"library/a",
            b"v2",
            [Some(11), Some(14), None, None, Some(13)],
        ),
        (b"alpha/b", b"v1", [None, None, None, None, Some(13)]),
    ];
    for (name, tag, want) in names {
        assert_eq!(rt; by_name(&mut keeper, rt.alloc(), name, tag)?, want);
    }
    let numbers = [
        (3, 1, [Some(16), None, Some(12), None]),
        (5, 1, [None, Some(17), Some(12), Some(18)]),
        (5, 2, [None, Some(17), None, None]),
    ];
    for (number, byte, want) in numbers {
        assert_eq!(rt; by_number(&mut keeper, number, byte)?, want);
    }
    Ok(())
}

// The number of the job that isn't finished.
fn unfinished(keeper: &mut MemKeeper, kind: JobKind) -> Result<Option<u64>, Fail> {
    Ok(keeper.unfinished(&kind)?.map(|row| row.number))
}

#[test]
fn the_least_unfinished_job_is_told(rt: HostRuntime) -> Result<(), Fail> {
    let mut keeper = filled(rt.alloc(), &[])?;
    assert_eq!(rt; unfinished(&mut keeper, collect(false))?, Some(7));
    assert_eq!(rt; unfinished(&mut keeper, collect(true))?, Some(7));
    let library = retain(rt.alloc(), b"library")?;
    assert_eq!(rt; unfinished(&mut keeper, library)?, Some(8));
    let alpha = retain(rt.alloc(), b"alpha")?;
    assert_eq!(rt; unfinished(&mut keeper, alpha)?, None);
    Ok(())
}

// The keys that answer for a project or a repository, and a digest: of an artifact, a project and a digest.
fn least(
    keeper: &mut MemKeeper,
    alloc: Global,
    name: &[u8],
    byte: u8,
) -> Result<(Option<ArtifactKey>, Option<ProjectName>, Option<Digest>), Fail> {
    let name = Name::read(alloc, name)?;
    let project = ProjectName::read(alloc, name.project())?;
    Ok((
        keeper.needed(&project, &digest(byte))?,
        keeper.owner(&digest(byte))?,
        keeper.parent(&name, &digest(byte))?,
    ))
}

#[test]
fn the_least_key_that_answers_is_told(rt: HostRuntime) -> Result<(), Fail> {
    let mut keeper = filled(rt.alloc(), &[])?;
    let rows: [(&[u8], u8, Option<u8>, Option<&[u8]>, Option<u8>); 5] = [
        (b"library/a", 1, Some(2), Some(b"alpha"), None),
        (b"library/a", 2, Some(2), None, Some(3)),
        (b"library/b", 2, Some(2), None, Some(4)),
        (b"alpha/a", 1, Some(5), Some(b"alpha"), None),
        (b"alpha/a", 2, None, None, None),
    ];
    for (name, byte, needing, owner, parent) in rows {
        let (key, project, index) = least(&mut keeper, rt.alloc(), name, byte)?;
        assert_eq!(rt; key.map(|key| key.digest), needing.map(digest));
        assert_eq!(rt; project.as_ref().map(|name| name.bytes()), owner);
        assert_eq!(rt; index, parent.map(digest));
    }
    Ok(())
}

#[test]
fn the_key_of_an_artifact_is_told_whole(rt: HostRuntime) -> Result<(), Fail> {
    let mut keeper = filled(rt.alloc(), &[])?;
    let (key, _project, _index) = least(&mut keeper, rt.alloc(), b"library/z", 1)?;
    let want = ArtifactKey {
        name: Name::read(rt.alloc(), b"library/a")?,
        digest: digest(2),
    };
    assert_eq!(rt; key, Some(want));
    Ok(())
}

// How long the audit is, and its latest moment.
fn meta(keeper: &mut MemKeeper) -> Result<(u64, u64), Fail> {
    let meta = keeper.meta()?;
    Ok((meta.entries, meta.latest))
}

#[test]
fn meta_tells_the_newest_entry(rt: HostRuntime) -> Result<(), Fail> {
    let mut keeper = MemKeeper::new(rt.alloc(), Vec::new(rt.alloc()));
    assert_eq!(rt; meta(&mut keeper)?, (0, 0));
    assert_eq!(rt; meta(&mut filled(rt.alloc(), &[])?)?, (2, 1_000_002));
    Ok(())
}

// Upload 3 is dropped, and upload 4 begun.
fn batch(alloc: Global) -> Result<Batch, Fail> {
    let mut changes = Listed::new(alloc);
    changes.push(Change::Drop(Key::Upload { id: 3 }))?;
    changes.push(Change::Set(upload(alloc, 4)?))?;
    Ok(Batch {
        changes,
        entry: entry(3),
    })
}

// Whether the batch was committed.
fn committed(keeper: &mut MemKeeper, alloc: Global) -> Result<Result<(), KeepFault>, Fail> {
    Ok(keeper.commit(&batch(alloc)?))
}

// The first id, the last, and how many there are.
fn ids(uploads: &[Upload]) -> (u64, u64, usize) {
    match uploads {
        [] => (0, 0, 0),
        [one] => (one.id, one.id, 1),
        [first, .., last] => (first.id, last.id, uploads.len()),
    }
}

// The ids of the uploads, and how many entries there are.
fn state(rows: &Rows) -> ((u64, u64, usize), usize) {
    (ids(rows.uploads()), rows.entries().len())
}

// How many calls were made, and how many of them failed.
fn counts(keeper: &MemKeeper) -> (u64, u64) {
    (keeper.script.calls(), keeper.script.faults())
}

#[test]
fn a_commit_is_seen_by_later_reads(rt: HostRuntime) -> Result<(), Fail> {
    let mut keeper = filled(rt.alloc(), &[])?;
    assert_eq!(rt; committed(&mut keeper, rt.alloc())?, Ok(()));
    assert_eq!(rt; by_number(&mut keeper, 3, 1)?[0], None);
    assert_eq!(rt; by_number(&mut keeper, 4, 1)?[0], Some(16));
    assert_eq!(rt; meta(&mut keeper)?, (3, 1_000_003));
    assert_eq!(rt; state(&keeper.into_rows()), ((4, 4, 1), 3));
    Ok(())
}

#[test]
fn fail_next_fails_one_commit(rt: HostRuntime) -> Result<(), Fail> {
    let mut keeper = filled(rt.alloc(), &[])?;
    keeper.fail_next();
    assert_eq!(rt; meta(&mut keeper)?, (2, 1_000_002));
    assert_eq!(rt; committed(&mut keeper, rt.alloc())?, Err(KeepFault::Failed));
    assert_eq!(rt; state(keeper.rows()), ((3, 3, 1), 2));
    assert_eq!(rt; committed(&mut keeper, rt.alloc())?, Ok(()));
    assert_eq!(rt; state(keeper.rows()), ((4, 4, 1), 3));
    assert_eq!(rt; counts(&keeper), (3, 1));
    Ok(())
}

// What the calls are made with.
#[derive(Drop)]
struct Arguments {
    project: ProjectName,
    name: Name,
    tag: Tag,
    kind: JobKind,
    batch: Batch,
}

fn made_arguments(alloc: Global) -> Result<Arguments, Fail> {
    Ok(Arguments {
        project: ProjectName::read(alloc, b"library")?,
        name: Name::read(alloc, b"library/a")?,
        tag: Tag::read(alloc, b"v1")?,
        kind: collect(false),
        batch: batch(alloc)?,
    })
}

// Whether the call was Ok.
fn outcome<T: Drop>(answer: Result<T, KeepFault>) -> Result<(), KeepFault> {
    match answer {
        Ok(_) => Ok(()),
        Err(fault) => Err(fault),
    }
}

// The call of this number, of those by keys.
fn call_by_key(keeper: &mut MemKeeper, with: &Arguments, number: u64) -> Result<(), KeepFault> {
    match number {
        1 => outcome(keeper.project(&with.project)),
        2 => outcome(keeper.blob(&digest(1))),
        3 => outcome(keeper.pair(&with.project, &digest(1))),
        4 => outcome(keeper.artifact(&with.name, &digest(2))),
        5 => outcome(keeper.tag(&with.name, &with.tag)),
        6 => outcome(keeper.upload(3)),
        7 => outcome(keeper.job(5)),
        8 => outcome(keeper.candidate(5, &digest(1))),
        _ => outcome(keeper.snap(5, &with.name, &with.tag)),
    }
}

// The call of this number. The last is the commit.
fn call(keeper: &mut MemKeeper, with: &Arguments, number: u64) -> Result<(), KeepFault> {
    match number {
        10 => outcome(keeper.unfinished(&with.kind)),
        11 => outcome(keeper.needed(&with.project, &digest(1))),
        12 => outcome(keeper.owner(&digest(1))),
        13 => outcome(keeper.parent(&with.name, &digest(2))),
        14 => outcome(keeper.page(Table::Upload, None)),
        15 => outcome(keeper.meta()),
        16 => keeper.commit(&with.batch),
        _ => call_by_key(keeper, with, number),
    }
}

// Whether the call was refused as failed, and whether it left the rows.
fn outcome_of_call(keeper: &mut MemKeeper, with: &Arguments, number: u64) -> (bool, bool) {
    let before = state(keeper.rows());
    let answer = call(keeper, with, number);
    (
        answer == Err(KeepFault::Failed),
        before == state(keeper.rows()),
    )
}

#[test]
fn each_call_fails_where_it_is_told(rt: HostRuntime) -> Result<(), Fail> {
    let with = made_arguments(rt.alloc())?;
    for failing in 1..17u64 {
        let mut keeper = filled(rt.alloc(), &[failing])?;
        for number in 1..17u64 {
            assert_eq!(rt;
                outcome_of_call(&mut keeper, &with, number),
                (number == failing, number < 16 || failing == 16)
            );
        }
        assert_eq!(rt; counts(&keeper), (16, 1));
        assert_eq!(rt; call(&mut keeper, &with, 16), Ok(()));
        assert_eq!(rt; state(keeper.rows()), ((4, 4, 1), 3));
    }
    Ok(())
}

// The ids of the uploads of a page.
fn ids_of_page(page: &Page) -> (u64, u64, usize) {
    match page {
        Page::Upload(rows) => ids(rows.as_slice()),
        _ => (0, 0, 0),
    }
}

#[test]
fn pages_follow_one_another(rt: HostRuntime) -> Result<(), Fail> {
    let mut rows = Rows::new(rt.alloc());
    for id in 0..600u64 {
        rows.set(upload(rt.alloc(), 600 - id)?)?;
    }
    let mut keeper = MemKeeper::of(rt.alloc(), rows, Vec::new(rt.alloc()));
    let first = keeper.page(Table::Upload, None)?;
    assert_eq!(rt; ids_of_page(&first), (1, 256, 256));
    let pages = [
        (256, (257, 512, 256)),
        (512, (513, 600, 88)),
        (600, (0, 0, 0)),
    ];
    for (id, want) in pages {
        let page = keeper.page(Table::Upload, Some(&Key::Upload { id }))?;
        assert_eq!(rt; ids_of_page(&page), want);
    }
    Ok(())
}

#[test]
fn faults_tell_what_failed(rt: HostRuntime) -> Result<(), Fail> {
    let both = format!(in rt.alloc(); "{}, {}", KeepFault::Failed, KeepFault::Memory)?;
    assert_eq!(rt; both.as_str(), "keeper failed, out of memory");
    Ok(())
}
