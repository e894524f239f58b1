//! Tables that rows and batches change, key by key and page by page.

ghost use Rattle.std.specs.Prelude.{◌≤◌};

use crate::Rows;
use hb_records::{
    Artifact, Assoc, Batch, Blob, Candidate, Change, Digest, Entry, EntryKind, ImmuteList, JobKind,
    JobRow, Key, Listed, MOST_ROWS, Name, Page, Phase, Project, ProjectName, RetainList, Row,
    Rules, SnapTag, Status, Table, Tag, TagRow, TagVerdict, Text, Upload, Verdict,
};
use std::alloc::Global;
use std::test::Fail;

fn digest(byte: u8) -> Digest {
    Digest([byte; 32])
}

fn library(alloc: Global) -> Result<Row, Fail> {
    Ok(Row::Project(Project {
        name: ProjectName::read(alloc, b"library")?,
        limit: -1,
        used: 3,
        rules: Rules {
            immutes: ImmuteList::of(Listed::new(alloc)),
            retains: RetainList::of(Listed::new(alloc)),
        },
        version: 1,
    }))
}

fn blob(byte: u8, size: u64) -> Row {
    Row::Blob(Blob {
        digest: digest(byte),
        size,
        status: Status::Idle,
        version: 1,
        touched: 1_000_000,
        bar: 0,
    })
}

fn pair(alloc: Global) -> Result<Row, Fail> {
    Ok(Row::Pair(Assoc {
        project: ProjectName::read(alloc, b"library")?,
        digest: digest(1),
        size: 3,
        touched: 1_000_000,
    }))
}

fn artifact(alloc: Global) -> Result<Row, Fail> {
    let name = Name::read(alloc, b"library/a")?;
    Ok(Row::Artifact(Artifact {
        name,
        digest: digest(2),
        size: 7,
        media: Text::new(alloc, b"application/vnd.oci.image.manifest.v1+json")?,
        refs: Listed::new(alloc),
        children: Listed::new(alloc),
        pushed: 1_000_000,
        pulled: 0,
        version: 4,
    }))
}

fn tag(alloc: Global, text: &[u8], byte: u8) -> Result<Row, Fail> {
    let name = Name::read(alloc, b"library/a")?;
    Ok(Row::Tag(TagRow {
        name,
        tag: Tag::read(alloc, text)?,
        digest: digest(byte),
        pushed: 1_000_000,
        version: 1,
    }))
}

fn upload(alloc: Global, id: u64) -> Result<Row, Fail> {
    Ok(Row::Upload(Upload {
        id,
        name: Name::read(alloc, b"library/a")?,
        offset: 0,
        touched: 1_000_000,
        version: id,
    }))
}

fn job(number: u64) -> Row {
    Row::Job(JobRow {
        number,
        kind: JobKind::Collect { untagged: false },
        phase: Phase::Queued,
        cursor: None,
        claimed: 0,
        barred: 0,
        version: number,
    })
}

fn candidate(job: u64) -> Row {
    Row::Candidate(Candidate {
        job,
        digest: digest(1),
        size: 3,
        version: 6,
        verdict: Verdict::Pending,
    })
}

fn snap(alloc: Global) -> Result<Row, Fail> {
    let name = Name::read(alloc, b"library/a")?;
    Ok(Row::Snap(SnapTag {
        job: 5,
        name,
        tag: Tag::read(alloc, b"v1")?,
        digest: digest(2),
        version: 4,
        pushed: 1_000_000,
        pulled: 0,
        verdict: TagVerdict::Kept,
    }))
}

fn entry(number: u64) -> Entry
    requires { number ≤ 300 }
{
    Entry {
        number,
        moment: 1_000_000,
        kind: EntryKind::GcDone { job: 5 },
    }
}

fn set_content(rows: &mut Rows, alloc: Global) -> Result<(), Fail> {
    rows.set(library(alloc)?)?;
    rows.set(blob(1, 3))?;
    rows.set(pair(alloc)?)?;
    rows.set(artifact(alloc)?)?;
    rows.set(tag(alloc, b"v1", 2)?)?;
    Ok(())
}

fn set_work(rows: &mut Rows, alloc: Global) -> Result<(), Fail> {
    rows.set(upload(alloc, 3)?)?;
    rows.set(job(5))?;
    rows.set(candidate(5))?;
    rows.set(snap(alloc)?)?;
    rows.set(Row::Entry(entry(7)))?;
    Ok(())
}

// A row in each table.
fn filled(alloc: Global) -> Result<Rows, Fail> {
    let mut rows = Rows::new(alloc);
    set_content(&mut rows, alloc)?;
    set_work(&mut rows, alloc)?;
    Ok(rows)
}

// How many rows each table has, in the order of the tables.
fn counts(rows: &Rows) -> [usize; 10] {
    [
        rows.projects().len(),
        rows.blobs().len(),
        rows.pairs().len(),
        rows.artifacts().len(),
        rows.tags().len(),
        rows.uploads().len(),
        rows.jobs().len(),
        rows.candidates().len(),
        rows.snaps().len(),
        rows.entries().len(),
    ]
}

#[test]
fn rows_are_set(rt: HostRuntime) -> Result<(), Fail> {
    let rows = filled(rt.alloc())?;
    rows.keys_rise();
    assert_eq!(rt; counts(&rows), [1; 10]);
    assert_eq!(rt; counts(&Rows::new(rt.alloc())), [0; 10]);
    Ok(())
}

// Which of the keys find a row: that of the row, and some of which one part is another.
fn found_by_digest(rows: &Rows) -> [bool; 6] {
    [
        rows.blob(&digest(1)).is_some(),
        rows.blob(&digest(2)).is_some(),
        rows.candidate(5, &digest(1)).is_some(),
        rows.candidate(6, &digest(1)).is_some(),
        rows.candidate(5, &digest(2)).is_some(),
        rows.candidate(0, &digest(0)).is_some(),
    ]
}

fn found_by_number(rows: &Rows) -> [bool; 6] {
    [
        rows.upload(3).is_some(),
        rows.upload(5).is_some(),
        rows.job(5).is_some(),
        rows.job(3).is_some(),
        rows.entry(7).is_some(),
        rows.entry(5).is_some(),
    ]
}

fn found_by_project(rows: &Rows, alloc: Global, project: &[u8]) -> Result<[bool; 3], Fail> {
    let project = ProjectName::read(alloc, project)?;
    Ok([
        rows.project(&project).is_some(),
        rows.pair(&project, &digest(1)).is_some(),
        rows.pair(&project, &digest(2)).is_some(),
    ])
}

fn found_by_name(rows: &Rows, alloc: Global, name: &[u8]) -> Result<[bool; 2], Fail> {
    let name = Name::read(alloc, name)?;
    Ok([
        rows.artifact(&name, &digest(2)).is_some(),
        rows.artifact(&name, &digest(1)).is_some(),
    ])
}

fn found_by_tag(rows: &Rows, alloc: Global, name: &[u8], tag: &[u8]) -> Result<[bool; 3], Fail> {
    let name = Name::read(alloc, name)?;
    let tag = Tag::read(alloc, tag)?;
    Ok([
        rows.tag(&name, &tag).is_some(),
        rows.snap(5, &name, &tag).is_some(),
        rows.snap(6, &name, &tag).is_some(),
    ])
}

#[test]
fn rows_are_found_by_their_keys_alone(rt: HostRuntime) -> Result<(), Fail> {
    let rows = filled(rt.alloc())?;
    assert_eq!(rt;
        found_by_digest(&rows),
        [true, false, true, false, false, false]
    );
    assert_eq!(rt;
        found_by_number(&rows),
        [true, false, true, false, true, false]
    );
    assert_eq!(rt;
        found_by_project(&rows, rt.alloc(), b"library")?,
        [true, true, false]
    );
    assert_eq!(rt; found_by_project(&rows, rt.alloc(), b"librar")?, [false; 3]);
    Ok(())
}

#[test]
fn rows_are_found_by_both_parts(rt: HostRuntime) -> Result<(), Fail> {
    let rows = filled(rt.alloc())?;
    assert_eq!(rt;
        found_by_name(&rows, rt.alloc(), b"library/a")?,
        [true, false]
    );
    assert_eq!(rt; found_by_name(&rows, rt.alloc(), b"library/b")?, [false; 2]);
    assert_eq!(rt;
        found_by_tag(&rows, rt.alloc(), b"library/a", b"v1")?,
        [true, true, false]
    );
    assert_eq!(rt;
        found_by_tag(&rows, rt.alloc(), b"library/b", b"v1")?,
        [false; 3]
    );
    assert_eq!(rt;
        found_by_tag(&rows, rt.alloc(), b"library/a", b"v")?,
        [false; 3]
    );
    Ok(())
}

// Of two rows of one key the later counts, and a key that isn't there is dropped without harm.
fn changes(alloc: Global) -> Result<Vec<Change>, Fail> {
    let mut changes = Vec::new(alloc);
    changes.push(Change::Set(blob(1, 4)))?;
    changes.push(Change::Set(blob(1, 5)))?;
    changes.push(Change::Set(blob(0, 6)))?;
    changes.push(Change::Drop(Key::Upload { id: 3 }))?;
    changes.push(Change::Drop(Key::Upload { id: 3 }))?;
    Ok(changes)
}

#[test]
fn a_batch_is_made_in_order(rt: HostRuntime) -> Result<(), Fail> {
    let mut rows = filled(rt.alloc())?;
    let batch = Batch {
        changes: Listed::of(changes(rt.alloc())?),
        entry: entry(9),
    };
    rows.apply(rt.alloc(), &batch)?;
    assert_eq!(rt; counts(&rows), [1, 2, 1, 1, 1, 0, 1, 1, 1, 2]);
    assert_eq!(rt; rows.blob(&digest(1)).map(|row| row.size), Some(5));
    assert_eq!(rt; rows.entry(9).map(|row| row.moment), Some(1_000_000));
    Ok(())
}

#[test]
fn a_row_takes_the_place_of_its_key(rt: HostRuntime) -> Result<(), Fail> {
    let mut rows = Rows::new(rt.alloc());
    rows.set(tag(rt.alloc(), b"v2", 2)?)?;
    rows.set(tag(rt.alloc(), b"v1", 2)?)?;
    rows.set(tag(rt.alloc(), b"v2", 3)?)?;
    assert_eq!(rt; rows.tags().len(), 2);
    assert_eq!(rt; rows.tags()[0].digest, digest(2));
    assert_eq!(rt; rows.tags()[1].digest, digest(3));
    Ok(())
}

// The uploads of a page: the first id, the last, and how many, or zeros for none.
fn ids(page: &Page) -> (u64, u64, usize) {
    match page {
        Page::Upload(rows) => match rows.as_slice() {
            [] => (0, 0, 0),
            [first, .., last] => (first.id, last.id, rows.len()),
            [one] => (one.id, one.id, 1),
        },
        _ => (0, 0, 0),
    }
}

// 300 uploads, of which the last is set first.
fn uploads(alloc: Global) -> Result<Rows, Fail> {
    let mut rows = Rows::new(alloc);
    for id in 0..300u64 {
        rows.set(upload(alloc, 300 - id)?)?;
    }
    Ok(rows)
}

// The ids of the page of uploads behind a key.
fn ids_behind(rows: &Rows, alloc: Global, after: Option<&Key>) -> Result<(u64, u64, usize), Fail> {
    let page = rows.page(alloc, Table::Upload, after)?;
    Ok(ids(&page))
}

#[test]
fn pages_follow_one_another(rt: HostRuntime) -> Result<(), Fail> {
    let rows = uploads(rt.alloc())?;
    assert_eq!(rt; ids_behind(&rows, rt.alloc(), None)?, (1, 256, MOST_ROWS));
    let last = Key::Upload { id: 256 };
    assert_eq!(rt; ids_behind(&rows, rt.alloc(), Some(&last))?, (257, 300, 44));
    let end = Key::Upload { id: 300 };
    assert_eq!(rt; ids_behind(&rows, rt.alloc(), Some(&end))?, (0, 0, 0));
    Ok(())
}

// A key of an earlier table is below all uploads, and one of a later table above them.
#[test]
fn keys_of_other_tables(rt: HostRuntime) -> Result<(), Fail> {
    let rows = uploads(rt.alloc())?;
    let earlier = Key::Blob {
        digest: digest(255),
    };
    assert_eq!(rt;
        ids_behind(&rows, rt.alloc(), Some(&earlier))?,
        (1, 256, 256)
    );
    let later = Key::Job { number: 0 };
    assert_eq!(rt; ids_behind(&rows, rt.alloc(), Some(&later))?, (0, 0, 0));
    Ok(())
}

// How many rows a page has.
fn length(page: &Page) -> usize {
    match page {
        Page::Project(rows) => rows.len(),
        Page::Blob(rows) => rows.len(),
        Page::Pair(rows) => rows.len(),
        Page::Artifact(rows) => rows.len(),
        Page::Tag(rows) => rows.len(),
        Page::Upload(rows) => rows.len(),
        Page::Job(rows) => rows.len(),
        Page::Candidate(rows) => rows.len(),
        Page::Snap(rows) => rows.len(),
        Page::Entry(rows) => rows.len(),
    }
}

#[test]
fn each_table_has_pages(rt: HostRuntime) -> Result<(), Fail> {
    let rows = filled(rt.alloc())?;
    let tables = [
        Table::Project,
        Table::Blob,
        Table::Pair,
        Table::Artifact,
        Table::Tag,
        Table::Upload,
        Table::Job,
        Table::Candidate,
        Table::Snap,
        Table::Entry,
    ];
    for table in tables {
        let page = rows.page(rt.alloc(), table, None)?;
        assert_eq!(rt; length(&page), 1);
    }
    Ok(())
}
