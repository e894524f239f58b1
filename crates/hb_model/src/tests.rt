//! Calls of the laws and of the worked examples, and what their digests are digests of. The changes of a small
//! log, and what is told of its rows where one of them is spoilt.

ghost use Rattle.std.specs.Prelude.{◌≡◌, ◌≤◌, ◌<◌, ◌+◌, ◌^◌, true, IfOk, IfSome};
ghost use Rattle.std.specs.Option.{option_copied};
ghost use Rattle.hb_model.specs.Built.{HasRoom};
ghost use Rattle.hb_model.specs.ExampleNames as example;

use crate::changes::changes_of;
use crate::examples::{
    a_blob_is_collected_after_its_window, a_blob_that_is_pushed_after_its_mark_is_kept,
    a_failed_removal_bars_a_push, a_layer_counts_once, a_limit_may_be_reached,
    a_limit_may_fall_below_what_is_used, a_manifest_that_is_put_again_is_kept,
    a_mount_of_unknown_content_begins_an_upload, a_mounted_blob_counts_in_both_projects,
    a_named_blob_is_kept, a_new_registry_is_whole, a_push_may_be_raced,
    a_registry_without_its_content_is_not_whole, a_removal_of_unknown_outcome_is_barred,
    a_removal_that_may_still_come_bars_a_mark, adopted_content_is_safe_for_a_window,
    an_immutable_tag_keeps_its_manifest, an_index_keeps_its_manifests, an_untagged_manifest_goes,
    an_upload_that_is_left_goes, audits_begin_with_the_library_and_are_numbered,
    retention_gives_each_tag_its_turn, the_batches_of_the_worked_logs_make_their_rows,
    the_worked_logs_are_legal, which_entries_move_a_digest, which_entries_of_content_are_legal,
    which_entries_of_jobs_are_legal, which_entries_of_manifests_are_legal,
    which_entries_of_projects_are_legal, which_entries_of_retention_are_legal,
    which_entries_of_uploads_are_legal, which_marks_and_takings_are_legal,
    which_verdicts_are_legal,
};
use crate::laws::{
    a_bar_tells_of_a_taking, a_batch_makes_the_rows_of_the_longer_audit, changes_make_the_effect,
    clients_see_the_replay, histories_are_numbered, nothing_is_there_before_the_first_entry,
    rows_fit_or_not, rows_of_an_audit_are_tables, rows_that_stand_fit, what_is_used_is_bounded,
};
use crate::names::project_name;
use crate::quiet::{quiet_entries_keep_the_registry_whole, whole_without_notes};
use crate::{Misfit, fit, usage_of};
use hb_records::{
    Batch, ChangeList, DigestList, Entry, EntryKind, Listed, Memory, Name, Project, ProjectName,
    Table, Tag, Text,
};
use hb_rows::Rows;
use hb_text::Digest;
use std::alloc::Global;
use std::test::Fail;

// The digest of `{}` in the examples.
fn braces() -> Digest
    ensures { result ≡ example.braces }
{
    Digest([
        68, 19, 111, 163, 85, 179, 103, 138, 17, 70, 173, 22, 247, 232, 100, 158, 148, 251, 79,
        194, 31, 231, 126, 131, 16, 192, 96, 246, 28, 170, 255, 138,
    ])
}

// The digest of `abc` in the examples.
fn abc() -> Digest
    ensures { result ≡ example.abc }
{
    Digest([
        186, 120, 22, 191, 143, 1, 207, 234, 65, 65, 64, 222, 93, 174, 34, 35, 176, 3, 97, 163,
        150, 23, 122, 156, 180, 16, 255, 97, 242, 0, 21, 173,
    ])
}

// The digest of `a` in the examples.
fn letter() -> Digest
    ensures { result ≡ example.letter }
{
    Digest([
        202, 151, 129, 18, 202, 27, 189, 202, 250, 194, 49, 179, 154, 35, 220, 77, 167, 134, 239,
        248, 20, 124, 78, 114, 185, 128, 119, 133, 175, 238, 72, 187,
    ])
}

#[test]
fn digests_are_those_of_their_texts(rt: HostRuntime) -> Result<(), Fail> {
    assert_eq!(rt; Digest::of(b"{}"), braces());
    assert_eq!(rt; Digest::of(b"abc"), abc());
    assert_eq!(rt; Digest::of(b"a"), letter());
    Ok(())
}

// These do nothing: what they say is proved.
#[test]
fn laws(_rt: HostRuntime) -> Result<(), Fail> {
    nothing_is_there_before_the_first_entry();
    clients_see_the_replay();
    a_bar_tells_of_a_taking();
    changes_make_the_effect();
    rows_of_an_audit_are_tables();
    a_batch_makes_the_rows_of_the_longer_audit();
    histories_are_numbered();
    what_is_used_is_bounded();
    rows_fit_or_not();
    rows_that_stand_fit();
    quiet_entries_keep_the_registry_whole();
    whole_without_notes();
    Ok(())
}

#[test]
fn worked_logs(_rt: HostRuntime) -> Result<(), Fail> {
    a_new_registry_is_whole();
    a_registry_without_its_content_is_not_whole();
    a_mounted_blob_counts_in_both_projects();
    a_mount_of_unknown_content_begins_an_upload();
    a_limit_may_be_reached();
    a_limit_may_fall_below_what_is_used();
    a_layer_counts_once(4_000);
    an_immutable_tag_keeps_its_manifest();
    an_index_keeps_its_manifests();
    a_blob_is_collected_after_its_window();
    a_named_blob_is_kept();
    a_blob_that_is_pushed_after_its_mark_is_kept();
    a_failed_removal_bars_a_push();
    a_removal_that_may_still_come_bars_a_mark();
    a_removal_of_unknown_outcome_is_barred();
    a_push_may_be_raced();
    retention_gives_each_tag_its_turn();
    an_upload_that_is_left_goes();
    adopted_content_is_safe_for_a_window();
    a_manifest_that_is_put_again_is_kept();
    an_untagged_manifest_goes();
    the_batches_of_the_worked_logs_make_their_rows();
    which_entries_move_a_digest();
    Ok(())
}

#[test]
fn legal_entries(_rt: HostRuntime) -> Result<(), Fail> {
    the_worked_logs_are_legal();
    audits_begin_with_the_library_and_are_numbered();
    which_entries_of_projects_are_legal();
    which_entries_of_uploads_are_legal();
    which_entries_of_content_are_legal();
    which_entries_of_manifests_are_legal();
    which_entries_of_jobs_are_legal();
    which_marks_and_takings_are_legal();
    which_verdicts_are_legal();
    which_entries_of_retention_are_legal();
    Ok(())
}

// ---- the rows of a small log

fn digest(byte: u8) -> Digest {
    Digest([byte; 32])
}

fn entry(number: u64, moment: u64, kind: EntryKind) -> Entry
    requires number { number ≤ 300 }
    requires moment { moment ≤ 300 }
{
    Entry {
        number,
        moment,
        kind,
    }
}

// Whether the bytes go into the row of a project that uses little, as all projects of these tests do.
fn takes(row: Option<&Project>, size: u64) -> bool
    ensures { result ≡ true → IfSome (option_copied row.entry) (λ r. r.used + size < 2 ^ 128) }
{
    match row {
        Some(row) => row.used < 1000,
        None => size < u64::MAX,
    }
}

fn has_room(alloc: Global, rows: &Rows, kind: &EntryKind) -> Result<bool, Memory>
    ensures { IfOk result (λ b. b ≡ true → HasRoom rows.now kind.now) }
{
    match kind {
        EntryKind::Associated { project, size, .. } => Ok(takes(rows.project(project), *size)),
        EntryKind::ArtifactPut { name, size, .. } => {
            let project = project_name(alloc, name)?;
            Ok(takes(rows.project(&project), *size))
        }
        _ => Ok(true),
    }
}

// The changes of an entry of a kind that is built.
fn made_by(alloc: Global, rows: &Rows, entry: &Entry) -> Result<ChangeList, Fail> {
    if !has_room(alloc, rows, &entry.kind)? {
        return Err(Fail::new("no room"));
    }
    match changes_of(alloc, rows, entry)? {
        Some(changes) => Ok(changes),
        None => Err(Fail::new("not built")),
    }
}

fn batch_of(alloc: Global, rows: &Rows, entry: Entry) -> Result<Batch, Fail> {
    let changes = made_by(alloc, rows, &entry)?;
    Ok(Batch { changes, entry })
}

// Makes the changes of the entry, and adds it.
fn add(rows: &mut Rows, alloc: Global, entry: Entry) -> Result<(), Fail> {
    let batch = batch_of(alloc, rows, entry)?;
    rows.apply(alloc, &batch)?;
    Ok(())
}

fn project_made(alloc: Global, name: &[u8], limit: i64) -> Result<EntryKind, Fail> {
    let project = ProjectName::read(alloc, name)?;
    Ok(EntryKind::ProjectMade { project, limit })
}

fn upload_begun(alloc: Global) -> Result<EntryKind, Fail> {
    let name = Name::read(alloc, b"library/a")?;
    Ok(EntryKind::UploadBegun { name })
}

fn associated(alloc: Global, name: &[u8]) -> Result<EntryKind, Fail> {
    Ok(EntryKind::Associated {
        project: ProjectName::read(alloc, name)?,
        digest: digest(1),
        size: 5,
    })
}

fn artifact_put(
    alloc: Global,
    byte: u8,
    size: u64,
    refs: DigestList,
    tag: &[u8],
) -> Result<EntryKind, Fail> {
    Ok(EntryKind::ArtifactPut {
        name: Name::read(alloc, b"library/a")?,
        digest: digest(byte),
        size,
        media: Text::new(alloc, b"application/vnd.oci.image.manifest.v1+json")?,
        refs,
        children: Listed::new(alloc),
        tag: Some(Tag::read(alloc, tag)?),
    })
}

fn pulled(alloc: Global) -> Result<EntryKind, Fail> {
    Ok(EntryKind::Pulled {
        name: Name::read(alloc, b"library/a")?,
        digest: digest(2),
    })
}

// Two projects and three uploads, of which the second ends.
fn add_uploads(rows: &mut Rows, alloc: Global) -> Result<(), Fail> {
    add(
        rows,
        alloc,
        entry(1, 7, project_made(alloc, b"library", -1)?),
    )?;
    add(
        rows,
        alloc,
        entry(2, 7, project_made(alloc, b"other", 100)?),
    )?;
    for number in 3..6u64 {
        add(rows, alloc, entry(number, 8, upload_begun(alloc)?))?;
    }
    add(
        rows,
        alloc,
        entry(6, 9, EntryKind::UploadEnded { job: 0, upload: 4 }),
    )
}

// A digest that the two projects share, and two manifests of which the first refers to it.
fn add_content(rows: &mut Rows, alloc: Global) -> Result<(), Fail> {
    add(rows, alloc, entry(7, 10, associated(alloc, b"library")?))?;
    add(rows, alloc, entry(8, 10, associated(alloc, b"other")?))?;
    let mut refs = Listed::new(alloc);
    refs.push(digest(1))?;
    add(
        rows,
        alloc,
        entry(9, 11, artifact_put(alloc, 2, 7, refs, b"v1")?),
    )?;
    let refs = Listed::new(alloc);
    add(
        rows,
        alloc,
        entry(10, 12, artifact_put(alloc, 3, 9, refs, b"v2")?),
    )?;
    add(rows, alloc, entry(11, 13, pulled(alloc)?))
}

// The rows of the log. It has an entry of each kind that is built.
fn log(alloc: Global) -> Result<Rows, Fail> {
    let mut rows = Rows::new(alloc);
    add_uploads(&mut rows, alloc)?;
    add_content(&mut rows, alloc)?;
    Ok(rows)
}

// How many rows each table has, in the order of the tables.
fn counts(rows: &Rows) -> [usize; 10] {
    [
        rows.projects().len(),
        rows.blobs().len(),
        rows.pairs().len(),
        rows.artifacts().len(),
        rows.tags().len(),
        rows.uploads().len(),
        rows.jobs().len(),
        rows.candidates().len(),
        rows.snaps().len(),
        rows.entries().len(),
    ]
}

// The bytes that a project uses by its row, the number of the entry that last changed it, and the recount.
fn used(rows: &Rows, alloc: Global, name: &[u8]) -> Result<(u128, u64, u128), Fail> {
    let project = ProjectName::read(alloc, name)?;
    let recount = usage_of(rows, &project);
    match rows.project(&project) {
        Some(row) => Ok((row.used, row.version, recount)),
        None => Ok((0, 0, recount)),
    }
}

#[test]
fn projects_that_share_a_digest(rt: HostRuntime) -> Result<(), Fail> {
    let rows = log(rt.alloc())?;
    assert_eq!(rt; counts(&rows), [2, 3, 4, 2, 2, 2, 0, 0, 0, 11]);
    assert_eq!(rt; used(&rows, rt.alloc(), b"library")?, (21, 10, 21));
    assert_eq!(rt; used(&rows, rt.alloc(), b"other")?, (5, 8, 5));
    assert_eq!(rt; used(&rows, rt.alloc(), b"nobody")?, (0, 0, 0));
    Ok(())
}

// The size, the moment and the entry of a blob's last change, and the moment of a pair's last touch.
fn touched(rows: &Rows, byte: u8, project: &ProjectName) -> (u64, u64, u64, u64) {
    match (rows.blob(&digest(byte)), rows.pair(project, &digest(byte))) {
        (Some(blob), Some(pair)) => (blob.size, blob.touched, blob.version, pair.touched),
        _ => (0, 0, 0, 0),
    }
}

#[test]
fn content_is_touched(rt: HostRuntime) -> Result<(), Fail> {
    let rows = log(rt.alloc())?;
    let library = ProjectName::read(rt.alloc(), b"library")?;
    let other = ProjectName::read(rt.alloc(), b"other")?;
    assert_eq!(rt; touched(&rows, 1, &library), (5, 11, 9, 11));
    assert_eq!(rt; touched(&rows, 2, &library), (7, 11, 9, 11));
    assert_eq!(rt; touched(&rows, 3, &library), (9, 12, 10, 12));
    assert_eq!(rt; touched(&rows, 1, &other), (5, 11, 9, 10));
    Ok(())
}

// When an artifact was pushed and pulled and which entry changed it last, and which entry put the tag.
fn made(rows: &Rows, name: &Name, byte: u8, tag: &Tag) -> (u64, u64, u64, u64) {
    match (rows.artifact(name, &digest(byte)), rows.tag(name, tag)) {
        (Some(row), Some(tag)) => (row.pushed, row.pulled, row.version, tag.version),
        _ => (0, 0, 0, 0),
    }
}

#[test]
fn manifests_are_put(rt: HostRuntime) -> Result<(), Fail> {
    let rows = log(rt.alloc())?;
    let name = Name::read(rt.alloc(), b"library/a")?;
    let first = Tag::read(rt.alloc(), b"v1")?;
    let second = Tag::read(rt.alloc(), b"v2")?;
    assert_eq!(rt; made(&rows, &name, 2, &first), (11, 13, 11, 9));
    assert_eq!(rt; made(&rows, &name, 3, &second), (12, 0, 10, 10));
    assert!(rt; rows.upload(3).is_some() && rows.upload(5).is_some());
    Ok(())
}

#[test]
fn the_log_fits(rt: HostRuntime) -> Result<(), Fail> {
    let rows = log(rt.alloc())?;
    assert_eq!(rt; fit(rt.alloc(), &rows)?, None);
    Ok(())
}

#[test]
fn a_registry_without_entries(rt: HostRuntime) -> Result<(), Fail> {
    let rows = Rows::new(rt.alloc());
    let library = ProjectName::read(rt.alloc(), b"library")?;
    assert_eq!(rt; usage_of(&rows, &library), 0);
    assert_eq!(rt; fit(rt.alloc(), &rows)?, None);
    Ok(())
}

#[test]
fn misfits_are_printed(rt: HostRuntime) -> Result<(), Fail> {
    let texts = [
        (Table::Project, 1, "project 1"),
        (Table::Blob, 2, "blob 2"),
        (Table::Pair, 10, "pair 10"),
        (Table::Artifact, 4, "artifact 4"),
        (Table::Tag, 5, "tag 5"),
        (Table::Upload, 6, "upload 6"),
        (Table::Job, 7, "job 7"),
        (Table::Candidate, 8, "candidate 8"),
        (Table::Snap, 9, "snap 9"),
        (
            Table::Entry,
            18_446_744_073_709_551_615,
            "entry 18446744073709551615",
        ),
    ];
    for (table, place, text) in texts {
        let misfit = Misfit { table, place };
        assert_eq!(rt; format!(in rt.alloc(); "{misfit}")?.as_str(), text);
    }
    Ok(())
}
