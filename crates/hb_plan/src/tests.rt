//! Plans over a keeper in memory, with ample memory.

use crate::laws::{
    a_row_has_the_version_of_its_project, built_entries_stay, rows_answer_as_the_audit,
};
use crate::{Planned, plan};
use hb_desk::{Ask, Refusal, Told};
use hb_keeper::{Keeper, MemKeeper};
use hb_model::changes::{Stamp, project_made};
use hb_records::{Batch, DigestList, Entry, EntryKind, Listed, Placement, PutAsk};
use hb_text::{Digest, Name, ProjectName, Reference, Tag, Text};
use std::alloc::Global;
use std::process::Abort;
use std::test::Fail;

// These do nothing: what they say is proved.
#[test]
fn laws(_rt: HostRuntime) -> Result<(), Fail> {
    rows_answer_as_the_audit();
    built_entries_stay();
    a_row_has_the_version_of_its_project();
    Ok(())
}

const NOW: u64 = 1_000_000;

fn digest(byte: u8) -> Digest {
    Digest([byte; 32])
}

fn digests(alloc: Global, bytes: &[u8]) -> Result<DigestList, Fail> {
    let mut list = Listed::new(alloc);
    for byte in bytes {
        list.push(digest(*byte))?;
    }
    Ok(list)
}

fn library(alloc: Global) -> Result<ProjectName, Fail> {
    Ok(ProjectName::read(alloc, b"library")?)
}

fn first_batch(alloc: Global) -> Result<Batch, Fail> {
    let stamp = Stamp {
        number: 1,
        moment: NOW,
    };
    let project = library(alloc)?;
    let changes = project_made(alloc, stamp, &project, 12)?;
    Ok(Batch {
        changes,
        entry: Entry {
            number: 1,
            moment: NOW,
            kind: EntryKind::ProjectMade { project, limit: 12 },
        },
    })
}

fn commit_first(keeper: &mut MemKeeper, alloc: Global) -> Result<(), Fail> {
    let batch = first_batch(alloc)?;
    keeper.commit(&batch)?;
    Ok(())
}

// A keeper of the project `library`, which may use 12 bytes. These of its calls fail; the first makes the
// project.
fn opened(alloc: Global, fails: &[u64]) -> Result<MemKeeper, Fail> {
    let mut keeper = MemKeeper::new(alloc, fails.to_vec(alloc)?);
    commit_first(&mut keeper, alloc)?;
    Ok(keeper)
}

// What upload 2 placed: content of 10 bytes, and manifests of 3 and of 2.
fn placements() -> [Placement; 3] {
    [(1, 10), (2, 3), (3, 2)].map(|(byte, size)| Placement {
        upload: 2,
        digest: digest(byte),
        size,
        placed: 1,
        gone: 0,
    })
}

// What the plan of the keeper's next entry is.
fn planned(
    keeper: &mut MemKeeper,
    alloc: Global,
    ask: &Ask,
) -> Result<Result<Planned, Refusal>, Fail> {
    let number = keeper.meta()?.entries + 1;
    Ok(plan(alloc, keeper, &placements(), ask, number, NOW))
}

// Commits the batch, where there is one. Nothing is refused then.
fn commit(keeper: &mut MemKeeper, batch: &Option<Batch>) -> Result<Option<Refusal>, Fail> {
    if let Some(batch) = batch {
        keeper.commit(batch)?;
    }
    Ok(None)
}

// Plans the ask and commits its batch. It gives the refusal, where there is one.
fn refusal_of(keeper: &mut MemKeeper, alloc: Global, ask: &Ask) -> Result<Option<Refusal>, Fail> {
    match planned(keeper, alloc, ask)? {
        Err(refusal) => Ok(Some(refusal)),
        Ok(planned) => commit(keeper, &planned.batch),
    }
}

// Plans the ask and commits its batch, where this is what it is refused by.
fn answers(
    rt: &impl Abort,
    keeper: &mut MemKeeper,
    alloc: Global,
    ask: &Ask,
    want: Option<Refusal>,
) -> Result<(), Fail> {
    let refused = refusal_of(keeper, alloc, ask)?;
    assert_eq!(rt; refused, want);
    Ok(())
}

fn put(
    alloc: Global,
    name: &[u8],
    byte: u8,
    size: u64,
    refs: &[u8],
    children: &[u8],
) -> Result<PutAsk, Fail> {
    Ok(PutAsk {
        name: Name::read(alloc, name)?,
        digest: digest(byte),
        size,
        media: Text::new(alloc, b"application/vnd.oci.image.manifest.v1+json")?,
        refs: digests(alloc, refs)?,
        children: digests(alloc, children)?,
        tag: Some(Tag::read(alloc, b"v1")?),
    })
}

// A repository, an upload, the digest and the size of a manifest, and what it refers to.
type Manifest = (&'static [u8], u64, (u8, u64), &'static [u8], &'static [u8]);

fn put_of(alloc: Global, manifest: Manifest) -> Result<PutAsk, Fail> {
    let (name, _, (byte, size), refs, children) = manifest;
    put(alloc, name, byte, size, refs, children)
}

fn missing_ref(byte: u8) -> Option<Refusal> {
    Some(Refusal::MissingRef {
        digest: digest(byte),
    })
}

fn missing_child(byte: u8) -> Option<Refusal> {
    Some(Refusal::MissingChild {
        digest: digest(byte),
    })
}

fn over(used: u128, adds: u64) -> Option<Refusal> {
    Some(Refusal::OverLimit {
        used,
        adds,
        limit: 12,
    })
}

// The limit, what is used, and the version that a plan tells of a project.
fn project_of(planned: &Result<Planned, Refusal>) -> Option<(i64, u128, u64)> {
    match &planned.as_ref().ok()?.told {
        Told::Project {
            limit,
            used,
            version,
        } => Some((*limit, *used, *version)),
        _ => None,
    }
}

// What the ask tells of a project.
fn shown(
    keeper: &mut MemKeeper,
    alloc: Global,
    ask: &Ask,
) -> Result<Option<(i64, u128, u64)>, Fail> {
    Ok(project_of(&planned(keeper, alloc, ask)?))
}

// An upload of that name begins, or is refused.
fn begins(
    rt: &impl Abort,
    keeper: &mut MemKeeper,
    alloc: Global,
    name: &[u8],
    want: Option<Refusal>,
) -> Result<(), Fail> {
    let name = Name::read(alloc, name)?;
    let ask = Ask::BeginUpload { name };
    answers(rt, keeper, alloc, &ask, want)
}

// The upload ends, or the ask is refused.
fn ends(
    rt: &impl Abort,
    keeper: &mut MemKeeper,
    alloc: Global,
    job: u64,
    upload: u64,
    want: Option<Refusal>,
) -> Result<(), Fail> {
    answers(rt, keeper, alloc, &Ask::EndUpload { job, upload }, want)
}

#[test]
fn uploads_begin_and_end(rt: HostRuntime) -> Result<(), Fail> {
    let alloc = rt.alloc();
    let mut keeper = opened(alloc, &[])?;
    begins(
        &rt,
        &mut keeper,
        alloc,
        b"other/a",
        Some(Refusal::NoProject),
    )?;
    begins(&rt, &mut keeper, alloc, b"library/a", None)?;
    begins(&rt, &mut keeper, alloc, b"library/a", None)?;
    ends(&rt, &mut keeper, alloc, 1, 3, Some(Refusal::JobUnknown))?;
    ends(&rt, &mut keeper, alloc, 0, 4, Some(Refusal::UploadUnknown))?;
    ends(&rt, &mut keeper, alloc, 0, 3, None)
}

// The upload of content 1 ends, or the ask is refused.
fn seals(
    rt: &impl Abort,
    keeper: &mut MemKeeper,
    alloc: Global,
    upload: u64,
    size: u64,
    want: Option<Refusal>,
) -> Result<(), Fail> {
    let ask = Ask::Seal {
        upload,
        digest: digest(1),
        size,
    };
    answers(rt, keeper, alloc, &ask, want)
}

#[test]
fn content_is_refused_in_order_and_then_sealed(rt: HostRuntime) -> Result<(), Fail> {
    let alloc = rt.alloc();
    let mut keeper = opened(alloc, &[])?;
    begins(&rt, &mut keeper, alloc, b"library/a", None)?;
    seals(&rt, &mut keeper, alloc, 3, 10, Some(Refusal::UploadUnknown))?;
    seals(&rt, &mut keeper, alloc, 2, 13, over(0, 13))?;
    seals(&rt, &mut keeper, alloc, 2, 12, None)?;
    assert_eq!(rt; keeper.upload(2)?.is_none(), true);
    assert_eq!(rt; keeper.rows().entries().len(), 3);
    Ok(())
}

// The name's project gets the content that the upload placed, or the ask is refused.
fn settles(
    rt: &impl Abort,
    keeper: &mut MemKeeper,
    alloc: Global,
    name: &[u8],
    upload: u64,
    byte: u8,
    want: Option<Refusal>,
) -> Result<(), Fail> {
    let ask = Ask::Settle {
        name: Name::read(alloc, name)?,
        upload,
        digest: digest(byte),
    };
    answers(rt, keeper, alloc, &ask, want)
}

// The limit, what is used and the version that the project is shown with.
fn shows(
    rt: &impl Abort,
    keeper: &mut MemKeeper,
    alloc: Global,
    name: &[u8],
    want: Option<(i64, u128, u64)>,
) -> Result<(), Fail> {
    let name = ProjectName::read(alloc, name)?;
    let ask = Ask::ShowProject { name };
    assert_eq!(rt; shown(keeper, alloc, &ask)?, want);
    Ok(())
}

// The size that the project has content 1 with, and the version of its row.
fn settled_rows(keeper: &mut MemKeeper, alloc: Global) -> Result<(Option<u64>, Option<u64>), Fail> {
    let pair = keeper.pair(&library(alloc)?, &digest(1))?;
    let blob = keeper.blob(&digest(1))?;
    Ok((pair.map(|row| row.size), blob.map(|row| row.version)))
}

#[test]
fn content_is_refused_in_order_and_then_settled(rt: HostRuntime) -> Result<(), Fail> {
    let alloc = rt.alloc();
    let mut keeper = opened(alloc, &[])?;
    settles(
        &rt,
        &mut keeper,
        alloc,
        b"other/a",
        2,
        1,
        Some(Refusal::NoProject),
    )?;
    settles(
        &rt,
        &mut keeper,
        alloc,
        b"library/a",
        3,
        1,
        Some(Refusal::NotPlaced),
    )?;
    settles(&rt, &mut keeper, alloc, b"library/a", 2, 1, None)?;
    settles(&rt, &mut keeper, alloc, b"library/a", 2, 1, None)?;
    settles(&rt, &mut keeper, alloc, b"library/a", 2, 2, over(10, 3))?;
    shows(&rt, &mut keeper, alloc, b"library", Some((12, 10, 2)))?;
    shows(&rt, &mut keeper, alloc, b"other", None)?;
    assert_eq!(rt; settled_rows(&mut keeper, alloc)?, (Some(10), Some(3)));
    Ok(())
}

// The upload of the manifest ends, or the ask is refused.
fn seals_manifest(
    rt: &impl Abort,
    keeper: &mut MemKeeper,
    alloc: Global,
    manifest: Manifest,
    want: Option<Refusal>,
) -> Result<(), Fail> {
    let put = put_of(alloc, manifest)?;
    let upload = manifest.1;
    answers(rt, keeper, alloc, &Ask::SealManifest { upload, put }, want)
}

#[test]
fn a_manifest_is_refused_in_order_and_then_sealed(rt: HostRuntime) -> Result<(), Fail> {
    let alloc = rt.alloc();
    let mut keeper = opened(alloc, &[])?;
    let whole: Manifest = (b"library/a", 2, (3, 2), &[1], &[]);
    begins(&rt, &mut keeper, alloc, b"library/a", None)?;
    seals_manifest(&rt, &mut keeper, alloc, whole, missing_ref(1))?;
    settles(&rt, &mut keeper, alloc, b"library/a", 2, 1, None)?;
    let elsewhere: Manifest = (b"library/b", 2, (3, 2), &[1], &[]);
    seals_manifest(
        &rt,
        &mut keeper,
        alloc,
        elsewhere,
        Some(Refusal::UploadUnknown),
    )?;
    let index: Manifest = (b"library/a", 2, (3, 2), &[1], &[2]);
    seals_manifest(&rt, &mut keeper, alloc, index, missing_child(2))?;
    let greater: Manifest = (b"library/a", 2, (2, 3), &[1], &[]);
    seals_manifest(&rt, &mut keeper, alloc, greater, over(10, 3))?;
    seals_manifest(&rt, &mut keeper, alloc, whole, None)?;
    assert_eq!(rt; keeper.upload(2)?.is_none(), true);
    Ok(())
}

// A pull of the artifact is noted.
fn pulls(rt: &impl Abort, keeper: &mut MemKeeper, alloc: Global, byte: u8) -> Result<(), Fail> {
    let ask = Ask::NotePull {
        name: Name::read(alloc, b"library/a")?,
        digest: digest(byte),
    };
    answers(rt, keeper, alloc, &ask, None)
}

// The manifest is put, or the ask is refused.
fn puts(
    rt: &impl Abort,
    keeper: &mut MemKeeper,
    alloc: Global,
    manifest: Manifest,
    want: Option<Refusal>,
) -> Result<(), Fail> {
    let put = put_of(alloc, manifest)?;
    let upload = manifest.1;
    answers(rt, keeper, alloc, &Ask::PutArtifact { upload, put }, want)
}

// The size, the last pull and the version of the row of manifest 3.
fn put_artifact(keeper: &mut MemKeeper, name: &Name) -> Result<Option<(u64, u64, u64)>, Fail> {
    let row = keeper.artifact(name, &digest(3))?;
    Ok(row.map(|row| (row.size, row.pulled, row.version)))
}

// Whether the tag names manifest 3, and the tag's version.
fn put_tag(
    keeper: &mut MemKeeper,
    alloc: Global,
    name: &Name,
) -> Result<Option<(bool, u64)>, Fail> {
    let row = keeper.tag(name, &Tag::read(alloc, b"v1")?)?;
    Ok(row.map(|row| (row.digest == digest(3), row.version)))
}

// The version of the row of blob 1.
fn blob_version(keeper: &mut MemKeeper) -> Result<Option<u64>, Fail> {
    Ok(keeper.blob(&digest(1))?.map(|row| row.version))
}

// Manifest 3 and its tag are put: its size, last pull and version, whether the tag names it, and the tag's version; and
// the version of the blob that it refers to.
fn is_put(rt: &impl Abort, keeper: &mut MemKeeper, alloc: Global) -> Result<(), Fail> {
    let name = Name::read(alloc, b"library/a")?;
    assert_eq!(rt; put_artifact(keeper, &name)?, Some((2, NOW, 4)));
    assert_eq!(rt; put_tag(keeper, alloc, &name)?, Some((true, 3)));
    assert_eq!(rt; blob_version(keeper)?, Some(3));
    Ok(())
}

// A pull of what isn't there makes no entry.
#[test]
fn a_manifest_is_refused_in_order_and_then_put(rt: HostRuntime) -> Result<(), Fail> {
    let alloc = rt.alloc();
    let mut keeper = opened(alloc, &[])?;
    settles(&rt, &mut keeper, alloc, b"library/a", 2, 1, None)?;
    pulls(&rt, &mut keeper, alloc, 3)?;
    assert_eq!(rt; keeper.rows().entries().len(), 2);
    let elsewhere: Manifest = (b"other/a", 2, (3, 2), &[1], &[]);
    puts(&rt, &mut keeper, alloc, elsewhere, Some(Refusal::NoProject))?;
    let unplaced: Manifest = (b"library/a", 3, (3, 2), &[1], &[]);
    puts(&rt, &mut keeper, alloc, unplaced, Some(Refusal::NotPlaced))?;
    let more: Manifest = (b"library/a", 2, (3, 2), &[1, 9], &[]);
    puts(&rt, &mut keeper, alloc, more, missing_ref(9))?;
    let index: Manifest = (b"library/a", 2, (3, 2), &[1], &[8]);
    puts(&rt, &mut keeper, alloc, index, missing_child(8))?;
    let greater: Manifest = (b"library/a", 2, (2, 3), &[1], &[]);
    puts(&rt, &mut keeper, alloc, greater, over(10, 3))?;
    let whole: Manifest = (b"library/a", 2, (3, 2), &[1], &[]);
    puts(&rt, &mut keeper, alloc, whole, None)?;
    pulls(&rt, &mut keeper, alloc, 3)?;
    is_put(&rt, &mut keeper, alloc)?;
    shows(&rt, &mut keeper, alloc, b"library", Some((12, 12, 3)))
}

// A blob of the repository's project is touched, or the ask is refused.
fn touches(
    rt: &impl Abort,
    keeper: &mut MemKeeper,
    alloc: Global,
    name: &[u8],
    want: Option<Refusal>,
) -> Result<(), Fail> {
    let name = Name::read(alloc, name)?;
    let digest = digest(1);
    answers(rt, keeper, alloc, &Ask::TouchBlob { name, digest }, want)
}

// A project has a blob by any of its repositories.
#[test]
fn a_blob_is_touched_where_the_project_has_it(rt: HostRuntime) -> Result<(), Fail> {
    let alloc = rt.alloc();
    let mut keeper = opened(alloc, &[])?;
    touches(
        &rt,
        &mut keeper,
        alloc,
        b"other/a",
        Some(Refusal::NoProject),
    )?;
    touches(
        &rt,
        &mut keeper,
        alloc,
        b"library/a",
        Some(Refusal::BlobUnknown),
    )?;
    settles(&rt, &mut keeper, alloc, b"library/a", 2, 1, None)?;
    touches(&rt, &mut keeper, alloc, b"library/b", None)?;
    assert_eq!(rt; blob_version(&mut keeper)?, Some(3));
    assert_eq!(rt; keeper.rows().entries().len(), 3);
    Ok(())
}

// What the reference names is told, or the ask is refused.
fn looks(
    rt: &impl Abort,
    keeper: &mut MemKeeper,
    alloc: Global,
    name: &[u8],
    reference: Reference,
    want: Option<Refusal>,
) -> Result<(), Fail> {
    let name = Name::read(alloc, name)?;
    answers(rt, keeper, alloc, &Ask::Look { name, reference }, want)
}

// By its tag or its digest. It makes no entry, and a blob isn't a manifest.
#[test]
fn a_manifest_is_looked_at_where_it_is(rt: HostRuntime) -> Result<(), Fail> {
    let alloc = rt.alloc();
    let mut keeper = opened(alloc, &[])?;
    let unknown = Some(Refusal::ManifestUnknown);
    let tag = Reference::Tag(Tag::read(alloc, b"v1")?);
    looks(&rt, &mut keeper, alloc, b"library/a", tag, unknown)?;
    settles(&rt, &mut keeper, alloc, b"library/a", 2, 1, None)?;
    let whole: Manifest = (b"library/a", 2, (3, 2), &[1], &[]);
    puts(&rt, &mut keeper, alloc, whole, None)?;
    let tag = Reference::Tag(Tag::read(alloc, b"v1")?);
    looks(&rt, &mut keeper, alloc, b"library/a", tag, None)?;
    let named = Reference::Digest(digest(3));
    looks(&rt, &mut keeper, alloc, b"library/a", named, None)?;
    let elsewhere = Reference::Digest(digest(3));
    looks(
        &rt,
        &mut keeper,
        alloc,
        b"library/b",
        elsewhere,
        Some(Refusal::ManifestUnknown),
    )?;
    let blob = Reference::Digest(digest(1));
    looks(
        &rt,
        &mut keeper,
        alloc,
        b"library/a",
        blob,
        Some(Refusal::ManifestUnknown),
    )?;
    let other = Reference::Digest(digest(3));
    looks(
        &rt,
        &mut keeper,
        alloc,
        b"other/a",
        other,
        Some(Refusal::NoProject),
    )?;
    assert_eq!(rt; keeper.rows().entries().len(), 3);
    Ok(())
}

// What planning the put of manifest 3 as entry 3 is refused by.
fn put_refused(keeper: &mut MemKeeper, alloc: Global) -> Result<Option<Refusal>, Fail> {
    let put = put(alloc, b"library/a", 3, 2, &[1], &[])?;
    let ask = Ask::PutArtifact { upload: 2, put };
    Ok(plan(alloc, keeper, &placements(), &ask, 3, NOW).err())
}

// The plan of the put is refused where this call fails, after what it refers to was settled. Two entries stand then.
fn put_fails_at(
    rt: &impl Abort,
    alloc: Global,
    call: u64,
    want: Option<Refusal>,
) -> Result<(), Fail> {
    let mut keeper = opened(alloc, &[call])?;
    settles(rt, &mut keeper, alloc, b"library/a", 2, 1, None)?;
    assert_eq!(rt; put_refused(&mut keeper, alloc)?, want);
    assert_eq!(rt; keeper.rows().entries().len(), 2);
    Ok(())
}

// Six calls make the project and settle what the manifest refers to. The plan makes seven, and behind them none fails.
#[test]
fn a_put_is_refused_where_the_keeper_fails(rt: HostRuntime) -> Result<(), Fail> {
    for call in 7..14 {
        put_fails_at(&rt, rt.alloc(), call, Some(Refusal::Keeper))?;
    }
    put_fails_at(&rt, rt.alloc(), 14, None)
}
