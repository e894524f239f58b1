//! Copies of every record, and keys in their order.

use crate::laws::{
    keys_are_in_total_order, keys_compare_as_defined, limits, patterns_by_example,
    patterns_match_whole_texts, retention_by_example,
};
use crate::{
    Artifact, ArtifactKey, Assoc, Batch, Blob, Candidate, Change, CollectSum, Digest, Duplicate,
    Entry, EntryKind, ImmuteList, ImmuteRule, JobKind, JobRow, Key, Listed, MAX_ENTRIES,
    MAX_MOMENT, MOST_ROWS, MOST_RULES, Meta, Name, Notes, Page, Phase, Placement, Project,
    ProjectName, PutAsk, RetainList, RetainRule, RetainSum, Row, Rules, Sealed, Selector, Sighting,
    SnapTag, Spell, Status, Sums, Table, Tag, TagRow, TagVerdict, Template, Text, Upload, Verdict,
    WINDOW,
};
use std::alloc::Global;
use std::test::Fail;

fn digest(byte: u8) -> Digest {
    Digest([byte; 32])
}

fn digests(alloc: Global, bytes: &[u8]) -> Result<Listed<Digest>, Fail> {
    let mut list = Listed::new(alloc);
    for byte in bytes {
        list.push(digest(*byte))?;
    }
    Ok(list)
}

fn selector(alloc: Global, exclude: bool, pattern: &[u8]) -> Result<Selector, Fail> {
    Ok(Selector {
        exclude,
        pattern: Text::new(alloc, pattern)?,
    })
}

fn rules(alloc: Global) -> Result<Rules, Fail> {
    let mut immutes = Listed::new(alloc);
    immutes.push(ImmuteRule {
        repo: selector(alloc, false, b"**")?,
        tag: selector(alloc, true, b"dev-*")?,
    })?;
    let mut retains = Listed::new(alloc);
    retains.push(RetainRule {
        template: Template::PushedLatest(5),
        repo: selector(alloc, false, b"**")?,
        tag: selector(alloc, false, b"v*")?,
    })?;
    Ok(Rules {
        immutes: ImmuteList::of(immutes),
        retains: RetainList::of(retains),
    })
}

#[test]
fn rules_are_copied(rt: HostRuntime) -> Result<(), Fail> {
    let alloc = rt.alloc();
    let project = Project {
        name: ProjectName::read(alloc, b"library")?,
        limit: -1,
        used: 1 << 70,
        rules: rules(alloc)?,
        version: 3,
    };
    let copied = project.copy(alloc)?;
    assert_eq!(rt; copied.name.bytes(), b"library".as_slice());
    assert_eq!(rt;
        (copied.limit, copied.used, copied.version),
        (-1, 1 << 70, 3)
    );
    assert_eq!(rt; MOST_RULES, 15);
    assert_eq!(rt; copied.rules.immutes.as_slice().len(), 1);
    let immute = &copied.rules.immutes.as_slice()[0];
    assert!(rt; immute.tag.exclude);
    assert_eq!(rt; immute.tag.pattern.bytes(), b"dev-*".as_slice());
    assert_eq!(rt; copied.rules.retains.as_slice().len(), 1);
    let retain = &copied.rules.retains.as_slice()[0];
    assert_eq!(rt; retain.template, Template::PushedLatest(5));
    assert_eq!(rt; retain.repo.pattern.bytes(), b"**".as_slice());
    Ok(())
}

fn name(alloc: Global) -> Result<Name, Fail> {
    Ok(Name::read(alloc, b"library/a")?)
}

fn tag(alloc: Global, text: &[u8]) -> Result<Tag, Fail> {
    Ok(Tag::read(alloc, text)?)
}

#[test]
fn rows_of_digests_are_copied(rt: HostRuntime) -> Result<(), Fail> {
    let alloc = rt.alloc();
    let blob = Blob {
        digest: digest(1),
        size: 3,
        status: Status::Idle,
        version: 4,
        touched: 5,
        bar: 0,
    };
    assert_eq!(rt; blob.copy(alloc)?, blob);
    let pair = Assoc {
        project: ProjectName::read(alloc, b"library")?,
        digest: digest(1),
        size: 3,
        touched: 5,
    };
    let pair = pair.copy(alloc)?;
    assert_eq!(rt; pair.project.bytes(), b"library".as_slice());
    assert_eq!(rt; (pair.digest, pair.size, pair.touched), (digest(1), 3, 5));
    Ok(())
}

fn artifact(alloc: Global) -> Result<Artifact, Fail> {
    Ok(Artifact {
        name: name(alloc)?,
        digest: digest(2),
        size: 7,
        media: Text::new(alloc, b"application/vnd.oci.image.manifest.v1+json")?,
        refs: digests(alloc, &[3, 1])?,
        children: digests(alloc, &[9])?,
        pushed: 5,
        pulled: 6,
        version: 8,
    })
}

#[test]
fn artifacts_are_copied(rt: HostRuntime) -> Result<(), Fail> {
    let artifact = artifact(rt.alloc())?.copy(rt.alloc())?;
    assert_eq!(rt; artifact.name.bytes(), b"library/a".as_slice());
    assert_eq!(rt; artifact.media.bytes().len(), 42);
    assert_eq!(rt; artifact.refs.as_slice(), [digest(3), digest(1)].as_slice());
    assert_eq!(rt; artifact.children.as_slice(), [digest(9)].as_slice());
    assert_eq!(rt; (artifact.digest, artifact.size), (digest(2), 7));
    assert_eq!(rt;
        (artifact.pushed, artifact.pulled, artifact.version),
        (5, 6, 8)
    );
    Ok(())
}

fn tag_row(alloc: Global) -> Result<TagRow, Fail> {
    Ok(TagRow {
        name: name(alloc)?,
        tag: tag(alloc, b"v1")?,
        digest: digest(2),
        pushed: 5,
        version: 8,
    })
}

fn upload(alloc: Global) -> Result<Upload, Fail> {
    Ok(Upload {
        id: 2,
        name: name(alloc)?,
        offset: 3,
        touched: 4,
        version: 5,
    })
}

#[test]
fn rows_of_names_are_copied(rt: HostRuntime) -> Result<(), Fail> {
    let row = tag_row(rt.alloc())?.copy(rt.alloc())?;
    assert_eq!(rt; row.tag.bytes(), b"v1".as_slice());
    assert_eq!(rt; (row.digest, row.pushed, row.version), (digest(2), 5, 8));
    let upload = upload(rt.alloc())?.copy(rt.alloc())?;
    assert_eq!(rt; upload.name.bytes(), b"library/a".as_slice());
    assert_eq!(rt;
        (upload.id, upload.offset, upload.touched, upload.version),
        (2, 3, 4, 5)
    );
    Ok(())
}

fn put(alloc: Global) -> Result<PutAsk, Fail> {
    Ok(PutAsk {
        name: name(alloc)?,
        digest: digest(2),
        size: 7,
        media: Text::new(alloc, b"application/vnd.oci.image.index.v1+json")?,
        refs: digests(alloc, &[])?,
        children: digests(alloc, &[4])?,
        tag: Some(tag(alloc, b"all")?),
    })
}

#[test]
fn puts_are_copied(rt: HostRuntime) -> Result<(), Fail> {
    let put = put(rt.alloc())?.copy(rt.alloc())?;
    assert_eq!(rt; put.children.as_slice(), [digest(4)].as_slice());
    assert!(rt; put.refs.is_empty());
    assert_eq!(rt; put.tag.map(|tag| tag.bytes().len()), Some(3));
    Ok(())
}

fn snap(alloc: Global) -> Result<SnapTag, Fail> {
    Ok(SnapTag {
        job: 21,
        name: name(alloc)?,
        tag: tag(alloc, b"t3")?,
        digest: digest(2),
        version: 8,
        pushed: 1_000_003,
        pulled: 0,
        verdict: TagVerdict::Pending,
    })
}

#[test]
fn rows_of_jobs_are_copied(rt: HostRuntime) -> Result<(), Fail> {
    let alloc = rt.alloc();
    let kinds = [
        JobKind::Collect { untagged: true },
        JobKind::Retain {
            project: ProjectName::read(alloc, b"p1")?,
        },
    ];
    for kind in &kinds {
        assert_eq!(rt; &kind.copy(alloc)?, kind);
    }
    let job = JobRow {
        number: 5,
        kind: JobKind::Collect { untagged: false },
        phase: Phase::Marking,
        cursor: Some(digest(7)),
        claimed: 6,
        barred: 1,
        version: 9,
    };
    let job = job.copy(alloc)?;
    assert_eq!(rt; job.kind, JobKind::Collect { untagged: false });
    assert_eq!(rt;
        (job.number, job.phase, job.cursor),
        (5, Phase::Marking, Some(digest(7)))
    );
    assert_eq!(rt; (job.claimed, job.barred, job.version), (6, 1, 9));
    let candidate = Candidate {
        job: 5,
        digest: digest(1),
        size: 3,
        version: 8,
        verdict: Verdict::Touched,
    };
    assert_eq!(rt; candidate.copy(alloc)?, candidate);
    let snap = snap(alloc)?.copy(alloc)?;
    assert_eq!(rt; snap.tag.bytes(), b"t3".as_slice());
    assert_eq!(rt;
        (snap.job, snap.version, snap.pushed, snap.pulled),
        (21, 8, 1_000_003, 0)
    );
    assert_eq!(rt; snap.verdict, TagVerdict::Pending);
    Ok(())
}

#[test]
fn sums_are_compared(rt: HostRuntime) -> Result<(), Fail> {
    let collected = CollectSum {
        job: 9,
        marked: 1,
        collected: 1,
        touched: 0,
        barred: 0,
        failed: 0,
        freed: 3,
    };
    let retained = RetainSum {
        job: 21,
        tags: 5,
        retained: 2,
        dropped: 1,
        immutable: 1,
        changed: 1,
    };
    assert_eq!(rt; Sums::Collect(collected), Sums::Collect(collected));
    assert!(rt; Sums::Retain(retained) != Sums::Collect(collected));
    Ok(())
}

#[test]
fn notes_are_copied(rt: HostRuntime) -> Result<(), Fail> {
    let alloc = rt.alloc();
    let mut notes = Notes {
        out: Listed::new(alloc),
        sealed: Listed::new(alloc),
        placements: Listed::new(alloc),
        spells: Listed::new(alloc),
        sightings: Listed::new(alloc),
        claims: Listed::new(alloc),
    };
    let sealed = Sealed {
        upload: 2,
        digest: digest(1),
        size: 3,
    };
    let placement = Placement {
        upload: 4,
        digest: digest(2),
        size: 3,
        placed: 9,
        gone: 0,
    };
    let spell = Spell {
        job: 5,
        digest: digest(3),
        taking: 8,
        acknowledged: true,
    };
    let sighting = Sighting {
        job: 5,
        digest: digest(4),
        size: 6,
    };
    notes.out.push(7)?;
    notes.sealed.push(sealed)?;
    notes.placements.push(placement)?;
    notes.spells.push(spell)?;
    notes.sightings.push(sighting)?;
    notes.claims.push(5)?;
    let copied = notes.copy(alloc)?;
    assert_eq!(rt; copied.out.as_slice(), [7].as_slice());
    assert_eq!(rt; copied.sealed.as_slice(), [sealed].as_slice());
    assert_eq!(rt; copied.placements.as_slice(), [placement].as_slice());
    assert_eq!(rt; copied.spells.as_slice(), [spell].as_slice());
    assert_eq!(rt; copied.sightings.as_slice(), [sighting].as_slice());
    assert_eq!(rt; copied.claims.as_slice(), [5].as_slice());
    Ok(())
}

fn batch(alloc: Global) -> Result<Batch, Fail> {
    let mut changes = Listed::new(alloc);
    changes.push(Change::Set(Row::Snap(snap(alloc)?)))?;
    changes.push(Change::Drop(Key::Upload { id: 2 }))?;
    Ok(Batch {
        changes,
        entry: Entry {
            number: MAX_ENTRIES,
            moment: MAX_MOMENT,
            kind: EntryKind::UploadEnded { job: 0, upload: 2 },
        },
    })
}

#[test]
fn batches_are_copied(rt: HostRuntime) -> Result<(), Fail> {
    let copied = batch(rt.alloc())?.copy(rt.alloc())?;
    assert_eq!(rt; copied.changes.len(), 2);
    assert!(rt;
        matches!(
            copied.changes.as_slice(),
            [
                Change::Set(Row::Snap(_)),
                Change::Drop(Key::Upload { id: 2 })
            ]
        )
    );
    assert_eq!(rt;
        (copied.entry.number, copied.entry.moment),
        (1 << 62, 253_370_764_799)
    );
    assert!(rt;
        matches!(
            copied.entry.kind,
            EntryKind::UploadEnded { job: 0, upload: 2 }
        )
    );
    Ok(())
}

#[test]
fn pages_and_meta_have_their_limits(rt: HostRuntime) -> Result<(), Fail> {
    let meta = Meta {
        entries: MAX_ENTRIES,
        latest: MAX_MOMENT,
    };
    assert_eq!(rt;
        (meta.entries, meta.latest, WINDOW),
        (1 << 62, 253_370_764_799, 7_200)
    );
    let mut snaps = Listed::new(rt.alloc());
    snaps.push(snap(rt.alloc())?)?;
    let page = Page::Snap(snaps).copy(rt.alloc())?;
    assert!(rt; matches!(&page, Page::Snap(rows) if rows.len() <= MOST_ROWS));
    Ok(())
}

// A key of each table in their order, and beside some of them the next one in its table.
#[test]
fn keys_stand_in_order(rt: HostRuntime) -> Result<(), Fail> {
    let alloc = rt.alloc();
    keys_are_in_total_order();
    limits();
    keys_compare_as_defined();
    patterns_match_whole_texts();
    patterns_by_example();
    retention_by_example();
    let keys = [
        Key::Project {
            name: ProjectName::read(alloc, b"z")?,
        },
        Key::Blob { digest: digest(1) },
        Key::Pair {
            project: ProjectName::read(alloc, b"a")?,
            digest: digest(9),
        },
        Key::Pair {
            project: ProjectName::read(alloc, b"b")?,
            digest: digest(1),
        },
        Key::Artifact {
            name: name(alloc)?,
            digest: digest(1),
        },
        Key::Tag {
            name: name(alloc)?,
            tag: tag(alloc, b"Z")?,
        },
        Key::Tag {
            name: name(alloc)?,
            tag: tag(alloc, b"a")?,
        },
        Key::Upload { id: 9 },
        Key::Job { number: 1 },
        Key::Candidate {
            job: 1,
            digest: digest(9),
        },
        Key::Candidate {
            job: 2,
            digest: digest(1),
        },
        Key::Snap {
            job: 1,
            name: name(alloc)?,
            tag: tag(alloc, b"a")?,
        },
        Key::Entry { number: 1 },
        Key::Entry { number: 2 },
    ];
    for (i, key) in keys.iter().enumerate() {
        assert_eq!(rt; &key.copy(alloc)?, key);
        for (j, other) in keys.iter().enumerate() {
            assert_eq!(rt; key.cmp(other), i.cmp(&j), "{i} {j}");
        }
    }
    assert_eq!(rt; keys[5].table(), Table::Tag);
    let artifact = ArtifactKey {
        name: name(alloc)?,
        digest: digest(1),
    };
    assert_eq!(rt; artifact.copy(alloc)?, artifact);
    Ok(())
}
