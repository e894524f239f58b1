//! Gets and checks over a desk on a store in memory, with ample memory.
ghost use Rattle.std.specs.Prelude.{◌≡◌, ◌≤◌, IsErrOf};
ghost use Rattle.hb_outside.specs.Causes.{Rose};
ghost use Rattle.hb_desk.specs.declared.refusals.Refusal.TheVariants.{Keeper, Storage, Spent};

use crate::{Check, Checked, Get, Got};
use hb_desk::{Ask, Desk, Opened, Refusal, Staged, Told, drive};
use hb_outside::StepClock;
use hb_records::{Listed, SealedList};
use hb_store::{MemReader, MemStage, MemStore, Reader, Stage, Store, StoreFault};
use hb_text::{Digest, Name, Reference, Text};
use std::alloc::Global;
use std::test::Fail;

const NOW: u64 = 1_700_000_000;

// More than one read takes.
const LONG: usize = 70_000;

// A desk that opens what its store holds, in whatever repository, and tells nothing of what it does.
#[derive(Drop)]
struct StoreDesk {
    alloc: Global,
    store: MemStore,
    moment: u64,
    // the last pull that was noted
    noted: Option<Digest>,
    // what its caller sealed: a get seals nothing
    sealed: SealedList,
}

// A reader of what is held under the digest.
fn fetched(store: &mut MemStore, digest: &Digest, now: u64) -> Result<MemReader, Refusal>
    ensures later { store.old.script.faults ≤ store.new.script.faults }
    ensures storage { IsErrOf result Storage → Rose store.old.script.faults store.new.script.faults }
    ensures keeper { IsErrOf result Keeper → ⊥ }
    ensures spent { IsErrOf result Spent → ⊥ }
{
    match store.fetch(digest, now) {
        Ok(reader) => Ok(reader),
        Err(StoreFault::Failed) => Err(Refusal::Storage),
        Err(StoreFault::Memory) => Err(Refusal::Memory),
    }
}

impl Desk for StoreDesk {
    ghost use Rattle.std.specs.Prelude.{false, None};

    type Stage = MemStage;

    type Reader = MemReader;

    ghost view = { λ d. record { state = None; events = None; entries = 0; moment = d.moment; mine = λ n. false; last = 0; sealed = d.sealed; keeper_faults = 0; store_faults = d.store.script.faults; told_bytes = false; sole = false; spent = false } };

    ghost one_length = { λ d. Unit {0} };

    ghost contents = { λ d. None };

    fn ask(&mut self, ask: &Ask, now: u64) -> Result<Told, Refusal> {
        self.moment = self.moment.max(now);
        match ask {
            Ask::NotePull { name: _, digest } => {
                self.noted = Some(*digest);
                Ok(Told::Done)
            }
            // every blob has three bytes, and no manifest is there
            Ask::TouchBlob { .. } => Ok(Told::Blob { size: 3 }),
            Ask::Look { .. } => Err(Refusal::ManifestUnknown),
            _ => Err(Refusal::Memory),
        }
    }

    fn stage(
        &mut self,
        _name: &Name,
        _upload: u64,
        _start: Option<u64>,
        _now: u64,
    ) -> Result<Staged<MemStage>, Refusal> {
        Err(Refusal::Memory)
    }

    fn place(
        &mut self,
        _upload: u64,
        _stage: MemStage,
        _digest: &Digest,
        now: u64,
    ) -> Result<u64, Refusal> {
        self.moment = self.moment.max(now);
        Err(Refusal::Memory)
    }

    fn drop_stage(&mut self, _upload: u64, _stage: MemStage, now: u64) -> Result<(), Refusal> {
        self.moment = self.moment.max(now);
        Err(Refusal::Memory)
    }

    fn drop_left_stage(&mut self, _upload: u64, _now: u64) -> Result<(), Refusal> {
        Err(Refusal::Memory)
    }

    fn open_blob(
        &mut self,
        _name: &Name,
        digest: &Digest,
        now: u64,
    ) -> Result<Opened<MemReader>, Refusal> {
        self.moment = self.moment.max(now);
        let reader = fetched(&mut self.store, digest, now)?;
        let size = reader.left();
        Ok(Opened {
            reader,
            digest: *digest,
            size,
            media: None,
        })
    }

    fn open_manifest(
        &mut self,
        _name: &Name,
        reference: &Reference,
        now: u64,
    ) -> Result<Opened<MemReader>, Refusal> {
        self.moment = self.moment.max(now);
        let Reference::Digest(digest) = reference else {
            return Err(Refusal::ManifestUnknown);
        };
        let reader = fetched(&mut self.store, digest, now)?;
        let size = reader.left();
        let media = Text::new(self.alloc, b"application/json")?;
        Ok(Opened {
            reader,
            digest: *digest,
            size,
            media: Some(media),
        })
    }

    fn seen(&self) -> u64 {
        0
    }

    fn moment(&self) -> u64 {
        self.moment
    }

    fn last(&self) -> u64 {
        0
    }
}

// A desk whose store holds these bytes, and whose readers fail at these calls.
fn desk(alloc: Global, bytes: &[u8], fails: &[u64]) -> Result<StoreDesk, Fail> {
    let fails = fails.to_vec(alloc)?;
    let mut store = MemStore::with_scripts(alloc, Vec::new(alloc), Vec::new(alloc), fails);
    let mut stage = store.stage(1, 0, NOW)?;
    stage.append(bytes)?;
    store.place(1, stage, &Digest::of(bytes), NOW)?;
    Ok(StoreDesk {
        alloc,
        store,
        moment: 0,
        noted: None,
        sealed: Listed::new(alloc),
    })
}

// It ended with these bytes under this digest, and with a media type or none.
fn is_content(get: &Get, digest: &Digest, bytes: &[u8], is_manifest: bool) -> bool {
    match get.end() {
        Some(
            Got::Content {
                digest: found,
                media,
                bytes: read,
            },
        ) => found == digest && read.bytes() == bytes && media.is_some() == is_manifest,
        _ => false,
    }
}

fn is_refused(get: &Get, refusal: &Refusal) -> bool {
    match get.end() {
        Some(
            Got::Refused {
                refusal: found,
                moment,
            },
        ) => found == refusal && *moment == NOW,
        _ => false,
    }
}

fn name(alloc: Global) -> Result<Name, Fail> {
    Ok(Name::read(alloc, b"library/a")?)
}

#[test]
fn a_get_begins_without_an_end(rt: HostRuntime) -> Result<(), Fail> {
    let alloc = rt.alloc();
    let digest = Digest::of(b"abc");
    assert!(rt; Get::blob(alloc, name(alloc)?, digest).end().is_none());
    let reference = Reference::Digest(digest);
    assert!(rt;
        Get::manifest(alloc, name(alloc)?, reference)?
            .end()
            .is_none()
    );
    Ok(())
}

#[test]
fn a_blob_is_got(rt: HostRuntime) -> Result<(), Fail> {
    let alloc = rt.alloc();
    let bytes = vec![in alloc; 7u8; LONG]?;
    let digest = Digest::of(&bytes);
    let mut desk = desk(alloc, &bytes, &[])?;
    let mut get = Get::blob(alloc, name(alloc)?, digest);
    drive(&mut desk, &mut StepClock::new(NOW, 0), &mut get);
    assert!(rt; is_content(&get, &digest, &bytes, false));
    assert!(rt; desk.noted.is_none());
    Ok(())
}

#[test]
fn a_manifest_is_got_and_its_pull_noted(rt: HostRuntime) -> Result<(), Fail> {
    let alloc = rt.alloc();
    let digest = Digest::of(b"{}");
    let mut desk = desk(alloc, b"{}", &[])?;
    let mut get = Get::manifest(alloc, name(alloc)?, Reference::Digest(digest))?;
    drive(&mut desk, &mut StepClock::new(NOW, 0), &mut get);
    assert!(rt; is_content(&get, &digest, b"{}", true));
    assert_eq!(rt; desk.noted, Some(digest));
    Ok(())
}

// The second read fails, and nothing of the first one is given.
#[test]
fn a_read_fails(rt: HostRuntime) -> Result<(), Fail> {
    let alloc = rt.alloc();
    let bytes = vec![in alloc; 7u8; LONG]?;
    let digest = Digest::of(&bytes);
    let mut desk = desk(alloc, &bytes, &[2])?;
    let mut get = Get::blob(alloc, name(alloc)?, digest);
    drive(&mut desk, &mut StepClock::new(NOW, 0), &mut get);
    assert!(rt; is_refused(&get, &Refusal::Storage));
    Ok(())
}

#[test]
fn an_open_is_refused(rt: HostRuntime) -> Result<(), Fail> {
    let alloc = rt.alloc();
    let mut desk = desk(alloc, b"{}", &[])?;
    let digest = Digest::of(b"other");
    let mut get = Get::manifest(alloc, name(alloc)?, Reference::Digest(digest))?;
    drive(&mut desk, &mut StepClock::new(NOW, 0), &mut get);
    assert!(rt; is_refused(&get, &Refusal::Storage));
    assert!(rt; desk.noted.is_none());
    Ok(())
}

// How a check ends over a desk.
fn checked<D: Desk>(desk: &mut D, mut check: Check) -> Option<Checked>
    requires { check.ended ≡ None }
{
    drive(desk, &mut StepClock::new(NOW, 0), &mut check);
    check.into_end()
}

// A check reads nothing of the store, whose readers fail.
#[test]
fn a_blob_is_checked(rt: HostRuntime) -> Result<(), Fail> {
    let alloc = rt.alloc();
    let digest = Digest::of(b"abc");
    let mut desk = desk(alloc, b"abc", &[1])?;
    match checked(&mut desk, Check::blob(name(alloc)?, digest)) {
        Some(
            Checked::Content {
                digest: found,
                size,
                media,
            },
        ) => assert_eq!(rt; (found, size, media.is_some()), (digest, 3, false)),
        _ => return Err(Fail::new("no content")),
    }
    Ok(())
}

#[test]
fn a_check_is_refused(rt: HostRuntime) -> Result<(), Fail> {
    let alloc = rt.alloc();
    let reference = Reference::Digest(Digest::of(b"{}"));
    let mut desk = desk(alloc, b"{}", &[])?;
    match checked(&mut desk, Check::manifest(name(alloc)?, reference)) {
        Some(Checked::Refused { refusal, moment }) => {
            assert_eq!(rt; refusal, Refusal::ManifestUnknown);
            assert_eq!(rt; moment, NOW);
        }
        _ => return Err(Fail::new("not refused")),
    }
    assert!(rt; desk.noted.is_none());
    Ok(())
}
