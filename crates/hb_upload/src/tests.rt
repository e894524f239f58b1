//! Pushes and puts over a world in memory, with ample memory.
ghost use Rattle.std.specs.Prelude.{◌≡◌, length, IfOk};
ghost use Rattle.hb_text.specs.Digests.{digest_of};
ghost use Rattle.hb_upload.specs.declared.phase.Phase.TheVariants as phase;

use crate::{Push, Stop};
use hb_desk::{Desk, Refusal, drive};
use hb_keeper::MemKeeper;
use hb_outside::StepClock;
use hb_records::{Duplicate, Listed, PutAsk};
use hb_store::MemStore;
use hb_text::{Digest, Name, Reference, Tag, Text};
use hb_world::{World, empty_devices_are_at_rest};
use std::alloc::Global;
use std::process::Abort;
use std::test::Fail;

const NOW: u64 = 1_700_000_000;

type MemWorld = World<MemKeeper, MemStore>;

// A world on new devices, of whose calls these fail. Its start makes 11 calls of the keeper.
fn world(alloc: Global, keeper_fails: &[u64], store_fails: &[u64]) -> Result<MemWorld, Fail> {
    empty_devices_are_at_rest();
    let keeper = MemKeeper::new(alloc, keeper_fails.to_vec(alloc)?);
    let store = MemStore::new(alloc, store_fails.to_vec(alloc)?);
    match World::start(alloc, keeper, store, NOW) {
        Ok(world) => Ok(world),
        Err(refused) => Err(refused.fault)?,
    }
}

// How a push ended.
#[derive(Debug, PartialEq, Eq, Drop)]
enum End {
    Pushed,
    Wrong(Digest),
    Refused { status: u16, moment: u64 },
}

fn status(refusal: &Refusal) -> u16 {
    match refusal {
        Refusal::Keeper | Refusal::Storage => 500,
        Refusal::NoProject | Refusal::MissingRef { .. } => 404,
        _ => 507,
    }
}

fn ended<D: Desk>(push: &Push<D>) -> Option<End> {
    match push.end()? {
        Stop::Pushed => Some(End::Pushed),
        Stop::WrongDigest { found } => Some(End::Wrong(*found)),
        Stop::Refused { refusal, moment } => Some(End::Refused {
            status: status(refusal),
            moment: *moment,
        }),
    }
}

// How the push ends, whose events are made at this moment.
fn driven<D: Desk>(desk: &mut D, mut push: Push<D>, now: u64) -> Option<End>
    requires { push.phase ≡ phase.Begin }
{
    drive(desk, &mut StepClock::new(now, 0), &mut push);
    ended(&push)
}

// A push of these bytes under the digest of those.
fn blob<D: Desk>(alloc: Global, name: &Name, bytes: &[u8], named: &[u8]) -> Result<Push<D>, Refusal>
    ensures { IfOk result (λ p. p.phase ≡ phase.Begin) }
{
    let name = name.copy(alloc)?;
    let bytes = Text::new(alloc, bytes)?;
    Ok(Push::begin(alloc, name, Digest::of(named), bytes)?)
}

fn pushed<D: Desk>(
    alloc: Global,
    desk: &mut D,
    name: &Name,
    bytes: &[u8],
    named: &[u8],
) -> Result<(Option<End>, u64), Refusal> {
    let push = blob(alloc, name, bytes, named)?;
    let end = driven(desk, push, NOW);
    Ok((end, desk.seen()))
}

// A blob whose digest is another is cleaned up, and one whose digest is right is pushed.
fn pushes<D: Desk>(
    rt: &impl Abort,
    alloc: Global,
    desk: &mut D,
    name: &Name,
) -> Result<(), Refusal> {
    let wrong = pushed(alloc, desk, name, b"abd", b"abc")?;
    assert_eq!(rt; wrong, (Some(End::Wrong(Digest::of(b"abd"))), 3));
    let right = pushed(alloc, desk, name, b"abc", b"abc")?;
    assert_eq!(rt; right, (Some(End::Pushed), 6));
    Ok(())
}

#[test]
fn a_blob_is_pushed_or_cleaned_up(rt: HostRuntime) -> Result<(), Fail> {
    let name = Name::read(rt.alloc(), b"library/a")?;
    let mut desk = world(rt.alloc(), &[], &[])?;
    pushes(&rt, rt.alloc(), &mut desk, &name)?;
    Ok(())
}

// How a push ends at this moment, by the caller's clock, and how many entries stand then.
fn pushed_at<D: Desk>(
    alloc: Global,
    desk: &mut D,
    name: &Name,
    now: u64,
) -> Result<(Option<End>, u64), Refusal> {
    let push = blob(alloc, name, b"abc", b"abc")?;
    let end = driven(desk, push, now);
    Ok((end, desk.seen()))
}

fn no_project(moment: u64) -> (Option<End>, u64) {
    let end = End::Refused {
        status: 404,
        moment,
    };
    (Some(end), 1)
}

// A refusal tells the desk's moment, which doesn't fall where the clock does.
fn refuses<D: Desk>(
    rt: &impl Abort,
    alloc: Global,
    desk: &mut D,
    name: &Name,
) -> Result<(), Refusal> {
    let later = pushed_at(alloc, desk, name, NOW + 7)?;
    assert_eq!(rt; later, no_project(NOW + 7));
    let behind = pushed_at(alloc, desk, name, NOW)?;
    assert_eq!(rt; behind, no_project(NOW + 7));
    Ok(())
}

#[test]
fn a_refusal_tells_its_moment(rt: HostRuntime) -> Result<(), Fail> {
    let name = Name::read(rt.alloc(), b"other/a")?;
    let mut desk = world(rt.alloc(), &[], &[])?;
    refuses(&rt, rt.alloc(), &mut desk, &name)?;
    Ok(())
}

const MANIFEST: &[u8] = b"{\"schemaVersion\":2}";

fn tag(alloc: Global) -> Result<Tag, Refusal> {
    match Tag::read(alloc, b"v1") {
        Ok(tag) => Ok(tag),
        Err(_) => Err(Refusal::Memory),
    }
}

// `MANIFEST`, to be put with the tag v1. It refers to nothing.
fn manifest(alloc: Global, name: &Name) -> Result<PutAsk, Refusal>
    ensures { IfOk result (λ put. (put.digest ≡ digest_of MANIFEST.now) × (put.size ≡ length MANIFEST.now)) }
{
    let name = name.copy(alloc)?;
    let media = Text::new(alloc, b"application/vnd.oci.image.manifest.v1+json")?;
    let tag = tag(alloc)?;
    Ok(PutAsk {
        name,
        digest: Digest::of(MANIFEST),
        size: MANIFEST.len() as u64,
        media,
        refs: Listed::new(alloc),
        children: Listed::new(alloc),
        tag: Some(tag),
    })
}

fn manifest_push<D: Desk>(alloc: Global, name: &Name) -> Result<Push<D>, Refusal>
    ensures { IfOk result (λ p. p.phase ≡ phase.Begin) }
{
    let put = manifest(alloc, name)?;
    let bytes = Text::new(alloc, MANIFEST)?;
    Ok(Push::begin_manifest(alloc, put, bytes)?)
}

// How the put of `MANIFEST` ends, how many entries stand then, and the digest that v1 names.
fn put<D: Desk>(
    alloc: Global,
    desk: &mut D,
    name: &Name,
) -> Result<(Option<End>, u64, Digest), Refusal> {
    let push = manifest_push(alloc, name)?;
    let end = driven(desk, push, NOW);
    let entries = desk.seen();
    let reference = Reference::Tag(tag(alloc)?);
    let opened = desk.open_manifest(name, &reference, NOW)?;
    Ok((end, entries, opened.digest))
}

fn puts<D: Desk>(rt: &impl Abort, alloc: Global, desk: &mut D, name: &Name) -> Result<(), Refusal> {
    let put = put(alloc, desk, name)?;
    assert_eq!(rt; put, (Some(End::Pushed), 4, Digest::of(MANIFEST)));
    Ok(())
}

#[test]
fn a_manifest_is_put(rt: HostRuntime) -> Result<(), Fail> {
    let name = Name::read(rt.alloc(), b"library/a")?;
    let mut desk = world(rt.alloc(), &[], &[])?;
    puts(&rt, rt.alloc(), &mut desk, &name)?;
    Ok(())
}

// A push over a world of whose keeper this call fails: how it ends, and how many entries stand then.
fn push_failing(alloc: Global, name: &Name, call: u64) -> Result<(Option<End>, u64), Fail> {
    let mut desk = world(alloc, &[call], &[])?;
    Ok(pushed(alloc, &mut desk, name, b"abc", b"abc")?)
}

// Where a device fails, the upload is ended, and what was committed stands.
fn fails(rt: &impl Abort, alloc: Global, name: &Name, call: u64, entries: u64) -> Result<(), Fail> {
    let ended = push_failing(alloc, name, call)?;
    let refused = End::Refused {
        status: 500,
        moment: NOW,
    };
    assert_eq!(rt; ended, (Some(refused), entries), "at {call}");
    Ok(())
}

// The calls of the keeper that begin the upload, take its stage, seal and settle it.
#[test]
fn a_push_ends_where_a_device_fails(rt: HostRuntime) -> Result<(), Fail> {
    let name = Name::read(rt.alloc(), b"library/a")?;
    for (call, entries) in [(12, 1), (13, 1), (14, 3), (19, 3), (20, 3), (23, 3)] {
        fails(&rt, rt.alloc(), &name, call, entries)?;
    }
    Ok(())
}
