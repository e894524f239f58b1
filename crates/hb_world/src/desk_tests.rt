//! A world as a desk, over a keeper and a store in memory, with ample memory.
ghost use Rattle.std.specs.Prelude.{◌≡◌, true, length, Some, IfOk, IsSomeAnd};
ghost use Rattle.hb_text.specs.Digests.{digest_of};

use crate::{World, empty_devices_are_at_rest};
use hb_desk::{Alone, Ask, Desk, Others, Refusal, Told};
use hb_keeper::MemKeeper;
use hb_records::{DigestList, Duplicate, Listed, PutAsk, Sealed};
use hb_store::{MemStore, Reader, Stage, Store};
use hb_text::{Digest, Name, Reference, Tag, Text};
use std::alloc::Global;
use std::marker::Model;
use std::process::Abort;
use std::test::Fail;

const NOW: u64 = 1_700_000_000;

type MemWorld = World<MemKeeper, MemStore>;

// A world on new devices, of whose calls these fail, and of each stage these. Its start makes 11 calls of the keeper.
fn world(
    alloc: Global,
    keeper_fails: &[u64],
    store_fails: &[u64],
    stage_fails: &[u64],
) -> Result<MemWorld, Fail> {
    empty_devices_are_at_rest();
    let keeper = MemKeeper::new(alloc, keeper_fails.to_vec(alloc)?);
    let store_fails = store_fails.to_vec(alloc)?;
    let stage_fails = stage_fails.to_vec(alloc)?;
    let store = MemStore::with_scripts(alloc, store_fails, stage_fails, Vec::new(alloc));
    match World::start(alloc, keeper, store, NOW) {
        Ok(world) => Ok(world),
        Err(refused) => Err(refused.fault)?,
    }
}

fn ended<D: Desk>(desk: &mut D, upload: u64, refusal: Refusal) -> Refusal {
    let _ended = desk.ask(&Ask::EndUpload { job: 0, upload }, NOW);
    refusal
}

// An upload begins.
fn begin<D: Desk>(alloc: Global, desk: &mut D, name: &Name) -> Result<u64, Refusal> {
    let name = name.copy(alloc)?;
    match desk.ask(&Ask::BeginUpload { name }, NOW) {
        Ok(Told::Begun { upload }) => Ok(upload),
        Ok(_) => Err(Refusal::Memory),
        Err(refusal) => Err(refusal),
    }
}

// The upload's stage, with these bytes.
fn stage<D: Desk>(desk: &mut D, name: &Name, upload: u64, bytes: &[u8]) -> Result<D::Stage, Refusal>
    ensures made { IfOk result (λ s. D.Stage.upload s ≡ upload) }
    ensures bytes { (D.view desk.new).told_bytes ≡ true → IfOk result (λ s. IsSomeAnd (D.Stage.bytes s) (λ b. (digest_of b ≡ digest_of bytes.now) × (length b ≡ D.Stage.size s))) }
{
    let mut staged = desk.stage(name, upload, Some(0), NOW)?;
    if staged.offset != 0 || staged.stage.append(bytes).is_err() {
        let _dropped = desk.drop_stage(upload, staged.stage, NOW);
        return Err(Refusal::Storage);
    }
    Ok(staged.stage)
}

// Seals the upload and places its stage.
fn place<D: Desk>(
    desk: &mut D,
    upload: u64,
    stage: D::Stage,
    digest: Digest,
) -> Result<u64, Refusal>
    requires stage { D.Stage.upload stage ≡ upload }
    requires bytes { (D.view desk.old).told_bytes ≡ true → IsSomeAnd (D.Stage.bytes stage) (λ b. (digest_of b ≡ digest) × (length b ≡ D.Stage.size stage)) }
{
    let size = stage.len();
    let asked = desk.ask(
        &Ask::Seal {
            upload,
            digest,
            size,
        },
        NOW,
    );
    match asked {
        Ok(_) => desk.place(upload, stage, &digest, NOW),
        Err(refusal) => {
            let _dropped = desk.drop_stage(upload, stage, NOW);
            Err(refusal)
        }
    }
}

// The same of a manifest.
fn place_manifest<D: Desk>(
    desk: &mut D,
    upload: u64,
    stage: D::Stage,
    mut put: PutAsk,
) -> Result<PutAsk, Refusal>
    requires stage { D.Stage.upload stage ≡ upload }
    requires bytes { (D.view desk.old).told_bytes ≡ true → IsSomeAnd (D.Stage.bytes stage) (λ b. (digest_of b ≡ put.digest) × (length b ≡ D.Stage.size stage)) }
{
    put.size = stage.len();
    let digest = put.digest;
    let ask = Ask::SealManifest { upload, put };
    let placed = match desk.ask(&ask, NOW) {
        Ok(_) => desk.place(upload, stage, &digest, NOW),
        Err(refusal) => {
            let _dropped = desk.drop_stage(upload, stage, NOW);
            Err(refusal)
        }
    };
    match (ask, placed) {
        (Ask::SealManifest { put, .. }, Ok(_)) => Ok(put),
        (_, Err(refusal)) => Err(refusal),
        _ => Err(Refusal::Memory),
    }
}

fn push_begun<D: Desk>(
    desk: &mut D,
    name: &Name,
    upload: u64,
    bytes: &[u8],
) -> Result<(), Refusal> {
    let digest = Digest::of(bytes);
    let stage = stage(desk, name, upload, bytes)?;
    let _placed = place(desk, upload, stage, digest)?;
    Ok(())
}

// Pushes the bytes: an upload begins, is staged, sealed and placed, and the project gets what was placed.
fn push<D: Desk>(alloc: Global, desk: &mut D, name: &Name, bytes: &[u8]) -> Result<(), Refusal> {
    let upload = begin(alloc, desk, name)?;
    if let Err(refusal) = push_begun(desk, name, upload, bytes) {
        return Err(ended(desk, upload, refusal));
    }
    let name = name.copy(alloc)?;
    let digest = Digest::of(bytes);
    let _settled = desk.ask(
        &Ask::Settle {
            name,
            upload,
            digest,
        },
        NOW,
    )?;
    Ok(())
}

const MANIFEST: &[u8] = b"{\"schemaVersion\":2}";

// The references of `MANIFEST`: `{}` and `abc`.
fn refs(alloc: Global) -> Result<DigestList, Refusal> {
    let mut refs = Listed::new(alloc);
    refs.push(Digest::of(b"{}"))?;
    refs.push(Digest::of(b"abc"))?;
    Ok(refs)
}

fn tag(alloc: Global) -> Result<Tag, Refusal> {
    match Tag::read(alloc, b"v1") {
        Ok(tag) => Ok(tag),
        Err(_) => Err(Refusal::Memory),
    }
}

// `MANIFEST`, to be put with the tag v1.
fn manifest(alloc: Global, name: &Name) -> Result<PutAsk, Refusal>
    ensures { IfOk result (λ put. put.digest ≡ digest_of MANIFEST.now) }
{
    let name = name.copy(alloc)?;
    let media = Text::new(alloc, b"application/vnd.oci.image.manifest.v1+json")?;
    let refs = refs(alloc)?;
    let tag = tag(alloc)?;
    Ok(PutAsk {
        name,
        digest: Digest::of(MANIFEST),
        size: 0,
        media,
        refs,
        children: Listed::new(alloc),
        tag: Some(tag),
    })
}

fn put_begun<D: Desk>(
    alloc: Global,
    desk: &mut D,
    name: &Name,
    upload: u64,
) -> Result<PutAsk, Refusal> {
    let put = manifest(alloc, name)?;
    let stage = stage(desk, name, upload, MANIFEST)?;
    place_manifest(desk, upload, stage, put)
}

// Puts `MANIFEST`: an upload begins, is staged, sealed and placed, and the artifact is put with its tag.
fn put<D: Desk>(alloc: Global, desk: &mut D, name: &Name) -> Result<(), Refusal> {
    let upload = begin(alloc, desk, name)?;
    let put = match put_begun(alloc, desk, name, upload) {
        Ok(put) => put,
        Err(refusal) => return Err(ended(desk, upload, refusal)),
    };
    let _done = desk.ask(&Ask::PutArtifact { upload, put }, NOW)?;
    Ok(())
}

// The digest of the bytes of what was opened, and their number.
fn read_all<R: Reader>(mut reader: R) -> Result<(Digest, usize), Refusal> {
    let mut into = [0u8; 64];
    match reader.read(&mut into) {
        Ok(count) => Ok((Digest::of(&into[..count]), count)),
        Err(_) => Err(Refusal::Storage),
    }
}

// What the tag v1 names: the digest and the number of the bytes that are read, and the digest and the size that
// were told.
fn tagged<D: Desk>(
    alloc: Global,
    desk: &mut D,
    name: &Name,
) -> Result<((Digest, usize), (Digest, u64)), Refusal> {
    let reference = Reference::Tag(tag(alloc)?);
    let opened = desk.open_manifest(name, &reference, NOW)?;
    let told = (opened.digest, opened.size);
    Ok((read_all(opened.reader)?, told))
}

// The same of a blob.
fn blob<D: Desk>(
    desk: &mut D,
    name: &Name,
    bytes: &[u8],
) -> Result<((Digest, usize), (Digest, u64)), Refusal> {
    let opened = desk.open_blob(name, &Digest::of(bytes), NOW)?;
    let told = (opened.digest, opened.size);
    Ok((read_all(opened.reader)?, told))
}

fn whole(bytes: &[u8]) -> ((Digest, usize), (Digest, u64)) {
    let digest = Digest::of(bytes);
    ((digest, bytes.len()), (digest, bytes.len() as u64))
}

// Another caller, who asks the same before each event. It seals nothing.
#[derive(Drop)]
struct Other {
    ask: Ask,
}

impl Model for Other {
    ghost use Rattle.std.specs.Prelude.{◌≡◌, ℕ, false};
    ghost use Rattle.hb_desk.specs.Calls.{Asked, Outcome};
    ghost use Rattle.hb_desk.specs.Clause.{moves_seal};
    ghost use Rattle.hb_desk.specs.declared.asks.Ask.{Ask};

    ghost Value = { Ask };

    ghost view = { λ o. o.ask };

    ghost invariant = { λ o. (u : ℕ) (outcome : Outcome) → moves_seal u (Asked o.ask) outcome ≡ false };
}

impl<S: Store> Others<World<MemKeeper, S>> for Other {
    fn between(&mut self, desk: &mut World<MemKeeper, S>, _own: &[Sealed], now: u64) {
        let _asked = desk.ask(&self.ask, now);
    }
}

// A world in which uploads of `library/b` begin before each event of the caller.
fn shared(alloc: Global) -> Result<Alone<MemWorld, Other>, Fail> {
    let name = Name::read(alloc, b"library/b")?;
    let other = Other {
        ask: Ask::BeginUpload { name },
    };
    let world = world(alloc, &[], &[], &[])?;
    Ok(Alone::new(alloc, world, other))
}

// The reference that the manifest is refused for, where it is.
fn missing<D: Desk>(alloc: Global, desk: &mut D, name: &Name) -> Option<Digest> {
    match put(alloc, desk, name) {
        Err(Refusal::MissingRef { digest }) => Some(digest),
        _ => None,
    }
}

// Pushes what the manifest refers to, and puts it before and behind the last of it. It gives what the first put was
// refused for.
fn push_and_put<D: Desk>(
    alloc: Global,
    desk: &mut D,
    name: &Name,
) -> Result<Option<Digest>, Refusal> {
    push(alloc, desk, name, b"{}")?;
    let missed = missing(alloc, desk, name);
    push(alloc, desk, name, b"abc")?;
    put(alloc, desk, name)?;
    Ok(missed)
}

// The manifest and both blobs are opened whole.
fn opens<D: Desk>(
    rt: &impl Abort,
    alloc: Global,
    desk: &mut D,
    name: &Name,
) -> Result<(), Refusal> {
    let manifest = tagged(alloc, desk, name)?;
    assert_eq!(rt; manifest, whole(MANIFEST));
    let abc = blob(desk, name, b"abc")?;
    assert_eq!(rt; abc, whole(b"abc"));
    let config = blob(desk, name, b"{}")?;
    assert_eq!(rt; config, whole(b"{}"));
    Ok(())
}

// Each is what it is to be, over a desk that others share.
fn puts<D: Desk>(rt: &impl Abort, alloc: Global, desk: &mut D, name: &Name) -> Result<(), Refusal> {
    let missed = push_and_put(alloc, desk, name)?;
    assert_eq!(rt; missed, Some(Digest::of(b"abc")));
    opens(rt, alloc, desk, name)?;
    assert_eq!(rt; (desk.seen(), desk.last()), (35, 32));
    Ok(())
}

// A manifest is put where what it refers to is there, while another caller acts before each event.
#[test]
fn a_manifest_is_put_while_another_acts(rt: HostRuntime) -> Result<(), Fail> {
    let name = Name::read(rt.alloc(), b"library/a")?;
    let mut desk = shared(rt.alloc())?;
    puts(&rt, rt.alloc(), &mut desk, &name)?;
    Ok(())
}

// A push on a world of whose devices these calls fail: why it is refused, how many entries stand then, and whether
// the project has the blob.
fn push_failing(
    alloc: Global,
    keeper_fails: &[u64],
    store_fails: &[u64],
    stage_fails: &[u64],
) -> Result<(Option<Refusal>, u64, bool), Fail> {
    let name = Name::read(alloc, b"library/a")?;
    let mut desk = world(alloc, keeper_fails, store_fails, stage_fails)?;
    let refused = push(alloc, &mut desk, &name, b"abc").err();
    let has = desk.open_blob(&name, &Digest::of(b"abc"), NOW).is_ok();
    Ok((refused, desk.seen(), has))
}

// Each call of the keeper that a push makes fails once: two for the upload's beginning, two for its stage, four for
// its seal, and four for the settling. What was committed stands, and an upload that isn't sealed is ended.
#[test]
fn a_push_is_refused_where_the_keeper_fails(rt: HostRuntime) -> Result<(), Fail> {
    for call in 12..24 {
        let entries = if call < 14 { 1 } else { 3 };
        let ended = push_failing(rt.alloc(), &[call], &[], &[])?;
        assert_eq!(rt; ended, (Some(Refusal::Keeper), entries, false), "at {call}");
    }
    assert_eq!(rt; push_failing(rt.alloc(), &[], &[], &[])?, (None, 4, true));
    Ok(())
}

// Each call of the store that it makes fails once: that which gives the stage, and that which places it. So does
// the stage's.
#[test]
fn a_push_is_refused_where_the_storage_fails(rt: HostRuntime) -> Result<(), Fail> {
    for call in 1..3 {
        let ended = push_failing(rt.alloc(), &[], &[call], &[])?;
        assert_eq!(rt; ended, (Some(Refusal::Storage), 3, false), "at {call}");
    }
    let ended = push_failing(rt.alloc(), &[], &[], &[1])?;
    assert_eq!(rt; ended, (Some(Refusal::Storage), 3, false));
    Ok(())
}
