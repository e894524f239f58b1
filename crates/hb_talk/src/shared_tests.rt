//! A connection over a world that another caller shares, who acts between the connection's events.
ghost use Rattle.std.specs.Prelude.{◌≡◌, ℕ, List, true, false, length, None, Some, IfOk, IsSomeAnd};
ghost use Rattle.std.specs.List.{list_any};
ghost use Rattle.hb_text.specs.Digests.{digest_of};
ghost use Rattle.hb_records.specs.declared.notes.Sealed.{Sealed as SealedUpload};
ghost use Rattle.hb_desk.specs.Calls.{Asked, Outcome};
ghost use Rattle.hb_desk.specs.Clause.{Between, moves_seal};
ghost use Rattle.hb_desk.specs.Notes.{is_sealed, sealed_at};
ghost use Rattle.hb_desk.specs.Noting.{seal_of};

use crate::TalkEnd;
use crate::tests::{
    CREATED_ABC, CREATED_CONFIG, CREATED_MANIFEST, CREATED_NOTHING, GET_ABC, GET_TAG, GOT_ABC,
    GOT_MANIFEST, MemWorld, PUSH_ABC, PUSH_CONFIG, PUSH_NOTHING, PUT_MANIFEST, answered, joined,
    world,
};
use hb_desk::{Alone, Ask, Desk, Others, Refusal, Told};
use hb_keeper::MemKeeper;
use hb_records::{Duplicate, Listed, PutAsk, Sealed};
use hb_store::{Stage, Store};
use hb_text::{Digest, Name, Tag, Text};
use hb_world::World;
use std::alloc::Global;
use std::test::Fail;

const CONFIG: &[u8] = b"{}";

// Refers to `CONFIG` alone.
const MANIFEST: &[u8] =
    b"{\"schemaVersion\":2,\"config\":{\"digest\":\"sha256:44136fa355b3678a1146ad16f7e8649e94fb4fc21fe77e8310c060f61caaff8a\",\"size\":2},\"layers\":[]}";

const GET_OTHER: &[u8] =
    b"GET /v2/library/b/manifests/v1 HTTP/1.1\r\nHost: r\r\nContent-Length: 0\r\n\r\n";

const GOT_OTHER: &[u8] =
    b"HTTP/1.1 200 OK\r\nContent-Length: 134\r\nContent-Type: application/vnd.oci.image.manifest.v1+json\r\nDocker-Content-Digest: sha256:1fa4aa4a246a351a197bbd8fb03d254d1331e8b17a1ae3d292546e185f042997\r\n\r\n{\"schemaVersion\":2,\"config\":{\"digest\":\"sha256:44136fa355b3678a1146ad16f7e8649e94fb4fc21fe77e8310c060f61caaff8a\",\"size\":2},\"layers\":[]}";

// The other does nothing.
fn rests<D: Desk>(desk: &D)
    ensures { (own : List SealedUpload) → Between own (D.view desk.now) (D.view desk.now) }
{
    let _seen = desk.seen();
}

// Asks for what seals nothing.
fn asks<D: Desk>(desk: &mut D, ask: &Ask, now: u64) -> Result<Told, Refusal>
    requires unspent { (d : D) → (D.view d).spent ≡ false }
    requires unsealing { (u : ℕ) (outcome : Outcome) → moves_seal u (Asked ask.now) outcome ≡ false }
    ensures { (own : List SealedUpload) → Between own (D.view desk.old) (D.view desk.new) }
{
    desk.ask(ask, now)
}

// The upload's stage, with these bytes.
fn staged<D: Desk>(
    desk: &mut D,
    name: &Name,
    upload: u64,
    bytes: &[u8],
    now: u64,
) -> Result<D::Stage, Refusal>
    requires unspent { (d : D) → (D.view d).spent ≡ false }
    ensures made { IfOk result (λ s. (D.Stage.upload s ≡ upload) × (D.Stage.size s ≡ length bytes.now)) }
    ensures bytes { (D.view desk.new).told_bytes ≡ true → IfOk result (λ s. IsSomeAnd (D.Stage.bytes s) (λ b. (digest_of b ≡ digest_of bytes.now) × (length b ≡ D.Stage.size s))) }
    ensures between { (own : List SealedUpload) → Between own (D.view desk.old) (D.view desk.new) }
{
    let mut staged = desk.stage(name, upload, Some(0), now)?;
    if staged.offset != 0 || staged.stage.append(bytes).is_err() {
        let _dropped = desk.drop_stage(upload, staged.stage, now);
        return Err(Refusal::Storage);
    }
    Ok(staged.stage)
}

// Seals an upload by this ask, and places its stage.
fn seal_and_place<D: Desk>(
    desk: &mut D,
    ask: &Ask,
    upload: u64,
    stage: D::Stage,
    digest: &Digest,
    now: u64,
) -> Result<u64, Refusal>
    requires unspent { (d : D) → (D.view d).spent ≡ false }
    requires seal { seal_of ask.now ≡ Some (record { upload = upload; digest = digest.now; size = D.Stage.size stage }) }
    requires stage { D.Stage.upload stage ≡ upload }
    requires bytes { (D.view desk.old).told_bytes ≡ true → IsSomeAnd (D.Stage.bytes stage) (λ b. (digest_of b ≡ digest.now) × (length b ≡ D.Stage.size stage)) }
    ensures { (own : List SealedUpload) → sealed_at upload own ≡ None → Between own (D.view desk.old) (D.view desk.new) }
{
    match desk.ask(ask, now) {
        Ok(_) => desk.place(upload, stage, digest, now),
        Err(refusal) => {
            let _dropped = desk.drop_stage(upload, stage, now);
            Err(refusal)
        }
    }
}

// Whether the upload is among these.
fn is_among(upload: u64, sealed: &[Sealed]) -> bool
    ensures { result ≡ list_any (is_sealed upload) sealed.now }
{
    sealed.iter().any(|seal| upload == seal.upload)
}

// A manifest of this digest and size that refers to `CONFIG`, to be put as `v1`.
fn manifest(alloc: Global, name: &Name, digest: Digest, size: u64) -> Result<PutAsk, Refusal>
    ensures { IfOk result (λ put. (put.digest ≡ digest) × (put.size ≡ size)) }
{
    let name = name.copy(alloc)?;
    let media = Text::new(alloc, b"application/vnd.oci.image.manifest.v1+json")?;
    let mut refs = Listed::new(alloc);
    refs.push(Digest::of(CONFIG))?;
    let Ok(tag) = Tag::read(alloc, b"v1") else {
        return Err(Refusal::Memory);
    };
    Ok(PutAsk {
        name,
        digest,
        size,
        media,
        refs,
        children: Listed::new(alloc),
        tag: Some(tag),
    })
}

// What the other does next with its upload.
#[derive(Clone, Copy)]
enum Next {
    Begin,
    Place,
    Settle,
    Nothing,
}

// The other caller, who pushes `CONFIG`, and then puts `MANIFEST`.
#[derive(Drop)]
struct Pusher {
    alloc: Global,
    name: Name,
    // before how many events of the connection's it does nothing yet
    wait: u64,
    next: Next,
    // whether the blob is pushed, and the manifest is put
    puts: bool,
    upload: u64,
}

impl Pusher {
    // The bytes of its upload.
    fn bytes(&self) -> &'static [u8] {
        if self.puts { MANIFEST } else { CONFIG }
    }

    // The ask that seals its upload.
    fn seal(&self, digest: Digest, size: u64) -> Result<Ask, Refusal>
        ensures { IfOk result (λ ask. seal_of ask ≡ Some (record { upload = self.now.upload; digest = digest; size = size })) }
    {
        let upload = self.upload;
        if self.puts {
            let put = manifest(self.alloc, &self.name, digest, size)?;
            return Ok(Ask::SealManifest { upload, put });
        }
        Ok(Ask::Seal {
            upload,
            digest,
            size,
        })
    }

    // The ask that ends its push or its put.
    fn settling(&self) -> Result<Ask, Refusal>
        ensures { IfOk result (λ ask. (u : ℕ) (outcome : Outcome) → moves_seal u (Asked ask) outcome ≡ false) }
    {
        let upload = self.upload;
        let bytes = self.bytes();
        let digest = Digest::of(bytes);
        if self.puts {
            let put = manifest(self.alloc, &self.name, digest, bytes.len() as u64)?;
            return Ok(Ask::PutArtifact { upload, put });
        }
        let name = self.name.copy(self.alloc)?;
        Ok(Ask::Settle {
            name,
            upload,
            digest,
        })
    }

    // An upload begins.
    fn begin<D: Desk>(&mut self, desk: &mut D, now: u64)
        requires unspent { (d : D) → (D.view d).spent ≡ false }
        ensures { (own : List SealedUpload) → Between own (D.view desk.old) (D.view desk.new) }
    {
        rests(desk);
        let Ok(name) = self.name.copy(self.alloc) else {
            return;
        };
        if let Ok(Told::Begun { upload }) = asks(desk, &Ask::BeginUpload { name }, now) {
            self.upload = upload;
            self.next = Next::Place;
        }
    }

    // Stages, seals and places the bytes, where the upload isn't the connection's to place.
    fn place<D: Desk>(&mut self, desk: &mut D, own: &[Sealed], now: u64)
        requires unspent { (d : D) → (D.view d).spent ≡ false }
        ensures { Between own.now (D.view desk.old) (D.view desk.new) }
    {
        rests(desk);
        if is_among(self.upload, own) {
            return;
        }
        let bytes = self.bytes();
        let digest = Digest::of(bytes);
        let Ok(seal) = self.seal(digest, bytes.len() as u64) else {
            return;
        };
        let Ok(stage) = staged(desk, &self.name, self.upload, bytes, now) else {
            return;
        };
        if seal_and_place(desk, &seal, self.upload, stage, &digest, now).is_ok() {
            self.next = Next::Settle;
        }
    }

    // Settles the blob, or puts the manifest.
    fn settle<D: Desk>(&mut self, desk: &mut D, now: u64)
        requires unspent { (d : D) → (D.view d).spent ≡ false }
        ensures { (own : List SealedUpload) → Between own (D.view desk.old) (D.view desk.new) }
    {
        rests(desk);
        let Ok(ask) = self.settling() else {
            return;
        };
        if asks(desk, &ask, now).is_ok() {
            self.next = if self.puts {
                Next::Nothing
            } else {
                Next::Begin
            };
            self.puts = true;
        }
    }

    // What it does before an event of the connection's.
    fn act<D: Desk>(&mut self, desk: &mut D, own: &[Sealed], now: u64)
        requires unspent { (d : D) → (D.view d).spent ≡ false }
        ensures { Between own.now (D.view desk.old) (D.view desk.new) }
    {
        if self.wait > 0 {
            self.wait -= 1;
            return rests(desk);
        }
        match self.next {
            Next::Begin => self.begin(desk, now),
            Next::Place => self.place(desk, own, now),
            Next::Settle => self.settle(desk, now),
            Next::Nothing => rests(desk),
        }
    }
}

impl<S: Store> Others<World<MemKeeper, S>> for Pusher {
    fn between(&mut self, desk: &mut World<MemKeeper, S>, own: &[Sealed], now: u64) {
        self.act(desk, own, now);
    }
}

// A world on which the other begins before the event of the connection that follows so many of them.
fn shared(alloc: Global, wait: u64) -> Result<Alone<MemWorld, Pusher>, Fail> {
    let pusher = Pusher {
        alloc,
        name: Name::read(alloc, b"library/b")?,
        wait,
        next: Next::Begin,
        puts: false,
        upload: 0,
    };
    Ok(Alone::new(alloc, world(alloc, &[], &[])?, pusher))
}

// An image is pushed and pulled, whatever the other does between. What the other put is pulled too, behind requests
// that give it the time for it.
#[test]
fn two_callers_push_and_put(rt: HostRuntime) -> Result<(), Fail> {
    let alloc = rt.alloc();
    let input = joined(
        alloc,
        &[
            PUSH_CONFIG,
            PUSH_ABC,
            PUSH_NOTHING,
            PUT_MANIFEST,
            GET_TAG,
            GET_ABC,
            GET_ABC,
            GET_ABC,
            GET_ABC,
            GET_ABC,
            GET_OTHER,
        ],
    )?;
    let output = joined(
        alloc,
        &[
            CREATED_CONFIG,
            CREATED_ABC,
            CREATED_NOTHING,
            CREATED_MANIFEST,
            GOT_MANIFEST,
            GOT_ABC,
            GOT_ABC,
            GOT_ABC,
            GOT_ABC,
            GOT_ABC,
            GOT_OTHER,
        ],
    )?;
    for wait in 0..21 {
        let mut desk = shared(alloc, wait)?;
        let (end, said) = answered(alloc, &mut desk, &input, 65_536)?;
        assert_eq!(rt; end, TalkEnd::Closed);
        assert_eq!(rt; said.as_slice(), output.as_slice(), "after {wait}");
    }
    Ok(())
}
