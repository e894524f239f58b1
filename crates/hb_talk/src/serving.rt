//! What is done over a desk for a request.
ghost use Rattle.std.specs.Prelude.{◌≡◌, ℕ, List, [], length, true, false, None, IfErr, IfOk};
ghost use Rattle.std.specs.Option.{option_copied};
ghost use Rattle.hb_text.specs.Digests.{digest_of};
ghost use Rattle.hb_http.specs.AnswerHeads.{HasPhrase};
ghost use Rattle.hb_desk.specs.Clause.{View};
ghost use Rattle.hb_desk.specs.Points.{IsStreamFault, Moves};
ghost use Rattle.hb_desk.specs.ClockedDesks.{clocked};
ghost use Rattle.hb_upload.specs.Deciding.{decided};
ghost use Rattle.hb_upload.specs.Phases.{PhaseFits, is_ended};
ghost use Rattle.hb_upload.specs.Places.{Parcel};
ghost use Rattle.hb_upload.specs.Pushes.{Went};
ghost use Rattle.hb_upload.specs.declared.phase.Stop.{Stop as Stopping};
ghost use Rattle.hb_ops.specs.Checks.{Went as CheckWent};
ghost use Rattle.hb_ops.specs.Gets.{PhaseFits as GetFits, Went as GetWent, is_ended as is_got};
ghost use Rattle.hb_talk.specs.Driving.{IsPut, IsRefused, Worked, parcel_of};
ghost use Rattle.hb_talk.specs.Tasks.{location_of, push_answer as answer_by, names_other, put_of, task_of};
ghost use Rattle.hb_talk.specs.Tasks.Task.{Checks, Gets, Pushes};

use crate::answers::{
    bad_manifest, base, checked, created, got, location, no_route, unsupported, wrong_digest,
};
use crate::wanted::Wanted;
use hb_desk::{Answer, Desk, drive};
use hb_manifest::{Manifest, read_manifest};
use hb_ops::{Check, Get, refused};
use hb_outside::Clock;
use hb_records::PutAsk;
use hb_text::{Digest, Memory, Name, Reference, Tag, Text};
use hb_upload::{Push, Stop};
use std::alloc::Global;

// What a push of this digest that ended so is answered: where it was pushed, the content stands at the location.
fn push_answer(alloc: Global, stop: Stop, digest: Digest, location: Text) -> Result<Answer, Memory>
    ensures { IfOk result (λ a. (b : Parcel) → location ≡ location_of b → b.digest ≡ digest → a ≡ answer_by b stop) }
{
    match stop {
        Stop::Pushed => Ok(created(alloc, location, digest)),
        Stop::WrongDigest { found } => wrong_digest(alloc, found),
        Stop::Refused { refusal, moment } => refused(alloc, &refusal, moment),
    }
}

// Pushes, and answers by how that ended. The location is made before the first event, so that none is told in vain.
fn push<D: Desk, C: Clock>(
    alloc: Global,
    desk: &mut D,
    clock: &mut C,
    push: Push<D>,
    digest: Digest,
    location: Text,
) -> Result<Answer, Memory>
    requires ready { is_ended push.phase ≡ false }
    requires went { Went push push [] }
    requires fits { PhaseFits D.Stage.upload D.Stage.size D.Stage.bytes push.parcel.digest push.parcel.bytes push.phase (D.view desk.old) }
    requires location { location ≡ location_of push.parcel }
    requires digest { push.parcel.digest ≡ digest }
    ensures worked { Worked (IsStreamFault D.Stage D.Reader D.Stage.faults D.Reader.faults) (Pushes push.parcel) (clocked (D.view desk.old) (C.readings clock.old)) (clocked (D.view desk.new) (C.readings clock.new)) result }
    ensures moves { Moves (D.view desk.old) (D.view desk.new) }
    ensures phrase { IfOk result (λ a. HasPhrase a.status) }
{
    let mut push = push;
    drive(desk, clock, &mut push);
    match push.into_end() {
        Some(stop) => push_answer(alloc, stop, digest, location),
        None => unreachable!(),
    }
}

fn push_blob<D: Desk, C: Clock>(
    alloc: Global,
    desk: &mut D,
    clock: &mut C,
    name: Name,
    digest: Digest,
    body: Text,
) -> Result<Answer, Memory>
    ensures worked { Worked (IsStreamFault D.Stage D.Reader D.Stage.faults D.Reader.faults) (Pushes (record { name = name; digest = digest; bytes = body; put = None })) (clocked (D.view desk.old) (C.readings clock.old)) (clocked (D.view desk.new) (C.readings clock.new)) result }
    ensures moves { Moves (D.view desk.old) (D.view desk.new) }
    ensures phrase { IfOk result (λ a. HasPhrase a.status) }
{
    let location = location(alloc, &name, b"/blobs/", &digest)?;
    let begun = Push::begin(alloc, name, digest, body)?;
    push(alloc, desk, clock, begun, digest, location)
}

// Gets, and answers by how that ended.
fn get<D: Desk, C: Clock>(
    alloc: Global,
    desk: &mut D,
    clock: &mut C,
    get: Get,
) -> Result<Answer, Memory>
    requires ready { is_got get.phase ≡ false }
    requires went { GetWent get get [] }
    requires fits { (v : View) → GetFits get.phase v }
    ensures worked { Worked (IsStreamFault D.Stage D.Reader D.Stage.faults D.Reader.faults) (Gets get.sought) (clocked (D.view desk.old) (C.readings clock.old)) (clocked (D.view desk.new) (C.readings clock.new)) result }
    ensures moves { Moves (D.view desk.old) (D.view desk.new) }
    ensures phrase { IfOk result (λ a. HasPhrase a.status) }
{
    let mut get = get;
    drive(desk, clock, &mut get);
    match get.into_end() {
        Some(end) => got(alloc, end),
        None => unreachable!(),
    }
}

// Checks, and answers by how that ended.
fn check<D: Desk, C: Clock>(
    alloc: Global,
    desk: &mut D,
    clock: &mut C,
    check: Check,
) -> Result<Answer, Memory>
    requires ready { check.ended ≡ None }
    requires went { CheckWent check check [] }
    ensures worked { Worked (IsStreamFault D.Stage D.Reader D.Stage.faults D.Reader.faults) (Checks check.ask) (clocked (D.view desk.old) (C.readings clock.old)) (clocked (D.view desk.new) (C.readings clock.new)) result }
    ensures moves { Moves (D.view desk.old) (D.view desk.new) }
    ensures phrase { IfOk result (λ a. HasPhrase a.status) }
{
    let mut check = check;
    drive(desk, clock, &mut check);
    match check.into_end() {
        Some(end) => checked(alloc, end),
        None => unreachable!(),
    }
}

// Whether a reference is a digest, and not this one.
fn names_other(reference: &Reference, found: &Digest) -> bool
    ensures { result ≡ names_other reference.now found.now }
{
    match reference {
        Reference::Tag(_) => false,
        Reference::Digest(digest) => !found.cmp(digest).is_eq(),
    }
}

// What a manifest of this digest is put as.
fn put_of(name: Name, reference: Reference, digest: Digest, size: u64, manifest: Manifest) -> PutAsk
    ensures { (body : List ℕ) → digest ≡ digest_of body → size ≡ length body → result ≡ put_of name reference body manifest }
{
    let tag = match reference {
        Reference::Tag(tag) => Some(tag),
        Reference::Digest(_) => None,
    };
    PutAsk {
        name,
        digest,
        size,
        media: manifest.media,
        refs: manifest.refs,
        children: manifest.children,
        tag,
    }
}

// What the body is put as, or the answer by which it is refused before an event.
fn read_put(
    alloc: Global,
    name: Name,
    reference: Reference,
    media: Option<&[u8]>,
    body: &[u8],
) -> Result<Result<PutAsk, Answer>, Memory>
    ensures pushes { IfOk result (λ read. IfOk read (λ put. IsPut body.now put × (task_of (Wanted.PutManifest name reference) (option_copied media.entry) body.now ≡ Pushes (parcel_of put body.now)))) }
    ensures refuses { IfOk result (λ read. IfErr read (λ a. IsRefused (task_of (Wanted.PutManifest name reference) (option_copied media.entry) body.now) a)) }
{
    let found = Digest::of(body);
    if names_other(&reference, &found) {
        return Ok(Err(wrong_digest(alloc, found)?));
    }
    match read_manifest(alloc, media, body) {
        Ok(manifest) => Ok(Ok(put_of(name, reference, found, body.len() as u64, manifest))),
        Err(fault) => Ok(Err(bad_manifest(alloc, fault)?)),
    }
}

fn put_manifest<D: Desk, C: Clock>(
    alloc: Global,
    desk: &mut D,
    clock: &mut C,
    name: Name,
    reference: Reference,
    media: Option<&[u8]>,
    body: Text,
) -> Result<Answer, Memory>
    ensures worked { Worked (IsStreamFault D.Stage D.Reader D.Stage.faults D.Reader.faults) (task_of (Wanted.PutManifest name reference) (option_copied media.entry) body) (clocked (D.view desk.old) (C.readings clock.old)) (clocked (D.view desk.new) (C.readings clock.new)) result }
    ensures moves { Moves (D.view desk.old) (D.view desk.new) }
    ensures phrase { IfOk result (λ a. HasPhrase a.status) }
{
    match read_put(alloc, name, reference, media, body.bytes())? {
        Ok(put) => {
            let digest = put.digest;
            let location = location(alloc, &put.name, b"/manifests/", &digest)?;
            let begun = Push::begin_manifest(alloc, put, body)?;
            push(alloc, desk, clock, begun, digest, location)
        }
        Err(answer) => Ok(answer),
    }
}

/// Does what is wanted, and gives the answer. `Memory` comes where memory was wanting for the answer, or before the first
/// event; what the events made stands.
pub(crate) fn serve<D: Desk, C: Clock>(
    alloc: Global,
    desk: &mut D,
    clock: &mut C,
    wanted: Wanted,
    media: &Option<Text>,
    body: Text,
) -> Result<Answer, Memory>
    ensures worked { Worked (IsStreamFault D.Stage D.Reader D.Stage.faults D.Reader.faults) (task_of wanted media.now body) (clocked (D.view desk.old) (C.readings clock.old)) (clocked (D.view desk.new) (C.readings clock.new)) result }
    ensures moves { Moves (D.view desk.old) (D.view desk.new) }
    ensures phrase { IfOk result (λ a. HasPhrase a.status) }
{
    match wanted {
        Wanted::Base => base(alloc),
        Wanted::Unbuilt => unsupported(alloc),
        Wanted::Unrouted { fault } => no_route(alloc, fault),
        Wanted::PushBlob { name, digest } => push_blob(alloc, desk, clock, name, digest, body),
        Wanted::GetBlob { name, digest } => {
            get(alloc, desk, clock, Get::blob(alloc, name, digest))
        }
        Wanted::HeadBlob { name, digest } => check(alloc, desk, clock, Check::blob(name, digest)),
        Wanted::HeadManifest { name, reference } => {
            check(alloc, desk, clock, Check::manifest(name, reference))
        }
        Wanted::GetManifest { name, reference } => {
            let begun = Get::manifest(alloc, name, reference)?;
            get(alloc, desk, clock, begun)
        }
        Wanted::PutManifest { name, reference } => {
            let media = match media {
                Some(media) => Some(media.bytes()),
                None => None,
            };
            put_manifest(alloc, desk, clock, name, reference, media, body)
        }
    }
}
