//! The events of a push, one each.
ghost use Rattle.std.specs.Prelude.{◌≡◌, ◌<◌, ℕ, List, true, false, length, Ok, Some, None, IfSome, IsSomeAnd, is_some};
ghost use Rattle.std.specs.declared.option.Option.{Option};
ghost use Rattle.hb_text.specs.Digests.{digest_of};
ghost use Rattle.hb_model.specs.Words.{same_digest};
ghost use Rattle.hb_desk.specs.Calls.{Asked, StageTaken, StagePlaced, StageDropped, Tells};
ghost use Rattle.hb_desk.specs.Clause.{View};
ghost use Rattle.hb_desk.specs.Notes.{sealed_at};
ghost use Rattle.hb_desk.specs.Noting.{seal_of};
ghost use Rattle.hb_desk.specs.declared.asks.Ask.{Ask as Asking};
ghost use Rattle.hb_text.specs.declared.digests.Digest.{Digest as AnyDigest};
ghost use Rattle.hb_desk.specs.Points.{IsStreamFault, Moves};
ghost use Rattle.hb_desk.specs.declared.asks.Ask.TheVariants.{BeginUpload, EndUpload};
ghost use Rattle.hb_upload.specs.Phases.{GoesOn, HasBytes, IsStageFault, OneEvent, PhaseFits, left_of, place_at};
ghost use Rattle.hb_upload.specs.Places.{Parcel, next, seal_with, settle_with, Beginning, Staging, Sealing, Placing, Settling, Ending, Dropping};
ghost use Rattle.hb_upload.specs.Pushes.{parcel_of};
ghost use Rattle.hb_upload.specs.declared.phase.Phase.TheVariants as phase;
ghost use Rattle.hb_upload.specs.declared.phase.Stop.{Stop as Stopping};
ghost use Rattle.hb_upload.specs.declared.phase.Stop.TheVariants as stop;

use crate::phase::{Given, Phase, Stop};
use hb_desk::{Ask, Desk, Refusal, Staged, Told};
use hb_store::Stage;
use hb_text::Digest;

// Where a push goes on whose upload was told so at this moment.
fn begun<T>(told: Told, moment: u64) -> Phase<T>
    ensures leads { (b : Parcel) → place_at result ≡ next b Beginning moment (Ok (Tells told)) None }
    ensures fits { (upload_of size_of : T → ℕ) (bytes_of : T → Option (List ℕ)) (digest : AnyDigest) (bytes : List ℕ) (v : View) → PhaseFits upload_of size_of bytes_of digest bytes result v }
    ensures falls { left_of result < 7 }
{
    match told {
        Told::Begun { upload } => Phase::Stage { upload },
        _ => Phase::Ended {
            stop: Stop::Refused {
                refusal: Refusal::Memory,
                moment,
            },
        },
    }
}

/// The upload begins.
pub(crate) fn begin_step<D: Desk>(desk: &mut D, ask: &Ask, now: u64) -> Phase<D::Stage>
    ensures event { (b : Parcel) → ask.now ≡ BeginUpload b.name → OneEvent (IsStreamFault D.Stage D.Reader D.Stage.faults D.Reader.faults) b now (D.view desk.old) (D.view desk.new) (Asked (BeginUpload b.name)) Beginning result }
    ensures moves { Moves (D.view desk.old) (D.view desk.new) }
    ensures fits { (digest : AnyDigest) (bytes : List ℕ) → PhaseFits D.Stage.upload D.Stage.size D.Stage.bytes digest bytes result (D.view desk.new) }
    ensures falls { left_of result < 7 }
{
    match desk.ask(ask, now) {
        Ok(told) => begun(told, desk.moment()),
        Err(refusal) => Phase::Ended {
            stop: Stop::Refused {
                refusal,
                moment: desk.moment(),
            },
        },
    }
}

// A stage that has all bytes is sealed where they have the digest that was announced.
fn staged<T>(upload: u64, stage: T, digest: &Digest, found: &Digest) -> Phase<T>
    ensures right { same_digest found.now digest.now ≡ true → result ≡ phase.Seal upload stage }
    ensures wrong { same_digest found.now digest.now ≡ false → result ≡ phase.End upload (Some stage) (stop.WrongDigest found.now) }
{
    if found.cmp(digest).is_eq() {
        Phase::Seal { upload, stage }
    } else {
        Phase::End {
            upload,
            stage: Some(stage),
            stop: Stop::WrongDigest { found: *found },
        }
    }
}

// Appends the bytes to the stage, which was given at this moment. A call on the stage that is refused ends the push.
fn filled<T: Stage>(taken: Staged<T>, given: &Given, upload: u64, moment: u64) -> Phase<T>
    requires found { given.now.found ≡ digest_of given.now.bytes }
    requires upload { T.upload taken.stage ≡ upload }
    requires size { T.size taken.stage ≡ taken.offset }
    ensures leads { (seal : Asking) → GoesOn (IsStageFault T T.faults) (parcel_of given.now seal) upload taken.offset moment result }
    ensures fits { (v : View) → (v.told_bytes ≡ true → IsSomeAnd (T.bytes taken.stage) (λ x. length x ≡ taken.offset)) → PhaseFits T.upload T.size T.bytes given.now.digest given.now.bytes result v }
    ensures falls { left_of result < 6 }
{
    let mut stage = taken.stage;
    if taken.offset != 0 {
        return Phase::End {
            upload,
            stage: Some(stage),
            stop: Stop::Refused {
                refusal: Refusal::Memory,
                moment,
            },
        };
    }
    match stage.append(given.bytes.bytes()) {
        Ok(()) => staged(upload, stage, &given.digest, &given.found),
        Err(fault) => Phase::End {
            upload,
            stage: Some(stage),
            stop: Stop::Refused {
                refusal: Refusal::from(fault),
                moment,
            },
        },
    }
}

/// Takes the stage, which gets the bytes.
pub(crate) fn stage_step<D: Desk>(
    desk: &mut D,
    given: &Given,
    upload: u64,
    now: u64,
) -> Phase<D::Stage>
    requires { given.now.found ≡ digest_of given.now.bytes }
    ensures event { (seal : Asking) → OneEvent (IsStreamFault D.Stage D.Reader D.Stage.faults D.Reader.faults) (parcel_of given.now seal) now (D.view desk.old) (D.view desk.new) (StageTaken given.now.name upload None) (Staging upload) result }
    ensures moves { Moves (D.view desk.old) (D.view desk.new) }
    ensures fits { PhaseFits D.Stage.upload D.Stage.size D.Stage.bytes given.now.digest given.now.bytes result (D.view desk.new) }
    ensures falls { left_of result < 6 }
{
    let taken = desk.stage(&given.name, upload, None, now);
    let moment = desk.moment();
    match taken {
        Ok(taken) => filled(taken, given, upload, moment),
        Err(refusal) => Phase::End {
            upload,
            stage: None,
            stop: Stop::Refused { refusal, moment },
        },
    }
}

/// Seals the upload.
pub(crate) fn seal_step<D: Desk>(
    desk: &mut D,
    given: &Given,
    ask: &Ask,
    upload: u64,
    stage: D::Stage,
    now: u64,
) -> Phase<D::Stage>
    requires seals { seal_of ask.now ≡ Some (record { upload = upload; digest = given.now.digest; size = length given.now.bytes }) }
    requires stage { HasBytes D.Stage.upload D.Stage.size D.Stage.bytes given.now.digest given.now.bytes upload stage (D.view desk.old) }
    ensures event { (b : Parcel) → ask.now ≡ seal_with upload b → OneEvent (IsStreamFault D.Stage D.Reader D.Stage.faults D.Reader.faults) b now (D.view desk.old) (D.view desk.new) (Asked (seal_with upload b)) (Sealing upload) result }
    ensures moves { Moves (D.view desk.old) (D.view desk.new) }
    ensures fits { PhaseFits D.Stage.upload D.Stage.size D.Stage.bytes given.now.digest given.now.bytes result (D.view desk.new) }
    ensures falls { left_of result < 5 }
{
    match desk.ask(ask, now) {
        Ok(_) => Phase::Place { upload, stage },
        Err(refusal) => Phase::End {
            upload,
            stage: Some(stage),
            stop: Stop::Refused {
                refusal,
                moment: desk.moment(),
            },
        },
    }
}

/// Places the stage.
pub(crate) fn place_step<D: Desk>(
    desk: &mut D,
    given: &Given,
    upload: u64,
    stage: D::Stage,
    now: u64,
) -> Phase<D::Stage>
    requires stage { HasBytes D.Stage.upload D.Stage.size D.Stage.bytes given.now.digest given.now.bytes upload stage (D.view desk.old) }
    requires own { sealed_at upload (D.view desk.old).sealed ≡ Some (record { upload = upload; digest = given.now.digest; size = length given.now.bytes }) }
    ensures event { (seal : Asking) → OneEvent (IsStreamFault D.Stage D.Reader D.Stage.faults D.Reader.faults) (parcel_of given.now seal) now (D.view desk.old) (D.view desk.new) (StagePlaced upload given.now.digest) (Placing upload) result }
    ensures moves { Moves (D.view desk.old) (D.view desk.new) }
    ensures fits { PhaseFits D.Stage.upload D.Stage.size D.Stage.bytes given.now.digest given.now.bytes result (D.view desk.new) }
    ensures falls { left_of result < 4 }
{
    match desk.place(upload, stage, &given.digest, now) {
        Ok(_) => Phase::Settle { upload },
        Err(refusal) => Phase::Ended {
            stop: Stop::Refused {
                refusal,
                moment: desk.moment(),
            },
        },
    }
}

/// The project gets what was placed.
pub(crate) fn settle_step<D: Desk>(desk: &mut D, ask: &Ask, now: u64) -> Phase<D::Stage>
    ensures event { (b : Parcel) (upload : ℕ) → ask.now ≡ settle_with upload b → OneEvent (IsStreamFault D.Stage D.Reader D.Stage.faults D.Reader.faults) b now (D.view desk.old) (D.view desk.new) (Asked (settle_with upload b)) (Settling upload) result }
    ensures moves { Moves (D.view desk.old) (D.view desk.new) }
    ensures fits { (digest : AnyDigest) (bytes : List ℕ) → PhaseFits D.Stage.upload D.Stage.size D.Stage.bytes digest bytes result (D.view desk.new) }
    ensures falls { left_of result < 3 }
{
    match desk.ask(ask, now) {
        Ok(_) => Phase::Ended { stop: Stop::Pushed },
        Err(refusal) => Phase::Ended {
            stop: Stop::Refused {
                refusal,
                moment: desk.moment(),
            },
        },
    }
}

/// The upload of a push that was refused ends.
pub(crate) fn end_step<D: Desk>(
    desk: &mut D,
    upload: u64,
    stage: Option<D::Stage>,
    stop: Stop,
    now: u64,
) -> Phase<D::Stage>
    requires { IfSome stage (λ s. D.Stage.upload s ≡ upload) }
    ensures event { (b : Parcel) → OneEvent (IsStreamFault D.Stage D.Reader D.Stage.faults D.Reader.faults) b now (D.view desk.old) (D.view desk.new) (Asked (EndUpload 0 upload)) (Ending upload (is_some stage) stop) result }
    ensures moves { Moves (D.view desk.old) (D.view desk.new) }
    ensures fits { (digest : AnyDigest) (bytes : List ℕ) → PhaseFits D.Stage.upload D.Stage.size D.Stage.bytes digest bytes result (D.view desk.new) }
    ensures falls { left_of result < 2 }
{
    let _ended = desk.ask(&Ask::EndUpload { job: 0, upload }, now);
    match stage {
        Some(stage) => Phase::Drop {
            upload,
            stage,
            stop,
        },
        None => Phase::Ended { stop },
    }
}

/// Its stage is dropped.
pub(crate) fn drop_step<D: Desk>(
    desk: &mut D,
    upload: u64,
    stage: D::Stage,
    stop: Stop,
    now: u64,
) -> Phase<D::Stage>
    requires { D.Stage.upload stage ≡ upload }
    ensures event { (b : Parcel) → OneEvent (IsStreamFault D.Stage D.Reader D.Stage.faults D.Reader.faults) b now (D.view desk.old) (D.view desk.new) (StageDropped upload true) (Dropping upload stop) result }
    ensures moves { Moves (D.view desk.old) (D.view desk.new) }
    ensures fits { (digest : AnyDigest) (bytes : List ℕ) → PhaseFits D.Stage.upload D.Stage.size D.Stage.bytes digest bytes result (D.view desk.new) }
    ensures falls { left_of result < 1 }
{
    let _dropped = desk.drop_stage(upload, stage, now);
    Phase::Ended { stop }
}
