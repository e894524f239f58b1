//! A push, as an operation.
ghost use Rattle.std.specs.Prelude.{◌≡◌, ◌<◌, ◌↔◌, ℕ, List, [], true, false, length, IfOk, IfSome, IsSome, Some, None};
ghost use Rattle.std.specs.Option.{option_copied};
ghost use Rattle.hb_desk.specs.Points.{IsStreamFault, Moves, Point};
ghost use Rattle.hb_desk.specs.declared.asks.Ask.{Ask as Asking};
ghost use Rattle.hb_upload.specs.Deciding.{decided};
ghost use Rattle.hb_upload.specs.declared.phase.Phase.TheVariants as phase;
ghost use Rattle.hb_upload.specs.Phases.{CalledAt, PhaseFits, is_ended, left_of, place_at};
ghost use Rattle.hb_upload.specs.Pushes.{IsReady, Went, of_upload, parcel_of};
ghost use Rattle.hb_text.specs.Digests.{digest_of};

use crate::phase::{Given, Phase, Stop};
use crate::steps::{
    begin_step, drop_step, end_step, place_step, seal_step, settle_step, stage_step,
};
use hb_desk::{Ask, Desk, Op, Progress};
use hb_records::{Duplicate, Memory, PutAsk};
use hb_text::{Digest, Name, Text};
use std::alloc::Global;
use std::marker::Model;
use std::mem;

/// A push of bytes to a repository, under the digest that was announced for them: a blob, or a manifest.
///
/// Its events are: an upload begins, its stage is taken and gets the bytes, the upload is sealed, the stage is placed, and
/// the project gets what was placed, or the manifest is put. Where the bytes have another digest, or the stage or the seal
/// is refused, the upload is ended, and its stage dropped.
#[derive(Drop)]
pub struct Push<D: Desk> {
    given: Given,
    // its asks, which are made before its first event
    begin: Ask,
    seal: Ask,
    settle: Ask,
    phase: Phase<D::Stage>,
}

impl<D: Desk> Model for Push<D> {
    ghost use Rattle.hb_upload.specs.Pushes.{IsReady, PushParts, parcel_of};

    ghost Value = { PushParts D.Stage };

    ghost view = { λ p. record { parcel = parcel_of p.given p.seal; phase = p.phase } };

    ghost invariant = { λ p. IsReady p.given p.begin p.seal p.settle };
}

// Names the upload in an ask that seals or settles one.
fn name_upload(ask: &mut Ask, upload: u64)
    ensures { ask.new ≡ of_upload upload ask.old }
{
    match ask {
        Ask::Seal { upload: named, .. } => *named = upload,
        Ask::SealManifest { upload: named, .. } => *named = upload,
        Ask::Settle { upload: named, .. } => *named = upload,
        Ask::PutArtifact { upload: named, .. } => *named = upload,
        _ => {}
    }
}

impl<D: Desk> Push<D> {
    /// A push of a blob that is to begin (OCI Distribution Specification 1.1, "Pushing blobs", "Single POST").
    /// `Memory` comes where memory was wanting, and then nothing was done.
    pub fn begin(alloc: Global, name: Name, digest: Digest, bytes: Text) -> Result<Push<D>, Memory>
        ensures parcel { IfOk result (λ p. p.parcel ≡ record { name = name; digest = digest; bytes = bytes; put = None }) }
        ensures went { IfOk result (λ p. Went p p []) }
        ensures begins { IfOk result (λ p. p.phase ≡ phase.Begin) }
    {
        let begun = name.copy(alloc)?;
        let settled = name.copy(alloc)?;
        let found = Digest::of(bytes.bytes());
        let size = bytes.bytes().len() as u64;
        Ok(Push {
            given: Given {
                name,
                digest,
                found,
                bytes,
            },
            begin: Ask::BeginUpload { name: begun },
            seal: Ask::Seal {
                upload: 0,
                digest,
                size,
            },
            settle: Ask::Settle {
                name: settled,
                upload: 0,
                digest,
            },
            phase: Phase::Begin,
        })
    }

    /// A manifest that is to be put (OCI Distribution Specification 1.1, "Pushing manifests"). The bytes are the
    /// manifest's. `Memory` comes where memory was wanting, and then nothing was done.
    pub fn begin_manifest(alloc: Global, put: PutAsk, bytes: Text) -> Result<Push<D>, Memory>
        requires digest { put.digest ≡ digest_of bytes }
        requires size { put.size ≡ length bytes }
        ensures parcel { IfOk result (λ p. p.parcel ≡ record { name = put.name; digest = put.digest; bytes = bytes; put = Some put }) }
        ensures went { IfOk result (λ p. Went p p []) }
        ensures begins { IfOk result (λ p. p.phase ≡ phase.Begin) }
    {
        let begun = put.name.copy(alloc)?;
        let name = put.name.copy(alloc)?;
        let sealed = put.copy(alloc)?;
        let digest = put.digest;
        Ok(Push {
            given: Given {
                name,
                digest,
                found: digest,
                bytes,
            },
            begin: Ask::BeginUpload { name: begun },
            seal: Ask::SealManifest {
                upload: 0,
                put: sealed,
            },
            settle: Ask::PutArtifact { upload: 0, put },
            phase: Phase::Begin,
        })
    }

    /// How it ended, once it is done.
    pub fn into_end(self) -> Option<Stop>
        ensures decided { (begun : _) (points : List Point) → Went begun self points → IfSome result (λ stop. stop ≡ decided self.parcel points) }
        ensures done { IsSome result ↔ (is_ended self.phase ≡ true) }
    {
        let Push {
            given,
            begin,
            seal,
            settle,
            phase,
        } = self;
        mem::drop(given);
        mem::drop(begin);
        mem::drop(seal);
        mem::drop(settle);
        match phase {
            Phase::Ended { stop } => Some(stop),
            _ => None,
        }
    }

    /// How it ended, once it is done.
    pub fn end(&self) -> Option<&Stop>
        ensures decided { (begun : _) (points : List Point) → Went begun self.now points → IfSome (option_copied result) (λ stop. stop ≡ decided self.now.parcel points) }
        ensures done { IsSome result ↔ (is_ended self.now.phase ≡ true) }
    {
        match &self.phase {
            Phase::Ended { stop } => Some(stop),
            _ => None,
        }
    }
}

// One event, by the phase.
fn next<D: Desk>(
    desk: &mut D,
    given: &Given,
    begin: &Ask,
    seal: &mut Ask,
    settle: &mut Ask,
    phase: Phase<D::Stage>,
    now: u64,
) -> Phase<D::Stage>
    requires ready { IsReady given.now begin.now seal.old settle.old }
    requires going { is_ended phase ≡ false }
    requires fits { PhaseFits D.Stage.upload D.Stage.size D.Stage.bytes given.now.digest given.now.bytes phase (D.view desk.old) }
    ensures event { CalledAt (IsStreamFault D.Stage D.Reader D.Stage.faults D.Reader.faults) (parcel_of given.now seal.old) now (D.view desk.old) (D.view desk.new) (place_at phase) result }
    ensures moves { Moves (D.view desk.old) (D.view desk.new) }
    ensures fits { PhaseFits D.Stage.upload D.Stage.size D.Stage.bytes given.now.digest given.now.bytes result (D.view desk.new) }
    ensures falls { left_of result < left_of phase }
    ensures ready { IsReady given.now begin.now seal.new settle.new }
    ensures same { parcel_of given.now seal.new ≡ parcel_of given.now seal.old }
{
    match phase {
        Phase::Begin => begin_step(desk, begin, now),
        Phase::Stage { upload } => stage_step(desk, given, upload, now),
        Phase::Seal { upload, stage } => {
            name_upload(seal, upload);
            seal_step(desk, given, seal, upload, stage, now)
        }
        Phase::Place { upload, stage } => place_step(desk, given, upload, stage, now),
        Phase::Settle { upload } => {
            name_upload(settle, upload);
            settle_step(desk, settle, now)
        }
        Phase::End {
            upload,
            stage,
            stop,
        } => end_step(desk, upload, stage, stop, now),
        Phase::Drop {
            upload,
            stage,
            stop,
        } => drop_step(desk, upload, stage, stop, now),
        Phase::Ended { stop: _ } => unreachable!(),
    }
}

impl<D: Desk> Op<D> for Push<D> {
    ghost use Rattle.std.specs.Prelude.{false};
    ghost use Rattle.hb_upload.specs.Phases.{PhaseFits, is_ended, left_of};
    ghost use Rattle.hb_upload.specs.Pushes.{Went};

    ghost done = { λ p. is_ended p.phase };

    ghost wants = { λ p. false };

    ghost left = { λ p entries. left_of p.phase };

    ghost fits = { λ p v. PhaseFits D.Stage.upload D.Stage.size D.Stage.bytes p.parcel.digest p.parcel.bytes p.phase v };

    ghost since = { λ begun p points. Went begun p points };

    fn step(&mut self, desk: &mut D, now: u64) -> Progress {
        let phase = mem::replace(&mut self.phase, Phase::Begin);
        let phase = next(
            desk,
            &self.given,
            &self.begin,
            &mut self.seal,
            &mut self.settle,
            phase,
            now,
        );
        let ended = phase.is_ended();
        self.phase = phase;
        if ended {
            Progress::Done
        } else {
            Progress::More
        }
    }
}
