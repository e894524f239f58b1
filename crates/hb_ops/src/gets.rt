//! A get of a blob or of a manifest, as an operation.
ghost use Rattle.std.specs.Prelude.{◌≡◌, ◌<◌, ◌↔◌, ℕ, Bool, List, [], length, true, false, Ok, IfOk, IfSome, IsSome, IsSomeAnd};
ghost use Rattle.std.specs.Option.{option_copied};
ghost use Rattle.std.specs.declared.option.Option.{Option};
ghost use Rattle.hb_text.specs.Digests.{digest_of};
ghost use Rattle.hb_desk.specs.Calls.{Content, plain};
ghost use Rattle.hb_desk.specs.Clause.{Causes, EventOf, View};
ghost use Rattle.hb_desk.specs.Points.{IsStreamFault, Moves, Point, Steps};
ghost use Rattle.hb_desk.specs.declared.refusals.Refusal.{Refusal as Refusing};
ghost use Rattle.hb_ops.specs.Gets.{GetParts, HasDigest, IsNoted, IsReadFault, PhaseFits, Went, decided, is_ended, left_of, of_pull, open_call, opened_as, read_of};
ghost use Rattle.hb_ops.specs.declared.gets.Phase.TheVariants as phase;
ghost use Rattle.hb_ops.specs.declared.gets.Sought.{Sought as Seeking};
ghost use Rattle.hb_ops.specs.declared.gets.Sought.TheVariants as sought;

use crate::reading::read_whole;
use hb_desk::{Ask, Desk, Op, Opened, Progress, Refusal};
use hb_records::{Duplicate, Memory};
use hb_store::Reader;
use hb_text::{Digest, Name, Reference, Text};
use std::alloc::Global;
use std::marker::Model;
use std::mem;

/// What is sought in a repository.
#[derive(Drop)]
pub enum Sought {
    Blob { name: Name, digest: Digest },
    Manifest { name: Name, reference: Reference },
}

/// How a get ends.
#[derive(Drop)]
pub enum Got {
    /// What was opened, with all its bytes. A manifest has its media type.
    Content {
        digest: Digest,
        media: Option<Text>,
        bytes: Text,
    },
    /// The open was refused, or a read of what it gave, at this moment, in seconds.
    Refused {
        refusal: Refusal,
        moment: u64,
    },
}

// Where a get is.
#[derive(Drop)]
pub(crate) enum Phase {
    // With what notes the pull, where one is to be noted. It names no digest yet.
    Open { note: Option<Ask> },
    // The pull is to be noted.
    Note { ask: Ask, got: Got },
    Ended { got: Got },
}

/// A get of a blob, or of the manifest that a reference names (OCI Distribution Specification 1.1, "Pulling blobs" and
/// "Pulling manifests").
///
/// Its first event opens the content, whose bytes are then read whole, and decides how it ends. Behind an open of a
/// manifest that was Ok a second one notes the pull.
#[derive(Drop)]
pub struct Get {
    alloc: Global,
    sought: Sought,
    phase: Phase,
}

impl Model for Get {
    ghost use Rattle.hb_ops.specs.Gets.{GetParts, IsNoted};

    ghost Value = { GetParts };

    ghost view = { λ get. record { sought = get.sought; phase = get.phase } };

    ghost invariant = { λ get. IsNoted get.sought get.phase };
}

impl Phase {
    fn is_ended(&self) -> bool
        ensures { result ≡ is_ended self.now }
    {
        matches!(self, Phase::Ended { .. })
    }
}

impl Get {
    /// A get of a blob that is to begin. It takes no memory before its first event.
    pub fn blob(alloc: Global, name: Name, digest: Digest) -> Get
        ensures sought { result.sought ≡ sought.Blob name digest }
        ensures begins { is_ended result.phase ≡ false }
        ensures fits { (v : View) → PhaseFits result.phase v }
        ensures went { Went result result [] }
    {
        Get {
            alloc,
            sought: Sought::Blob { name, digest },
            phase: Phase::Open { note: None },
        }
    }

    /// A get of a manifest that is to begin. `Memory` comes where memory was wanting, and then nothing was done.
    pub fn manifest(alloc: Global, name: Name, reference: Reference) -> Result<Get, Memory>
        ensures sought { IfOk result (λ get. get.sought ≡ sought.Manifest name reference) }
        ensures begins { IfOk result (λ get. is_ended get.phase ≡ false) }
        ensures fits { IfOk result (λ get. (v : View) → PhaseFits get.phase v) }
        ensures went { IfOk result (λ get. Went get get []) }
    {
        let noted = name.copy(alloc)?;
        Ok(Get {
            alloc,
            sought: Sought::Manifest { name, reference },
            phase: Phase::Open {
                note: Some(Ask::NotePull {
                    name: noted,
                    digest: Digest::of(b""),
                }),
            },
        })
    }

    /// How it ended, once it is done, with its bytes.
    pub fn into_end(self) -> Option<Got>
        ensures decided { (begun : GetParts) (points : List Point) → Went begun self points → IfSome result (λ got. got ≡ decided (read_of got) points) }
        ensures done { IsSome result ↔ (is_ended self.phase ≡ true) }
        ensures is { IfSome result (λ got. self.phase ≡ phase.Ended got) }
    {
        let Get {
            alloc: _,
            sought: _,
            phase,
        } = self;
        match phase {
            Phase::Ended { got } => Some(got),
            _ => None,
        }
    }

    /// How it ended, once it is done.
    pub fn end(&self) -> Option<&Got>
        ensures decided { (begun : GetParts) (points : List Point) → Went begun self.now points → IfSome (option_copied result) (λ got. got ≡ decided (read_of got) points) }
        ensures done { IsSome result ↔ (is_ended self.now.phase ≡ true) }
        ensures is { IfSome (option_copied result) (λ got. self.now.phase ≡ phase.Ended got) }
    {
        match &self.phase {
            Phase::Ended { got } => Some(got),
            _ => None,
        }
    }
}

// The note of the pull of this digest.
fn named(ask: Ask, digest: Digest) -> Ask
    ensures { result ≡ of_pull digest ask }
{
    match ask {
        Ask::NotePull { name, digest: _ } => Ask::NotePull { name, digest },
        ask => ask,
    }
}

// Opens what is sought.
fn open<D: Desk>(desk: &mut D, sought: &Sought, now: u64) -> Result<Opened<D::Reader>, Refusal>
    ensures event { EventOf (D.view desk.old) (D.view desk.new) (open_call sought.now) (plain (λ o. Content o.digest o.size o.media) result) }
    ensures causes { Causes (D.view desk.old) (D.view desk.new) now (open_call sought.now) (plain (λ o. Content o.digest o.size o.media) result) }
    ensures bytes { (D.view desk.old).told_bytes ≡ true → IfOk result (λ o. IsSomeAnd (D.Reader.bytes o.reader) (λ b. (digest_of b ≡ o.digest) × (length b ≡ D.Reader.left o.reader))) }
{
    match sought {
        Sought::Blob { name, digest } => desk.open_blob(name, digest, now),
        Sought::Manifest { name, reference } => desk.open_manifest(name, reference, now),
    }
}

// Reads what was opened at this moment.
fn read<R: Reader>(alloc: Global, opened: Opened<R>, moment: u64) -> Got
    ensures gives { (fault : Option Refusing) × IsReadFault R R.faults fault × (result ≡ opened_as (read_of result) moment (Ok (Content opened.digest opened.size opened.media)) fault) }
    ensures digest { (told : Bool) → (told ≡ true → IsSomeAnd (R.bytes opened.reader) (λ b. (digest_of b ≡ opened.digest) × (length b ≡ R.left opened.reader))) → HasDigest told result }
{
    let Opened {
        reader,
        digest,
        size: _,
        media,
    } = opened;
    match read_whole(alloc, reader) {
        Ok(bytes) => Got::Content {
            digest,
            media,
            bytes,
        },
        Err(fault) => Got::Refused {
            refusal: Refusal::from(fault),
            moment,
        },
    }
}

// The first event.
fn open_step<D: Desk>(
    alloc: Global,
    desk: &mut D,
    sought: &Sought,
    note: Option<Ask>,
    now: u64,
) -> Phase
    requires noted { IsNoted sought.now (phase.Open note) }
    ensures event { Steps (IsStreamFault D.Stage D.Reader D.Stage.faults D.Reader.faults) now (D.view desk.old) (D.view desk.new)
        (λ begun points. Went begun (record { sought = sought.now; phase = phase.Open note }) points)
        (λ begun points. Went begun (record { sought = sought.now; phase = result }) points) }
    ensures moves { Moves (D.view desk.old) (D.view desk.new) }
    ensures fits { PhaseFits result (D.view desk.new) }
    ensures falls { left_of result < 2 }
    ensures noted { IsNoted sought.now result }
{
    match open(desk, sought, now) {
        Ok(opened) => {
            let digest = opened.digest;
            let got = read(alloc, opened, desk.moment());
            match note {
                Some(ask) => Phase::Note {
                    ask: named(ask, digest),
                    got,
                },
                None => Phase::Ended { got },
            }
        }
        Err(refusal) => Phase::Ended {
            got: Got::Refused {
                refusal,
                moment: desk.moment(),
            },
        },
    }
}

// The second event, whose answer decides nothing.
fn note_step<D: Desk>(desk: &mut D, ask: Ask, got: Got, now: u64) -> Phase
    ensures event { (sought : Seeking) → Steps (IsStreamFault D.Stage D.Reader D.Stage.faults D.Reader.faults) now (D.view desk.old) (D.view desk.new)
        (λ begun points. Went begun (record { sought = sought; phase = phase.Note ask got }) points)
        (λ begun points. Went begun (record { sought = sought; phase = result }) points) }
    ensures moves { Moves (D.view desk.old) (D.view desk.new) }
    ensures is { result ≡ phase.Ended got }
{
    let _noted = desk.ask(&ask, now);
    Phase::Ended { got }
}

// One event, by the phase.
fn next<D: Desk>(alloc: Global, desk: &mut D, sought: &Sought, phase: Phase, now: u64) -> Phase
    requires going { is_ended phase ≡ false }
    requires fits { PhaseFits phase (D.view desk.old) }
    requires noted { IsNoted sought.now phase }
    ensures event { Steps (IsStreamFault D.Stage D.Reader D.Stage.faults D.Reader.faults) now (D.view desk.old) (D.view desk.new)
        (λ begun points. Went begun (record { sought = sought.now; phase = phase }) points)
        (λ begun points. Went begun (record { sought = sought.now; phase = result }) points) }
    ensures moves { Moves (D.view desk.old) (D.view desk.new) }
    ensures fits { PhaseFits result (D.view desk.new) }
    ensures falls { left_of result < left_of phase }
    ensures noted { IsNoted sought.now result }
{
    match phase {
        Phase::Open { note } => open_step(alloc, desk, sought, note, now),
        Phase::Note { ask, got } => note_step(desk, ask, got, now),
        Phase::Ended { got: _ } => unreachable!(),
    }
}

impl<D: Desk> Op<D> for Get {
    ghost use Rattle.std.specs.Prelude.{false};
    ghost use Rattle.hb_ops.specs.Gets.{PhaseFits, Went, is_ended, left_of};

    ghost done = { λ get. is_ended get.phase };

    ghost wants = { λ get. false };

    ghost left = { λ get entries. left_of get.phase };

    ghost fits = { λ get v. PhaseFits get.phase v };

    ghost since = { λ begun get points. Went begun get points };

    fn step(&mut self, desk: &mut D, now: u64) -> Progress {
        let ended = Phase::Ended {
            got: Got::Refused {
                refusal: Refusal::Memory,
                moment: 0,
            },
        };
        let phase = mem::replace(&mut self.phase, ended);
        let phase = next(self.alloc, desk, &self.sought, phase, now);
        let ended = phase.is_ended();
        self.phase = phase;
        if ended {
            Progress::Done
        } else {
            Progress::More
        }
    }
}
