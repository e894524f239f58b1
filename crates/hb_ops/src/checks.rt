//! A check of a blob or of a manifest, as an operation.
ghost use Rattle.std.specs.Prelude.{◌≡◌, [], List, false, None, Some, IfSome};
ghost use Rattle.std.specs.declared.option.Option.{Option};
ghost use Rattle.hb_desk.specs.Calls.{Tells, plain};
ghost use Rattle.hb_desk.specs.Points.{IsStreamFault, Moves, Point, Steps};
ghost use Rattle.hb_desk.specs.declared.asks.Ask.TheVariants as ask;
ghost use Rattle.hb_ops.specs.Checks.{CheckParts, Went, blob_as, checked_as, decided, is_ended, told_as};
ghost use Rattle.hb_ops.specs.declared.checks.Checked.{Checked as Ended};

use hb_desk::{Ask, Desk, Op, Progress, Refusal, Told};
use hb_text::{Digest, Name, Reference, Text};
use std::marker::Model;

/// How a check ends.
#[derive(Drop)]
pub enum Checked {
    /// What is there: its digest, its size in bytes, and the media type of a manifest.
    Content {
        digest: Digest,
        size: u64,
        media: Option<Text>,
    },
    /// The check was refused, at this moment, in seconds.
    Refused {
        refusal: Refusal,
        moment: u64,
    },
}

/// A check whether a project has a blob, or a repository a manifest (OCI Distribution Specification 1.1, "Checking if
/// Content Exists in the Registry").
///
/// It has one event, and reads no bytes. A blob is touched by it: a client that skips the push of a blob which is there
/// relies on its staying. A manifest isn't, and doesn't count as pulled.
#[derive(Drop)]
pub struct Check {
    ask: Ask,
    ended: Option<Checked>,
}

impl Model for Check {
    ghost use Rattle.hb_ops.specs.Checks.{CheckParts};

    ghost Value = { CheckParts };

    ghost view = { λ check. record { ask = check.ask; ended = check.ended } };
}

impl Check {
    /// A check of a blob that is to begin. It takes no memory before its event.
    pub fn blob(name: Name, digest: Digest) -> Check
        ensures asks { result.ask ≡ ask.TouchBlob name digest }
        ensures begins { result.ended ≡ None }
        ensures went { Went result result [] }
    {
        Check {
            ask: Ask::TouchBlob { name, digest },
            ended: None,
        }
    }

    /// A check of a manifest that is to begin. It takes no memory before its event.
    pub fn manifest(name: Name, reference: Reference) -> Check
        ensures asks { result.ask ≡ ask.Look name reference }
        ensures begins { result.ended ≡ None }
        ensures went { Went result result [] }
    {
        Check {
            ask: Ask::Look { name, reference },
            ended: None,
        }
    }

    /// How it ended, once it is done.
    pub fn into_end(self) -> Option<Checked>
        ensures decided { (begun : CheckParts) (points : List Point) → Went begun self points → IfSome result (λ x. x ≡ decided begun.ask points) }
        ensures is { result ≡ self.ended }
    {
        let Check { ask: _, ended } = self;
        ended
    }
}

// What a blob of this size is, as the ask named it.
fn blob_as(ask: &Ask, size: u64, moment: u64) -> Checked
    ensures { result ≡ blob_as ask.now size moment }
{
    match ask {
        Ask::TouchBlob { name: _, digest } => Checked::Content {
            digest: *digest,
            size,
            media: None,
        },
        _ => Checked::Refused {
            refusal: Refusal::Memory,
            moment,
        },
    }
}

// How the check ends whose ask was told this.
fn told_as(ask: &Ask, told: Told, moment: u64) -> Checked
    ensures { result ≡ told_as ask.now told moment }
{
    match told {
        Told::Blob { size } => blob_as(ask, size, moment),
        Told::Look {
            digest,
            size,
            media,
        } => Checked::Content {
            digest,
            size,
            media: Some(media),
        },
        _ => Checked::Refused {
            refusal: Refusal::Memory,
            moment,
        },
    }
}

// How the check ends by what its ask was answered.
fn checked_as(ask: &Ask, answer: Result<Told, Refusal>, moment: u64) -> Checked
    ensures { result ≡ checked_as ask.now (plain Tells answer) moment }
{
    match answer {
        Ok(told) => told_as(ask, told, moment),
        Err(refusal) => Checked::Refused { refusal, moment },
    }
}

// The event, by which the check ends.
fn asked<D: Desk>(desk: &mut D, ask: &Ask, now: u64) -> Checked
    ensures event { (before : Option Ended) → is_ended before ≡ false
        → Steps (IsStreamFault D.Stage D.Reader D.Stage.faults D.Reader.faults) now (D.view desk.old) (D.view desk.new)
        (λ begun points. Went begun (record { ask = ask.now; ended = before }) points)
        (λ begun points. Went begun (record { ask = ask.now; ended = Some result }) points) }
    ensures moves { Moves (D.view desk.old) (D.view desk.new) }
{
    let answer = desk.ask(ask, now);
    checked_as(ask, answer, desk.moment())
}

impl<D: Desk> Op<D> for Check {
    ghost use Rattle.std.specs.Prelude.{false};
    ghost use Rattle.hb_ops.specs.Checks.{Went, is_ended, left_of};

    ghost done = { λ check. is_ended check.ended };

    ghost wants = { λ check. false };

    ghost left = { λ check entries. left_of check.ended };

    ghost fits = { λ check v. Unit {0} };

    ghost since = { λ begun check points. Went begun check points };

    fn step(&mut self, desk: &mut D, now: u64) -> Progress {
        let ended = asked(desk, &self.ask, now);
        self.ended = Some(ended);
        Progress::Done
    }
}
