ghost use Rattle.std.specs.Prelude.{◌≡◌, ◌≢◌, ◌≤◌, ◌<◌, ◌∷◌, ℕ, [], true, false, not, length, slice_set, IsSome, OnOk, OnErr};
ghost use Rattle.hb_records.specs.declared.notes.Sealed.{Sealed as SealedUpload};
ghost use Rattle.std.specs.Prelude.{List};
ghost use Rattle.hb_desk.specs.Alone.{AloneParts, alone_view};
ghost use Rattle.hb_desk.specs.Noting.{with_seal};
ghost use Rattle.hb_desk.specs.Clause.{View, Between};
ghost use Rattle.hb_desk.specs.Notes.{is_sealed, without_sealed};

use crate::asks::Ask;
use crate::desk::Desk;
use crate::gave::{Opened, Staged};
use crate::refusals::Refusal;
use crate::seals::seal_of;
use crate::told::Told;
use hb_records::{Memory, Sealed};
use hb_text::{Digest, Name, Reference};
use std::alloc::Global;
use std::marker::Model;

/// Others who act between two events of a caller.
pub trait Others<D: Desk> {
    /// Acts by events alone, each of which fits its reply. What the caller has sealed and not placed, `own`, is the
    /// caller's to place: others leave it sealed.
    fn between(&mut self, desk: &mut D, own: &[Sealed], now: u64)
        ensures { Between own.now (D.view desk.old) (D.view desk.new) };
}

// The numbers of a caller's own entries, the latest first. A 0 stands for an event without one.
#[derive(Drop)]
struct Own {
    numbers: Vec<u64>,
}

impl Model for Own {
    ghost use Rattle.std.specs.Prelude.{List, ℕ};

    ghost Value = { List ℕ };

    ghost view = { λ own. own.numbers.items };
}

impl Own {
    // A slot for the number of the event to come.
    fn reserve(&mut self) -> Result<(), Memory>
        ensures ok { OnOk result (self.new ≡ 0 ∷ self.old) }
        ensures err { OnErr result (self.new ≡ self.old) }
    {
        self.numbers.insert(0, 0)?;
        Ok(())
    }

    // The number of the event that was.
    fn fill(&mut self, number: u64)
        requires { 0 < length self.old }
        ensures { self.new ≡ slice_set self.old 0 number }
    {
        self.numbers[0] = number;
    }
}

// What a caller sealed and hasn't placed, the latest first.
#[derive(Drop)]
struct Seals {
    sealed: Vec<Sealed>,
}

impl Model for Seals {
    ghost use Rattle.std.specs.Prelude.{List};
    ghost use Rattle.hb_records.specs.declared.notes.Sealed.{Sealed};

    ghost Value = { List Sealed };

    ghost view = { λ seals. seals.sealed.items };
}

fn is_other(upload: u64, seal: &Sealed) -> bool
    ensures { result ≡ not (is_sealed upload seal.now) }
{
    upload != seal.upload
}

impl Seals {
    // Notes what an ask is to seal.
    fn begin(&mut self, seal: Option<Sealed>) -> Result<(), Memory>
        ensures ok { OnOk result (self.new ≡ with_seal seal self.old) }
        ensures err { OnErr result (self.new ≡ self.old) }
    {
        if let Some(seal) = seal {
            self.sealed.insert(0, seal)?;
        }
        Ok(())
    }

    // Takes it back where the ask was refused.
    fn undo(&mut self, seal: Option<Sealed>)
        requires { IsSome seal → 0 < length self.old }
        ensures { (older : List SealedUpload) → self.old ≡ with_seal seal older → self.new ≡ older }
    {
        if seal.is_some() {
            let _seal = self.sealed.remove(0);
        }
    }

    // The upload is placed.
    fn end(&mut self, upload: u64)
        ensures { self.new ≡ without_sealed upload self.old }
    {
        self.sealed.retain(|seal| is_other(upload, seal));
    }
}

// Others act.
fn between<D: Desk, X: Others<D>>(others: &mut X, desk: &mut D, own: &Seals, now: u64)
    ensures { Between own.now (D.view desk.old) (D.view desk.new) }
{
    others.between(desk, own.sealed.as_slice(), now);
}

// Slots for the number of the event to come, and for what it is to seal.
fn reserve(own: &mut Own, sealed: &mut Seals, seal: Option<Sealed>) -> Result<(), Memory>
    ensures ok { OnOk result ((own.new ≡ 0 ∷ own.old) × (sealed.new ≡ with_seal seal sealed.old)) }
    ensures err { OnErr result ((own.new ≡ own.old) × (sealed.new ≡ sealed.old)) }
{
    sealed.begin(seal)?;
    if own.reserve().is_err() {
        sealed.undo(seal);
        return Err(Memory);
    }
    Ok(())
}

// Fills the slot where the last own number of the desk moved.
fn note_last(own: &mut Own, last: &mut u64, before: u64, after: u64)
    requires { 0 < length own.old }
    ensures same { after ≡ before → (own.new ≡ own.old) × (last.new ≡ last.old) }
    ensures moved { after ≢ before → (own.new ≡ slice_set own.old 0 after) × (last.new ≡ after) }
{
    if after != before {
        own.fill(after);
        *last = after;
    }
}

// Takes back what the ask was to seal, where it was refused.
fn keep_seal(sealed: &mut Seals, seal: Option<Sealed>, refused: bool)
    requires { IsSome seal → 0 < length sealed.old }
    ensures kept { refused ≡ false → sealed.new ≡ sealed.old }
    ensures undone { refused ≡ true → (older : List SealedUpload) → sealed.old ≡ with_seal seal older → sealed.new ≡ older }
{
    if refused {
        sealed.undo(seal);
    }
}

/// A desk whose caller isn't alone: others act before each of its events.
///
/// It takes its slots before the event, so that want of memory never follows one. Contracts see the desk, the
/// others, and what the caller did itself.
#[derive(Drop)]
pub struct Alone<D: Desk, X: Others<D>> {
    desk: D,
    others: X,
    own: Own,
    last: u64,
    sealed: Seals,
}

impl<D: Desk, X: Others<D>> Model for Alone<D, X> {
    ghost use Rattle.std.specs.Prelude.{◌≡◌, ◌≤◌, ℕ, Some};
    ghost use Rattle.hb_records.specs.declared.notes.Sealed.{Sealed};
    ghost use Rattle.hb_desk.specs.Alone.{AloneParts, AloneKnows};

    ghost Value = { AloneParts D X };

    ghost view = { λ a. record { desk = a.desk; others = a.others; own = a.own; last = a.last; sealed = a.sealed } };

    ghost invariant = { λ a. AloneKnows (D.view a.desk) a.last a.sealed };
}

impl<D: Desk, X: Others<D>> Alone<D, X> {
    /// A caller of the desk that has made no event yet, with these others.
    pub fn new(alloc: Global, desk: D, others: X) -> Alone<D, X>
        ensures { result ≡ record { desk = desk; others = others; own = []; last = 0; sealed = [] } }
    {
        Alone {
            desk,
            others,
            own: Own {
                numbers: Vec::new(alloc),
            },
            last: 0,
            sealed: Seals {
                sealed: Vec::new(alloc),
            },
        }
    }

    /// The desk.
    pub fn into_desk(self) -> D
    where
        X: Drop,
        ensures { result ≡ self.desk }
    {
        let Alone {
            desk,
            others: _,
            own: _,
            last: _,
            sealed: _,
        } = self;
        desk
    }
}

impl<D: Desk, X: Others<D>> Desk for Alone<D, X> {
    type Stage = D::Stage;

    type Reader = D::Reader;

    ghost view = { λ a. alone_view (D.view a.desk) a.own a.last a.sealed };

    ghost one_length = { λ a. D.one_length a.desk };

    ghost contents = { λ a. D.contents a.desk };

    fn ask(&mut self, ask: &Ask, now: u64) -> Result<Told, Refusal> {
        let seal = seal_of(ask);
        between(&mut self.others, &mut self.desk, &self.sealed, now);
        if reserve(&mut self.own, &mut self.sealed, seal).is_err() {
            let _seen = self.desk.seen();
            return Err(Refusal::Memory);
        }
        let before = self.desk.last();
        let result = self.desk.ask(ask, now);
        let after = self.desk.last();
        note_last(&mut self.own, &mut self.last, before, after);
        keep_seal(&mut self.sealed, seal, result.is_err());
        result
    }

    fn stage(
        &mut self,
        name: &Name,
        upload: u64,
        start: Option<u64>,
        now: u64,
    ) -> Result<Staged<D::Stage>, Refusal> {
        between(&mut self.others, &mut self.desk, &self.sealed, now);
        self.desk.stage(name, upload, start, now)
    }

    fn place(
        &mut self,
        upload: u64,
        stage: D::Stage,
        digest: &Digest,
        now: u64,
    ) -> Result<u64, Refusal> {
        between(&mut self.others, &mut self.desk, &self.sealed, now);
        let result = self.desk.place(upload, stage, digest, now);
        self.sealed.end(upload);
        result
    }

    fn drop_stage(&mut self, upload: u64, stage: D::Stage, now: u64) -> Result<(), Refusal> {
        between(&mut self.others, &mut self.desk, &self.sealed, now);
        self.desk.drop_stage(upload, stage, now)
    }

    fn drop_left_stage(&mut self, upload: u64, now: u64) -> Result<(), Refusal> {
        between(&mut self.others, &mut self.desk, &self.sealed, now);
        self.desk.drop_left_stage(upload, now)
    }

    fn open_blob(
        &mut self,
        name: &Name,
        digest: &Digest,
        now: u64,
    ) -> Result<Opened<D::Reader>, Refusal> {
        between(&mut self.others, &mut self.desk, &self.sealed, now);
        self.desk.open_blob(name, digest, now)
    }

    fn open_manifest(
        &mut self,
        name: &Name,
        reference: &Reference,
        now: u64,
    ) -> Result<Opened<D::Reader>, Refusal> {
        between(&mut self.others, &mut self.desk, &self.sealed, now);
        self.desk.open_manifest(name, reference, now)
    }

    fn seen(&self) -> u64 {
        self.desk.seen()
    }

    fn moment(&self) -> u64 {
        self.desk.moment()
    }

    fn last(&self) -> u64 {
        self.last
    }
}
