//! What a world remembers of uploads. It is newest first.
ghost use Rattle.std.specs.Prelude.{◌≡◌, ◌<◌, ◌∷◌, ℕ, List, length, not, nat_eq, true, IsSome, OnOk, OnErr};
ghost use Rattle.hb_records.specs.declared.notes.Placement.{Placement as PlacedUpload};
ghost use Rattle.hb_records.specs.declared.notes.Sealed.{Sealed as SealedUpload};
ghost use Rattle.hb_model.specs.Whole.{no_notes};
ghost use Rattle.hb_desk.specs.Notes.{is_out as stage_is_out, is_sealed, without_out, without_sealed};
ghost use Rattle.hb_desk.specs.Noting.{handed_back, settling, with_seal};

use hb_records::{Memory, Placement, Sealed};
use std::alloc::Global;
use std::marker::Model;

/// The uploads whose stage is out, those that are sealed, and those that are placed.
#[derive(Drop)]
pub(crate) struct Remembered {
    out: Vec<u64>,
    sealed: Vec<Sealed>,
    placements: Vec<Placement>,
}

impl Model for Remembered {
    ghost use Rattle.hb_records.specs.declared.notes.Notes.{Notes};
    ghost use Rattle.hb_world.specs.Remembering.{notes_of};

    ghost Value = { Notes };

    ghost view = { λ n. notes_of n.out.items n.sealed.items n.placements.items };
}

fn is_other_seal(upload: u64, seal: &Sealed) -> bool
    ensures { result ≡ not (is_sealed upload seal.now) }
{
    upload != seal.upload
}

fn is_other_placement(upload: u64, placement: &Placement) -> bool
    ensures { result ≡ not (nat_eq upload placement.now.upload) }
{
    upload != placement.upload
}

fn is_other(upload: u64, out: u64) -> bool
    ensures { result ≡ not (nat_eq upload out) }
{
    upload != out
}

impl Remembered {
    /// Nothing. It takes no memory.
    pub(crate) fn new(alloc: Global) -> Remembered
        ensures { result ≡ no_notes }
    {
        Remembered {
            out: Vec::new(alloc),
            sealed: Vec::new(alloc),
            placements: Vec::new(alloc),
        }
    }

    pub(crate) fn placements(&self) -> &[Placement]
        ensures { result.now ≡ self.now.placements }
    {
        self.placements.as_slice()
    }

    /// Whether the upload's stage is out.
    pub(crate) fn is_out(&self, upload: u64) -> bool
        ensures { result ≡ stage_is_out self.now upload }
    {
        self.out.iter().any(|out| upload == *out)
    }

    /// Notes what an ask is to seal.
    pub(crate) fn begin_seal(&mut self, seal: Option<Sealed>) -> Result<(), Memory>
        ensures ok { OnOk result (self.new ≡ record self.old { sealed = with_seal seal self.old.sealed }) }
        ensures err { OnErr result ((self.new ≡ self.old) × IsSome seal) }
    {
        if let Some(seal) = seal {
            self.sealed.insert(0, seal)?;
        }
        Ok(())
    }

    /// Takes it back where the ask was refused.
    pub(crate) fn undo_seal(&mut self, seal: Option<Sealed>)
        requires { IsSome seal → 0 < length self.old.sealed }
        ensures { (older : List SealedUpload) → self.old.sealed ≡ with_seal seal older → self.new ≡ record self.old { sealed = older } }
    {
        if seal.is_some() {
            let _seal = self.sealed.remove(0);
        }
    }

    /// The upload's placement ends.
    pub(crate) fn settle(&mut self, upload: u64)
        ensures { self.new ≡ settling upload self.old }
    {
        self.placements
            .retain(|placement| is_other_placement(upload, placement));
    }

    /// Notes that a stage is to go out.
    pub(crate) fn begin_out(&mut self, upload: u64) -> Result<(), Memory>
        ensures ok { OnOk result (self.new ≡ record self.old { out = upload ∷ self.old.out }) }
        ensures err { OnErr result (self.new ≡ self.old) }
    {
        self.out.insert(0, upload)?;
        Ok(())
    }

    /// Takes it back where none was given.
    pub(crate) fn undo_out(&mut self)
        requires { 0 < length self.old.out }
        ensures { (upload : ℕ) (older : List ℕ) → self.old.out ≡ upload ∷ older → self.new ≡ record self.old { out = older } }
    {
        let _out = self.out.remove(0);
    }

    /// The upload's stage is handed back.
    pub(crate) fn hand_back(&mut self, upload: u64)
        ensures { self.new ≡ handed_back upload true self.old }
    {
        self.out.retain(|out| is_other(upload, *out));
    }

    /// Notes that an upload is to be placed.
    pub(crate) fn begin_placement(&mut self, placement: Placement) -> Result<(), Memory>
        ensures ok { OnOk result (self.new ≡ record self.old { placements = placement ∷ self.old.placements }) }
        ensures err { OnErr result (self.new ≡ self.old) }
    {
        self.placements.insert(0, placement)?;
        Ok(())
    }

    /// Takes it back where it wasn't.
    pub(crate) fn undo_placement(&mut self)
        requires { 0 < length self.old.placements }
        ensures { (placement : PlacedUpload) (older : List PlacedUpload) → self.old.placements ≡ placement ∷ older → self.new ≡ record self.old { placements = older } }
    {
        let _placement = self.placements.remove(0);
    }

    /// A sealed upload's stage is given up, and it is sealed no more.
    pub(crate) fn unseal(&mut self, upload: u64)
        ensures { self.new ≡ record self.old { out = without_out upload self.old.out; sealed = without_sealed upload self.old.sealed } }
    {
        self.out.retain(|out| is_other(upload, *out));
        self.sealed.retain(|seal| is_other_seal(upload, seal));
    }
}
