//! A world as a desk: each call is one event, at a moment that doesn't fall.
ghost use Rattle.std.specs.Prelude.{◌≡◌, max, min};
ghost use Rattle.hb_records.specs.Entries.{LAST_MOMENT};

use crate::asking::ask_noted;
use crate::opens::{open_blob, open_manifest};
use crate::staging::{drop_handed, drop_left, place_noted, take_stage};
use crate::world::World;
use hb_desk::{Ask, Desk, Opened, Refusal, Staged, Told};
use hb_keeper::Keeper;
use hb_records::MAX_MOMENT;
use hb_store::Store;
use hb_text::{Digest, Name, Reference};

// The moment of an event: the clock's, unless the last event's is later, and never past the last that can be printed.
fn moment_of(last: u64, now: u64) -> u64
    ensures { result ≡ max last (min now LAST_MOMENT) }
{
    last.max(now.min(MAX_MOMENT))
}

impl<K: Keeper, S: Store> Desk for World<K, S> {
    ghost use Rattle.hb_world.specs.Worlds.{OneLengthTold, shown, view_of};

    type Stage = S::Stage;

    type Reader = S::Reader;

    ghost view = { λ w. view_of (shown K.rows K.faults S.contents S.faults w) };

    ghost one_length = { λ w. OneLengthTold (K.rows w.keeper) (S.contents w.store) };

    ghost contents = { λ w. S.contents w.store };

    fn ask(&mut self, ask: &Ask, now: u64) -> Result<Told, Refusal> {
        let moment = moment_of(self.moment, now);
        let result = ask_noted(
            self.alloc,
            &mut self.keeper,
            &mut self.notes,
            ask,
            &mut self.entries,
            &mut self.last,
            moment,
        );
        self.moment = moment;
        result
    }

    fn stage(
        &mut self,
        name: &Name,
        upload: u64,
        start: Option<u64>,
        now: u64,
    ) -> Result<Staged<S::Stage>, Refusal> {
        let moment = moment_of(self.moment, now);
        let result = take_stage(
            self.alloc,
            &mut self.keeper,
            &mut self.store,
            &mut self.notes,
            name,
            upload,
            start,
            moment,
        );
        self.moment = moment;
        result
    }

    fn place(
        &mut self,
        upload: u64,
        stage: S::Stage,
        digest: &Digest,
        now: u64,
    ) -> Result<u64, Refusal> {
        let moment = moment_of(self.moment, now);
        let result = place_noted(
            &mut self.store,
            &mut self.notes,
            self.entries,
            upload,
            stage,
            digest,
            moment,
        );
        self.moment = moment;
        result
    }

    fn drop_stage(&mut self, upload: u64, stage: S::Stage, now: u64) -> Result<(), Refusal> {
        let moment = moment_of(self.moment, now);
        let result = drop_handed(&mut self.store, &mut self.notes, upload, stage, moment);
        self.moment = moment;
        result
    }

    fn drop_left_stage(&mut self, upload: u64, now: u64) -> Result<(), Refusal> {
        let moment = moment_of(self.moment, now);
        let out = self.notes.is_out(upload);
        let result = drop_left(&mut self.keeper, &mut self.store, out, upload, moment);
        self.moment = moment;
        result
    }

    fn open_blob(
        &mut self,
        name: &Name,
        digest: &Digest,
        now: u64,
    ) -> Result<Opened<S::Reader>, Refusal> {
        let moment = moment_of(self.moment, now);
        let result = open_blob(
            self.alloc,
            &mut self.keeper,
            &mut self.store,
            name,
            digest,
            moment,
        );
        self.moment = moment;
        result
    }

    fn open_manifest(
        &mut self,
        name: &Name,
        reference: &Reference,
        now: u64,
    ) -> Result<Opened<S::Reader>, Refusal> {
        let moment = moment_of(self.moment, now);
        let result = open_manifest(
            self.alloc,
            &mut self.keeper,
            &mut self.store,
            name,
            reference,
            moment,
        );
        self.moment = moment;
        result
    }

    fn seen(&self) -> u64 {
        self.entries
    }

    fn moment(&self) -> u64 {
        self.moment
    }

    fn last(&self) -> u64 {
        self.last
    }
}
