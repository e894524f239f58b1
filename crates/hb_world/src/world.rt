//! A world: the rows of a keeper and the contents of a store that fit one another.
ghost use Rattle.std.specs.Prelude.{◌≡◌, ◌≤◌, Some, IfOk, IfErr, IfSome};
ghost use Rattle.hb_keeper.specs.declared.keeper.KeepFault.TheVariants as keep;
ghost use Rattle.hb_rows.specs.Tables.{empty_tables};
ghost use Rattle.hb_store.specs.MemStores.{empty_contents};
ghost use Rattle.hb_model.specs.Whole.{no_notes};
ghost use Rattle.hb_world.specs.Pullable.{IsPullable};
ghost use Rattle.hb_world.specs.Starting.{CanStart, IsAtRest, Refused, Started};
ghost use Rattle.hb_world.specs.declared.world.StartFault.TheVariants.{Failed, Memory};

use crate::remembered::Remembered;
use crate::starting::ready;
use hb_keeper::{KeepFault, Keeper};
use hb_model::Misfit;
use hb_records::Memory;
use hb_store::Store;
use std::alloc::Global;
use std::error::Error;
use std::fmt;
use std::marker::Model;

/// Why a world doesn't start.
#[derive(Clone, Copy, Debug, PartialEq, Eq)]
pub enum StartFault {
    /// The rows aren't those of their audit.
    Misfit(Misfit),
    /// The keeper failed: it comes only where its count of faults rose.
    Failed,
    /// Memory was wanting.
    Memory,
}

impl fmt::Display for StartFault {
    fn fmt<W: fmt::Write>(&self, f: &mut fmt::Formatter<W>) -> fmt::Result {
        match self {
            StartFault::Misfit(misfit) => write!(f, "rows do not fit {}", misfit),
            StartFault::Failed => write!(f, "rows failed"),
            StartFault::Memory => write!(f, "memory"),
        }
    }
}

impl Error for StartFault {}

impl From<KeepFault> for StartFault {
    ghost from_gives = { λ given fault. (given ≡ keep.Failed → fault ≡ Failed) × (given ≡ keep.Memory → fault ≡ Memory) };

    fn from(fault: KeepFault) -> StartFault {
        match fault {
            KeepFault::Failed => StartFault::Failed,
            KeepFault::Memory => StartFault::Memory,
        }
    }
}

impl From<Memory> for StartFault {
    ghost from_gives = { λ _ fault. fault ≡ Memory };

    fn from(_fault: Memory) -> StartFault {
        StartFault::Memory
    }
}

/// A start that was refused, with the devices as they are then.
#[derive(Drop)]
pub struct StartRefused<K, S> {
    pub fault: StartFault,
    pub keeper: K,
    pub store: S,
}

/// The state of a registry: a keeper of its rows, a store of its contents, what is remembered of uploads, how
/// many entries its audit has, and the greatest moment so far.
///
/// Where the devices tell rows and contents, these and what is remembered fit one another, at every event. It
/// is a [`hb_desk::Desk`], whose events nobody else shares, and never waits.
#[derive(Drop)]
pub struct World<K: Keeper, S: Store> {
    pub(crate) alloc: Global,
    pub(crate) keeper: K,
    pub(crate) store: S,
    pub(crate) notes: Remembered,
    // how many entries the audit has
    pub(crate) entries: u64,
    pub(crate) moment: u64,
    // how many entries it had at the start
    pub(crate) start: u64,
    // the number of the last entry since, or 0
    pub(crate) last: u64,
}

impl<K: Keeper, S: Store> Model for World<K, S> {
    ghost use Rattle.hb_world.specs.Worlds.{IsWorld, WorldParts};

    ghost Value = { WorldParts K S };

    ghost view = { λ w. record { keeper = w.keeper; store = w.store; notes = w.notes; entries = w.entries; moment = w.moment; start = w.start; last = w.last } };

    ghost invariant = { λ w. IsWorld (record { rows = K.rows w.keeper; contents = S.contents w.store; keeper_faults = K.faults w.keeper; store_faults = S.faults w.store; notes = w.notes; entries = w.entries; moment = w.moment; start = w.start; last = w.last }) };
}

/// A keeper without a row and a store without content are at rest. It does nothing, and its contract is this
/// law, by which a world can start on new devices.
pub fn empty_devices_are_at_rest()
    ensures { IsAtRest (Some empty_tables) (Some empty_contents) }
{}

impl<K: Keeper, S: Store> World<K, S> {
    /// A world over rows that fit their audit. Rows without an audit get its first entry, which makes the
    /// project `library`; others stay as they are. The moment is the clock's, `now`, unless the rows' latest
    /// is later, and never past [`hb_records::MAX_MOMENT`]. No call of the store is made.
    ///
    /// Where it is refused, the rows are as before. Memory comes also where the audit has more than 2^62 entries.
    pub fn start(
        alloc: Global,
        keeper: K,
        store: S,
        now: u64,
    ) -> Result<World<K, S>, StartRefused<K, S>>
        requires can { CanStart (K.rows keeper) (S.contents store) }
        ensures started { IfOk result (λ w. Started (K.rows keeper) now (K.rows w.keeper) w.moment) }
        ensures fresh { IfOk result (λ w. (w.notes ≡ no_notes) × (w.start ≡ w.entries) × (w.last ≡ 0)) }
        ensures later { IfOk result (λ w. K.faults keeper ≤ K.faults w.keeper) }
        ensures store { IfOk result (λ w. w.store ≡ store) }
        ensures refused { IfErr result (λ r. Refused (K.rows keeper) (K.faults keeper) r.fault (K.rows r.keeper) (K.faults r.keeper)) }
        ensures kept { IfErr result (λ r. r.store ≡ store) }
    {
        let mut keeper = keeper;
        match ready(alloc, &mut keeper, now) {
            Ok(from) => Ok(World {
                alloc,
                keeper,
                store,
                notes: Remembered::new(alloc),
                entries: from.entries,
                moment: from.moment,
                start: from.entries,
                last: 0,
            }),
            Err(fault) => Err(StartRefused {
                fault,
                keeper,
                store,
            }),
        }
    }

    /// The devices, on which a world starts again. Where they tell rows and contents, what clients see after the rows'
    /// audit can be pulled from them.
    pub fn close(self) -> (K, S)
        ensures keeper { result.0 ≡ self.keeper }
        ensures store { result.1 ≡ self.store }
        ensures rest { IsAtRest (K.rows result.0) (S.contents result.1) }
        ensures pullable { IfSome (K.rows result.0) (λ r. IsPullable r (S.contents result.1)) }
    {
        let World {
            alloc: _,
            keeper,
            store,
            notes: _,
            entries: _,
            moment: _,
            start: _,
            last: _,
        } = self;
        (keeper, store)
    }
}
