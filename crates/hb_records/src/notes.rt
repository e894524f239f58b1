ghost use Rattle.std.specs.Prelude.{◌≡◌, IfOk};

use hb_base::Listed;
use hb_text::{Digest, Duplicate, Memory};
use std::alloc::Global;

/// Numbers of uploads or of jobs.
pub type NumberList = Listed<u64>;

/// Sealed uploads.
pub type SealedList = Listed<Sealed>;

/// Placements.
pub type PlacementList = Listed<Placement>;

/// Removals that were sent.
pub type SpellList = Listed<Spell>;

/// Digests that a listing of the store showed.
pub type SightingList = Listed<Sighting>;

/// An upload that has ended and whose bytes aren't placed yet.
#[derive(Clone, Copy, Debug, PartialEq, Eq)]
pub struct Sealed {
    pub upload: u64,
    pub digest: Digest,
    /// In bytes.
    pub size: u64,
}

impl Duplicate for Sealed {
    fn copy(&self, _alloc: Global) -> Result<Sealed, Memory> {
        Ok(*self)
    }
}

/// An upload whose bytes were placed under their digest, and which no project has from it yet.
#[derive(Clone, Copy, Debug, PartialEq, Eq)]
pub struct Placement {
    pub upload: u64,
    pub digest: Digest,
    /// In bytes.
    pub size: u64,
    /// The number of entries when it was placed.
    pub placed: u64,
    /// The number of the last entry since that took or collected the digest, or 0.
    pub gone: u64,
}

impl Duplicate for Placement {
    fn copy(&self, _alloc: Global) -> Result<Placement, Memory> {
        Ok(*self)
    }
}

/// A removal that a collection sent to the store.
#[derive(Clone, Copy, Debug, PartialEq, Eq)]
pub struct Spell {
    pub job: u64,
    pub digest: Digest,
    /// The number of the entry that took the digest.
    pub taking: u64,
    /// Whether the store said that it is done. Else it may still take effect.
    pub acknowledged: bool,
}

impl Duplicate for Spell {
    fn copy(&self, _alloc: Global) -> Result<Spell, Memory> {
        Ok(*self)
    }
}

/// A digest that a collection's last listing of the store showed, and that has no row.
#[derive(Clone, Copy, Debug, PartialEq, Eq)]
pub struct Sighting {
    pub job: u64,
    pub digest: Digest,
    /// In bytes.
    pub size: u64,
}

impl Duplicate for Sighting {
    fn copy(&self, _alloc: Global) -> Result<Sighting, Memory> {
        Ok(*self)
    }
}

/// What a world remembers since it started, beside the rows. A start has none of it.
#[derive(Drop)]
pub struct Notes {
    /// The uploads whose stage somebody holds.
    pub out: NumberList,
    pub sealed: SealedList,
    pub placements: PlacementList,
    pub spells: SpellList,
    pub sightings: SightingList,
    /// The jobs that somebody claimed and hasn't released.
    pub claims: NumberList,
}

fn copy_numbers(alloc: Global, numbers: &NumberList) -> Result<NumberList, Memory>
    ensures { IfOk result (λ made. made ≡ numbers.now) }
{
    match Vec::from_slice(alloc, numbers.as_slice()) {
        Ok(items) => Ok(Listed::of(items)),
        Err(_) => Err(Memory),
    }
}

impl Duplicate for Notes {
    fn copy(&self, alloc: Global) -> Result<Notes, Memory> {
        Ok(Notes {
            out: copy_numbers(alloc, &self.out)?,
            sealed: self.sealed.copy(alloc)?,
            placements: self.placements.copy(alloc)?,
            spells: self.spells.copy(alloc)?,
            sightings: self.sightings.copy(alloc)?,
            claims: copy_numbers(alloc, &self.claims)?,
        })
    }
}
