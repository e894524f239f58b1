ghost use Rattle.std.specs.Prelude.{◌≡◌, ◌<◌, true, reverse, IfOk, IfSome, IfNone};
ghost use Rattle.std.specs.List.{AllByRecursion};
ghost use Rattle.hb_rows.specs.Tables.{entries};
ghost use Rattle.hb_model.specs.Built.{is_built, HasRoom};
ghost use Rattle.hb_model.specs.Effects.{after_entry};
ghost use Rattle.hb_model.specs.UsedBound.{added_by as bytes_added_by};
ghost use Rattle.hb_model.specs.Remaking.{Remakes};
ghost use Rattle.hb_model.specs.Fit.{Tells, FirstAt, SameToSnaps, DisorderAt, IsInOrder};

use crate::changes::changes_of;
use crate::comparing::first_difference;
use crate::misfits::Misfit;
use hb_records::{Batch, Duplicate, Entry, EntryKind, Memory, Table};
use hb_rows::Rows;
use std::alloc::Global;

// The rows that the entries make, or the place of the first entry whose kind isn't built.
#[derive(Drop)]
enum Remade {
    Rows(Rows),
    Unbuilt(u64),
}

// The most bytes that an entry adds to what a project uses.
fn added_by(kind: &EntryKind) -> u64
    ensures { result ≡ bytes_added_by kind.now }
{
    match kind {
        EntryKind::Associated { size, .. } => *size,
        EntryKind::ArtifactPut { size, .. } => *size,
        _ => 0,
    }
}

// Makes the changes of the entry, the newest, and adds it. It answers whether the entry's kind is built.
fn add_entry(alloc: Global, made: &mut Rows, entry: &Entry) -> Result<bool, Memory>
    requires room { HasRoom made.old entry.now.kind }
    requires newest { AllByRecursion (λ x. x.number < entry.now.number) made.old.audit }
    ensures built { IfOk result (λ b. b ≡ is_built entry.now.kind) }
    ensures made { IfOk result (λ b. b ≡ true → made.new ≡ after_entry made.old entry.now) }
{
    let Some(changes) = changes_of(alloc, made, entry)? else {
        return Ok(false);
    };
    made.keys_rise();
    made.apply(
        alloc,
        &Batch {
            changes,
            entry: entry.copy(alloc)?,
        },
    )?;
    Ok(true)
}

// Makes the rows anew, entry by entry.
fn remake(alloc: Global, rows: &Rows) -> Result<Remade, Memory>
    ensures { IfOk result (Remakes rows.now) }
{
    rows.keys_rise();
    let mut made = Rows::new(alloc);
    let mut place: u64 = 0;
    for entry in rows.entries() {
        // known to the proof as a number of 64 bits
        let _added = added_by(&entry.kind);
        place += 1;
        if !add_entry(alloc, &mut made, entry)? {
            return Ok(Remade::Unbuilt(place));
        }
    }
    Ok(Remade::Rows(made))
}

// The first place of an entry whose number isn't its place, or whose moment is before the one before it.
fn first_disorder(entries: &[Entry]) -> Option<u64>
    ensures none { IfNone result (IsInOrder (reverse entries.now)) }
    ensures some { IfSome result (λ place. DisorderAt place entries.now) }
{
    let mut place: u64 = 0;
    let mut latest: u64 = 0;
    for entry in entries {
        place += 1;
        if entry.number != place || entry.moment < latest {
            return Some(place);
        }
        latest = entry.moment;
    }
    None
}

// The first table of the rows that isn't that of those that were made of their audit.
fn first_misfit(rows: &Rows, made: &Rows) -> Option<Misfit>
    ensures none { IfNone result (SameToSnaps rows.now made.now × IsInOrder (reverse (entries rows.now))) }
    ensures some { IfSome result (λ m. FirstAt m.table m.place rows.now made.now) }
{
    if let Some(place) = first_difference(rows.projects(), made.projects()) {
        return Some(Misfit {
            table: Table::Project,
            place,
        });
    }
    if let Some(place) = first_difference(rows.blobs(), made.blobs()) {
        return Some(Misfit {
            table: Table::Blob,
            place,
        });
    }
    if let Some(place) = first_difference(rows.pairs(), made.pairs()) {
        return Some(Misfit {
            table: Table::Pair,
            place,
        });
    }
    if let Some(place) = first_difference(rows.artifacts(), made.artifacts()) {
        return Some(Misfit {
            table: Table::Artifact,
            place,
        });
    }
    if let Some(place) = first_difference(rows.tags(), made.tags()) {
        return Some(Misfit {
            table: Table::Tag,
            place,
        });
    }
    if let Some(place) = first_difference(rows.uploads(), made.uploads()) {
        return Some(Misfit {
            table: Table::Upload,
            place,
        });
    }
    if let Some(place) = first_difference(rows.jobs(), made.jobs()) {
        return Some(Misfit {
            table: Table::Job,
            place,
        });
    }
    if let Some(place) = first_difference(rows.candidates(), made.candidates()) {
        return Some(Misfit {
            table: Table::Candidate,
            place,
        });
    }
    if let Some(place) = first_difference(rows.snaps(), made.snaps()) {
        return Some(Misfit {
            table: Table::Snap,
            place,
        });
    }
    if let Some(place) = first_disorder(rows.entries()) {
        return Some(Misfit {
            table: Table::Entry,
            place,
        });
    }
    None
}

/// Whether rows are those of their audit: what its entries make of empty tables, with the entries numbered from
/// 1 and their moments never falling. None says so. Else it tells the first table that differs, entries last,
/// and the first place in it. Where an entry is of a kind that isn't built, its place in the table of entries
/// is told, before all else.
pub fn fit(alloc: Global, rows: &Rows) -> Result<Option<Misfit>, Memory>
    ensures { IfOk result (Tells rows.now) }
{
    match remake(alloc, rows)? {
        Remade::Unbuilt(place) => Ok(Some(Misfit {
            table: Table::Entry,
            place,
        })),
        Remade::Rows(made) => Ok(first_misfit(rows, &made)),
    }
}
