//! The rows of a keeper, made ready for a world.
ghost use Rattle.std.specs.Prelude.{◌≡◌, ◌≤◌, ◌^◌, [], length, Some, None, IfOk, IfErr, IfSome, OnErr, IsErrOf};
ghost use Rattle.std.specs.Option.{option_map};
ghost use Rattle.hb_keeper.specs.Keeps.{KeepCause};
ghost use Rattle.hb_outside.specs.Causes.{Rose};
ghost use Rattle.hb_records.specs.Entries.{LAST_MOMENT};
ghost use Rattle.hb_records.specs.declared.batches.Batch.{Batch};
ghost use Rattle.hb_rows.specs.Tables.{Tables};
ghost use Rattle.hb_model.specs.Changes.{changes_of};
ghost use Rattle.hb_model.specs.Effects.{after_entry};
ghost use Rattle.hb_model.specs.Fit.{Tells};
ghost use Rattle.hb_model.specs.LegalProjects.{library};
ghost use Rattle.hb_world.specs.Starting.{Refused, Started, first_entry};

use crate::reading::read_rows;
use crate::world::StartFault;
use hb_keeper::{KeepFault, Keeper};
use hb_model::changes::{Stamp, project_made};
use hb_model::fit;
use hb_records::{Batch, Duplicate, Entry, EntryKind, MAX_ENTRIES, MAX_MOMENT, Memory};
use hb_rows::Rows;
use hb_text::{NameFault, ProjectName};
use std::alloc::Global;

// The name of the project that is there from the start.
fn library_name(alloc: Global) -> Result<ProjectName, Memory>
    ensures { IfOk result (λ name. name ≡ library) }
{
    match ProjectName::read(alloc, b"library") {
        Ok(name) => Ok(name),
        Err(NameFault::Memory) => Err(Memory),
        Err(NameFault::Invalid) => unreachable!(),
    }
}

// The batch of the entry that a new registry begins with.
fn first_batch(alloc: Global, moment: u64) -> Result<Batch, Memory>
    requires { moment ≤ LAST_MOMENT }
    ensures entry { IfOk result (λ batch. batch.entry ≡ first_entry moment) }
    ensures changes { IfOk result (λ batch. (t : Tables) → batch.changes ≡ changes_of t (first_entry moment)) }
{
    let project = library_name(alloc)?;
    let changes = project_made(alloc, Stamp { number: 1, moment }, &project, -1)?;
    let kind = EntryKind::ProjectMade { project, limit: -1 };
    Ok(Batch {
        changes,
        entry: Entry {
            number: 1,
            moment,
            kind,
        },
    })
}

// Commits the first entry to rows without an audit.
fn begin<K: Keeper>(alloc: Global, keeper: &mut K, moment: u64) -> Result<(), KeepFault>
    requires { moment ≤ LAST_MOMENT }
    ensures begun { IfSome (K.rows keeper.old) (λ t. t.audit ≡ [] → IfOk result (λ _. K.rows keeper.new ≡ Some (after_entry t (first_entry moment)))) }
    ensures untold { K.rows keeper.old ≡ None → K.rows keeper.new ≡ None }
    ensures err { OnErr result (K.rows keeper.new ≡ K.rows keeper.old) }
    ensures cause { KeepCause (K.faults keeper.old) (K.faults keeper.new) result }
{
    let batch = first_batch(alloc, moment)?;
    keeper.commit(&batch)
}

// The rows of a keeper, where they fit their audit.
fn fitting_rows<K: Keeper>(alloc: Global, keeper: &mut K) -> Result<Rows, StartFault>
    ensures fit { IfSome (K.rows keeper.old) (λ t. IfOk result (λ rows. (rows ≡ t) × Tells t None)) }
    ensures refused { IfErr result (λ fault. Refused (K.rows keeper.old) (K.faults keeper.old) fault (K.rows keeper.new) (K.faults keeper.new)) }
    ensures same { K.rows keeper.new ≡ K.rows keeper.old }
    ensures later { K.faults keeper.old ≤ K.faults keeper.new }
{
    let rows = read_rows(alloc, keeper)?;
    match fit(alloc, &rows)? {
        Some(misfit) => Err(StartFault::Misfit(misfit)),
        None => Ok(rows),
    }
}

/// How many entries the audit has, and the moment at which a world starts.
#[derive(Clone, Copy)]
pub(crate) struct Beginning {
    pub(crate) entries: u64,
    pub(crate) moment: u64,
}

// How many entries there are, where an audit may have so many.
fn count_entries(rows: &Rows) -> Result<u64, Memory>
    ensures { IfOk result (λ n. (n ≡ length rows.now.audit) × (n ≤ 2 ^ 62)) }
{
    let entries = rows.entries().len() as u64;
    if entries > MAX_ENTRIES {
        return Err(Memory);
    }
    Ok(entries)
}

/// Makes the rows of a keeper ready for a world.
pub(crate) fn ready<K: Keeper>(
    alloc: Global,
    keeper: &mut K,
    now: u64,
) -> Result<Beginning, StartFault>
    ensures started { IfOk result (λ made. Started (K.rows keeper.old) now (K.rows keeper.new) made.moment) }
    ensures count { IfOk result (λ made. IfSome (K.rows keeper.new) (λ t. made.entries ≡ length t.audit)) }
    ensures room { IfOk result (λ made. (made.entries ≤ 2 ^ 62) × (made.moment ≤ LAST_MOMENT)) }
    ensures later { IfOk result (λ _. K.faults keeper.old ≤ K.faults keeper.new) }
    ensures refused { IfErr result (λ fault. Refused (K.rows keeper.old) (K.faults keeper.old) fault (K.rows keeper.new) (K.faults keeper.new)) }
{
    let rows = fitting_rows(alloc, keeper)?;
    let entries = count_entries(&rows)?;
    let now = now.min(MAX_MOMENT);
    match rows.entries().last() {
        Some(entry) => Ok(Beginning {
            entries,
            moment: now.max(entry.moment),
        }),
        None => {
            begin(alloc, keeper, now)?;
            Ok(Beginning {
                entries: 1,
                moment: now,
            })
        }
    }
}
