//! The rows of a keeper, read into memory.
ghost use Rattle.std.specs.Prelude.{◌≡◌, ◌≤◌, map, IfOk, IfSome, OnOk};
ghost use Rattle.hb_keeper.specs.Keeps.{KeepCause};
ghost use Rattle.hb_rows.specs.Tables.{AreTables};
ghost use Rattle.hb_world.specs.Reading.{IsNext, IsRead, rows_in, rows_on, with_rows};

use crate::table_rows::TableRow;
use hb_keeper::{KeepFault, Keeper};
use hb_records::{Key, MOST_ROWS, Memory, Page, Table};
use hb_rows::Rows;
use std::alloc::Global;

// The most pages of a table that are read, so that it ends also with a keeper whose pages never do. The rows
// of the ten tables on so many pages are fewer than 2^62, and more than any memory has room for.
const MOST_PAGES: u64 = 1 << 50;

// Sets the rows, in order. After `Memory` the first of them may be set.
fn set_all<T: TableRow>(rows: &mut Rows, mut items: Vec<T>) -> Result<(), Memory>
    ensures { OnOk result (rows.new ≡ with_rows rows.old (map T.as_row items.items)) }
{
    items.reverse();
    while let Some(item) = items.pop() {
        rows.set(item.into_row())?;
    }
    Ok(())
}

// The key behind which the page after these rows begins, where there may be one.
fn next_key<T: TableRow>(alloc: Global, items: &[T]) -> Result<Option<Key>, Memory>
    ensures { IfOk result (IsNext (map T.as_row items.now)) }
{
    if items.len() < MOST_ROWS {
        return Ok(None);
    }
    match items.split_last() {
        Some((last, _)) => Ok(Some(last.key(alloc)?)),
        None => Ok(None),
    }
}

fn set_listed<T: TableRow>(
    alloc: Global,
    rows: &mut Rows,
    items: Vec<T>,
) -> Result<Option<Key>, Memory>
    ensures { IfOk result (IsRead rows.old rows.new (map T.as_row items.items)) }
{
    let next = next_key(alloc, items.as_slice())?;
    set_all(rows, items)?;
    Ok(next)
}

// Sets the rows of a page, and gives the key behind which the next one begins.
fn set_page(alloc: Global, rows: &mut Rows, page: Page) -> Result<Option<Key>, Memory>
    ensures { IfOk result (IsRead rows.old rows.new (rows_on page)) }
{
    match page {
        Page::Project(list) => set_listed(alloc, rows, list.into_vec()),
        Page::Blob(list) => set_listed(alloc, rows, list.into_vec()),
        Page::Pair(list) => set_listed(alloc, rows, list.into_vec()),
        Page::Artifact(list) => set_listed(alloc, rows, list.into_vec()),
        Page::Tag(list) => set_listed(alloc, rows, list.into_vec()),
        Page::Upload(list) => set_listed(alloc, rows, list.into_vec()),
        Page::Job(list) => set_listed(alloc, rows, list.into_vec()),
        Page::Candidate(list) => set_listed(alloc, rows, list.into_vec()),
        Page::Snap(list) => set_listed(alloc, rows, list.into_vec()),
        Page::Entry(list) => set_listed(alloc, rows, list.into_vec()),
    }
}

// Reads a table, page by page.
fn read_table<K: Keeper>(
    alloc: Global,
    keeper: &mut K,
    table: Table,
    rows: &mut Rows,
) -> Result<(), KeepFault>
    ensures told { IfSome (K.rows keeper.old) (λ t. OnOk result (rows.new ≡ with_rows rows.old (rows_in t table))) }
    ensures tables { OnOk result (IfSome (K.rows keeper.old) AreTables) }
    ensures rows { K.rows keeper.new ≡ K.rows keeper.old }
    ensures cause { KeepCause (K.faults keeper.old) (K.faults keeper.new) result }
{
    let mut after: Option<Key> = None;
    for _ in 0..MOST_PAGES {
        let page = keeper.page(table, after.as_ref())?;
        match set_page(alloc, rows, page)? {
            Some(key) => after = Some(key),
            None => return Ok(()),
        }
    }
    Err(KeepFault::Memory)
}

/// Reads all tables of a keeper. After a fault nothing is read. `Memory` comes also where a table has more
/// rows than any memory has room for.
pub(crate) fn read_rows<K: Keeper>(alloc: Global, keeper: &mut K) -> Result<Rows, KeepFault>
    ensures told { IfSome (K.rows keeper.old) (λ t. IfOk result (λ rows. rows ≡ t)) }
    ensures rows { K.rows keeper.new ≡ K.rows keeper.old }
    ensures cause { KeepCause (K.faults keeper.old) (K.faults keeper.new) result }
{
    let tables = [
        Table::Project,
        Table::Blob,
        Table::Pair,
        Table::Artifact,
        Table::Tag,
        Table::Upload,
        Table::Job,
        Table::Candidate,
        Table::Snap,
        Table::Entry,
    ];
    let mut rows = Rows::new(alloc);
    for table in &tables {
        read_table(alloc, keeper, *table, &mut rows)?;
    }
    Ok(rows)
}
