//! Rows by their keys among those of all tables, and the rows of a page.
ghost use Rattle.std.specs.Prelude.{◌≡◌, IfOk};
ghost use Rattle.std.specs.Option.{option_copied};
ghost use Rattle.std.specs.Ordering.{nat_cmp};
ghost use Rattle.hb_records.specs.Keys.{table_of, place_of_table};
ghost use Rattle.hb_rows.specs.Pages.{is_behind, rows_behind};

use hb_records::{
    Artifact, Assoc, Blob, Candidate, Duplicate, Entry, JobRow, Key, Listed, MOST_ROWS, Memory,
    Project, SnapTag, Table, TagRow, Upload,
};
use std::alloc::Global;
use std::cmp::Ordering;

/// A row of one of the tables.
pub trait Keyed: Duplicate + Drop {
    ghost use Rattle.hb_records.specs.Keys.{key_cmp};
    ghost use Rattle.hb_records.specs.declared.keys.Key.{Key};

    /// Its key among those of all tables.
    ghost key_of: { Self → Key };

    /// How a key stands to the row's. It makes no key.
    fn compare_key(&self, key: &Key) -> Ordering
        ensures { result ≡ key_cmp key.now (Self.key_of self.now) };
}

// How a key of another table stands to the keys of this one.
fn by_table(key: &Key, table: Table) -> Ordering
    ensures { result ≡ nat_cmp (place_of_table (table_of key.now)) (place_of_table table) }
{
    key.table().cmp(&table)
}

// Whether a row is behind the key, where there is one.
fn is_behind<T: Keyed>(after: Option<&Key>, row: &T) -> bool
    ensures { result ≡ is_behind (option_copied after.entry) (T.key_of row.now) }
{
    match after {
        Some(key) => row.compare_key(key).is_lt(),
        None => true,
    }
}

/// Copies of the first rows behind the key, at most as many as a page has.
pub fn rows_behind<T: Keyed>(
    alloc: Global,
    rows: &[T],
    after: Option<&Key>,
) -> Result<Listed<T>, Memory>
    ensures { IfOk result (λ page. page ≡ rows_behind T.key_of (option_copied after.entry) rows.now) }
{
    let mut page = Listed::new(alloc);
    for row in rows {
        if page.len() == MOST_ROWS {
            break;
        }
        if is_behind(after, row) {
            page.push(row.copy(alloc)?)?;
        }
    }
    Ok(page)
}

impl Keyed for Project {
    ghost use Rattle.hb_rows.specs.Pages.{key_of_project};

    ghost key_of = { key_of_project };

    fn compare_key(&self, key: &Key) -> Ordering {
        match key {
            Key::Project { name } => name.cmp(&self.name),
            _ => by_table(key, Table::Project),
        }
    }
}

impl Keyed for Blob {
    ghost use Rattle.hb_rows.specs.Pages.{key_of_blob};

    ghost key_of = { key_of_blob };

    fn compare_key(&self, key: &Key) -> Ordering {
        match key {
            Key::Blob { digest } => digest.cmp(&self.digest),
            _ => by_table(key, Table::Blob),
        }
    }
}

impl Keyed for Assoc {
    ghost use Rattle.hb_rows.specs.Pages.{key_of_pair};

    ghost key_of = { key_of_pair };

    fn compare_key(&self, key: &Key) -> Ordering {
        match key {
            Key::Pair { project, digest } => project
                .cmp(&self.project)
                .then(digest.cmp(&self.digest)),
            _ => by_table(key, Table::Pair),
        }
    }
}

impl Keyed for Artifact {
    ghost use Rattle.hb_rows.specs.Pages.{key_of_artifact};

    ghost key_of = { key_of_artifact };

    fn compare_key(&self, key: &Key) -> Ordering {
        match key {
            Key::Artifact { name, digest } => name.cmp(&self.name).then(digest.cmp(&self.digest)),
            _ => by_table(key, Table::Artifact),
        }
    }
}

impl Keyed for TagRow {
    ghost use Rattle.hb_rows.specs.Pages.{key_of_tag};

    ghost key_of = { key_of_tag };

    fn compare_key(&self, key: &Key) -> Ordering {
        match key {
            Key::Tag { name, tag } => name.cmp(&self.name).then(tag.cmp(&self.tag)),
            _ => by_table(key, Table::Tag),
        }
    }
}

impl Keyed for Upload {
    ghost use Rattle.hb_rows.specs.Pages.{key_of_upload};

    ghost key_of = { key_of_upload };

    fn compare_key(&self, key: &Key) -> Ordering {
        match key {
            Key::Upload { id } => id.cmp(&self.id),
            _ => by_table(key, Table::Upload),
        }
    }
}

impl Keyed for JobRow {
    ghost use Rattle.hb_rows.specs.Pages.{key_of_job};

    ghost key_of = { key_of_job };

    fn compare_key(&self, key: &Key) -> Ordering {
        match key {
            Key::Job { number } => number.cmp(&self.number),
            _ => by_table(key, Table::Job),
        }
    }
}

impl Keyed for Candidate {
    ghost use Rattle.hb_rows.specs.Pages.{key_of_candidate};

    ghost key_of = { key_of_candidate };

    fn compare_key(&self, key: &Key) -> Ordering {
        match key {
            Key::Candidate { job, digest } => job.cmp(&self.job).then(digest.cmp(&self.digest)),
            _ => by_table(key, Table::Candidate),
        }
    }
}

impl Keyed for SnapTag {
    ghost use Rattle.hb_rows.specs.Pages.{key_of_snap};

    ghost key_of = { key_of_snap };

    fn compare_key(&self, key: &Key) -> Ordering {
        match key {
            Key::Snap { job, name, tag } => job
                .cmp(&self.job)
                .then(name.cmp(&self.name).then(tag.cmp(&self.tag))),
            _ => by_table(key, Table::Snap),
        }
    }
}

impl Keyed for Entry {
    ghost use Rattle.hb_rows.specs.Pages.{key_of_entry};

    ghost key_of = { key_of_entry };

    fn compare_key(&self, key: &Key) -> Ordering {
        match key {
            Key::Entry { number } => number.cmp(&self.number),
            _ => by_table(key, Table::Entry),
        }
    }
}
