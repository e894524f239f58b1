//! What a keeper in memory tells of its rows, as values of their own.
ghost use Rattle.std.specs.Prelude.{◌≡◌, ◌<◌, length, IfOk, IfSome, IfNone};
ghost use Rattle.std.specs.Option.{option_copied};
ghost use Rattle.hb_records.specs.Entries.{MOST_ENTRIES};
ghost use Rattle.hb_rows.specs.Pages.{page_of};
ghost use Rattle.hb_keeper.specs.Answers.{meta_of};
ghost use Rattle.hb_keeper.specs.PageKeys.{IsPageBehind};

use hb_records::{Key, MAX_ENTRIES, Memory, Meta, Page, Table};
use hb_rows::Rows;
use hb_text::Duplicate;
use std::alloc::Global;

/// A copy of the row, where there is one.
pub fn copied<T: Duplicate>(alloc: Global, row: Option<&T>) -> Result<Option<T>, Memory>
    ensures { IfOk result (λ made. made ≡ option_copied row.entry) }
{
    match row {
        Some(row) => Ok(Some(row.copy(alloc)?)),
        None => Ok(None),
    }
}

/// How long the audit is and its latest moment, or `None` where it is longer than a [`Meta`] can say.
pub fn meta_of(rows: &Rows) -> Option<Meta>
    ensures some { IfSome result (λ meta. meta ≡ meta_of rows.now) }
    ensures none { IfNone result (MOST_ENTRIES < length rows.now.audit) }
{
    let entries = rows.entries();
    let count = entries.len() as u64;
    if MAX_ENTRIES < count {
        return None;
    }
    let latest = match entries.last() {
        Some(entry) => entry.moment,
        None => 0,
    };
    Some(Meta {
        entries: count,
        latest,
    })
}

/// The next rows of the table behind the key. That their keys rise is what the tables keep.
pub fn page_behind(
    alloc: Global,
    rows: &Rows,
    table: Table,
    after: Option<&Key>,
) -> Result<Page, Memory>
    ensures told { IfOk result (λ page. page ≡ page_of rows.now table (option_copied after.entry)) }
    ensures behind { IfOk result (IsPageBehind table (option_copied after.entry)) }
{
    rows.keys_rise();
    Ok(rows.page(alloc, table, after)?)
}
