//! The laws of tables. Each function here does nothing: its contract is what it is for, and whoever
//! reads what `put` and `remove` leave can take it from here what that means.

ghost use Rattle.std.specs.declared.cmp.Ordering.{Ordering};
ghost use Rattle.std.specs.Cmp.{IsTotalOrder};
ghost use Rattle.hb_base.specs.TableLaws.{FindsTheRowSet, FindsNoRowDropped, RisesWithARowSet};
ghost use Rattle.hb_base.specs.TableLaws.{RisesWithAKeyDropped, LookupsTellTheTable, PlacesTellWhereRowsGo};

/// What is found after a change: by the key of a row that was set that row, by a key that was dropped
/// nothing, and by every other key what was found before. It takes no memory.
pub fn changes_are_found<T, K>()
    ensures set { (compare : K → K → Ordering) (key : T → K)
        → IsTotalOrder compare → FindsTheRowSet compare key }
    ensures dropped { (compare : K → K → Ordering) (key : T → K)
        → IsTotalOrder compare → FindsNoRowDropped compare key }
{}

/// The keys of a table still rise after a row is set, and after a key is dropped.
pub fn keys_still_rise<T, K>()
    ensures set { (compare : K → K → Ordering) (key : T → K)
        → IsTotalOrder compare → RisesWithARowSet compare key }
    ensures dropped { (compare : K → K → Ordering) (key : T → K)
        → IsTotalOrder compare → RisesWithAKeyDropped compare key }
{}

/// Two tables with rising keys in which the same is found by every key are the same table.
pub fn lookups_tell_the_table<T, K>()
    ensures { (compare : K → K → Ordering) (key : T → K)
        → IsTotalOrder compare → LookupsTellTheTable compare key }
{}

/// The place of a row, as `place` answers it, is where setting the row writes it.
pub fn places_tell_where_rows_go<T>()
    ensures { (order : T → T → Ordering) → PlacesTellWhereRowsGo order }
{}
