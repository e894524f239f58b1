//! Tables: rows in a slice or a `Vec`, in the order of their keys, each key once.
//!
//! No call asks that the keys rise: each says what it does to any rows. That they still rise after
//! `put` and `remove`, and what `find` then finds, is what the functions of `laws` say.

ghost use Rattle.std.specs.Prelude.{◌≡◌, ◌<◌, ◌≤◌, ◌+◌, length, vec_len, MatchResult, not};
ghost use Rattle.std.specs.Vec.{vec_capacity};
ghost use Rattle.std.specs.Option.{option_copied};
ghost use Rattle.std.specs.Ordering.{is_eq};
ghost use Rattle.hb_base.specs.Tables.{found, with_row_by, without, place_of};

use std::cmp::Ordering;

/// A row of a table, which is ordered by its key. Rows whose keys tie are the same row to a table.
pub trait Ordered: Drop {
    ghost use Rattle.std.specs.declared.cmp.Ordering.{Ordering};

    /// How the keys of two rows stand.
    ghost order: { Self → Self → Ordering };

    /// How this row's key stands to the other's. It takes no memory.
    fn compare(&self, other: &Self) -> Ordering
        ensures { result ≡ order self.now other.now };
}

/// A key by which rows are sought. It may borrow its parts, so that a look-up copies nothing.
pub trait Seeks<T> {
    ghost use Rattle.std.specs.declared.cmp.Ordering.{Ordering};

    /// How the key stands to a row's.
    ghost seeks: { Self → T → Ordering };

    /// How this key stands to the row's. It takes no memory.
    fn compare_to(&self, row: &T) -> Ordering
        ensures { result ≡ seeks self.now row.now };
}

/// `Ok` with the place of the row that has the same key, or `Err` with the place where this row would
/// go. It takes no memory.
pub fn place<T: Ordered>(rows: &[T], row: &T) -> Result<usize, usize>
    ensures value { result ≡ place_of (T.order row.now) rows.now }
    ensures within { MatchResult result (λ i. i < length rows.now) (λ i. i ≤ length rows.now) }
{
    for (i, other) in rows.iter().enumerate() {
        match row.compare(other) {
            Ordering::Less => return Err(i),
            Ordering::Equal => return Ok(i),
            Ordering::Greater => {}
        }
    }
    Err(rows.len())
}

/// Sets a row: in the place of the one that has its key, or else before the first whose key is above its
/// own. The caller makes room for one row more before, so it takes no memory.
pub fn put<T: Ordered>(rows: &mut Vec<T>, row: T)
    requires { vec_len rows.old < vec_capacity rows.old }
    ensures items { rows.new.items ≡ with_row_by T.order row rows.old.items }
    ensures len { vec_len rows.new ≤ vec_len rows.old + 1 }
    ensures room { vec_capacity rows.old ≤ vec_capacity rows.new }
{
    match place(rows.as_slice(), &row) {
        Ok(at) => rows[at] = row,
        Err(at) => match rows.insert(at, row) {
            Ok(()) => {}
            Err(_) => unreachable!(),
        },
    }
}

fn has_other_key<T, K: Seeks<T>>(key: &K, row: &T) -> bool
    ensures { result ≡ not (is_eq (K.seeks key.now row.now)) }
{
    !key.compare_to(row).is_eq()
}

/// Drops the row of a key. Where there is none the rows stay. It takes no memory.
pub fn remove<T: Drop, K: Seeks<T>>(rows: &mut Vec<T>, key: &K)
    ensures items { rows.new.items ≡ without (K.seeks key.now) rows.old.items }
    ensures len { vec_len rows.new ≤ vec_len rows.old }
    ensures room { vec_capacity rows.old ≤ vec_capacity rows.new }
{
    rows.retain(|row| has_other_key(key, row));
}

/// The row of a key, or `None` where there is none. It takes no memory.
pub fn find<'a, T, K: Seeks<T>>(rows: &'a [T], key: &K) -> Option<&'a T>
    ensures { option_copied result ≡ found (K.seeks key.now) rows.now }
{
    for row in rows {
        if key.compare_to(row).is_eq() {
            return Some(row);
        }
    }
    None
}
