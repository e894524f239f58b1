//! Tables of numbers and of named rows, and lists, with ample memory.

use crate::{
    Duplicate, Listed, Memory, Ordered, Seeks, changes_are_found, find, keys_still_rise,
    lookups_tell_the_table, place, places_tell_where_rows_go, put, remove,
};
use std::alloc::Global;
use std::cmp::Ordering;
use std::test::Fail;

// a number is its own key
impl Ordered for u64 {
    ghost use Rattle.std.specs.Ordering.{nat_cmp};

    ghost order = { nat_cmp };

    fn compare(&self, other: &u64) -> Ordering {
        self.cmp(other)
    }
}

impl Seeks<u64> for u64 {
    ghost use Rattle.std.specs.Ordering.{nat_cmp};

    ghost seeks = { nat_cmp };

    fn compare_to(&self, row: &u64) -> Ordering {
        self.cmp(row)
    }
}

impl Duplicate for u64 {
    fn copy(&self, _alloc: Global) -> Result<u64, Memory> {
        Ok(*self)
    }
}

// a size by a text
#[derive(Debug, PartialEq, Eq, Drop)]
struct Named {
    name: String,
    size: u64,
}

impl Ordered for Named {
    ghost use Rattle.std.specs.Prelude.{string_bytes};
    ghost use Rattle.std.specs.Ordering.{nat_cmp};
    ghost use Rattle.std.specs.Cmp.Lexicographic.{slice_cmp};

    ghost order = { λ a b. slice_cmp nat_cmp (string_bytes a.name) (string_bytes b.name) };

    fn compare(&self, other: &Named) -> Ordering {
        self.name.as_bytes().cmp(other.name.as_bytes())
    }
}

impl Seeks<Named> for String {
    ghost use Rattle.std.specs.Prelude.{string_bytes};
    ghost use Rattle.std.specs.Ordering.{nat_cmp};
    ghost use Rattle.std.specs.Cmp.Lexicographic.{slice_cmp};

    ghost seeks = { λ name row. slice_cmp nat_cmp (string_bytes name) (string_bytes row.name) };

    fn compare_to(&self, row: &Named) -> Ordering {
        self.as_bytes().cmp(row.name.as_bytes())
    }
}

#[test]
fn numbers_by_themselves(rt: HostRuntime) -> Result<(), Fail> {
    let mut rows: Vec<u64> = Vec::new(rt.alloc());
    for number in [5, 1, 3, 3, 9] {
        rows.reserve(1)?;
        put(&mut rows, number);
    }
    assert_eq!(rt; rows.as_slice(), [1, 3, 5, 9].as_slice());
    for (number, at) in [
        (0, Err(0)),
        (1, Ok(0)),
        (4, Err(2)),
        (9, Ok(3)),
        (10, Err(4)),
    ] {
        assert_eq!(rt; place(rows.as_slice(), &number), at, "{number}");
        assert_eq!(rt;
            find(rows.as_slice(), &number).copied(),
            at.ok().map(|_| number),
            "{number}"
        );
    }
    remove(&mut rows, &3);
    remove(&mut rows, &4);
    assert_eq!(rt; rows.as_slice(), [1, 5, 9].as_slice());
    Ok(())
}

#[test]
fn rows_by_text(rt: HostRuntime) -> Result<(), Fail> {
    let alloc = rt.alloc();
    let mut rows: Vec<Named> = Vec::new(alloc);
    for (name, size) in [("b", 1), ("a", 2), ("aa", 3), ("b", 4), ("Z", 5)] {
        rows.reserve(1)?;
        let name = String::from_str(alloc, name)?;
        put(&mut rows, Named { name, size });
    }
    for (name, size) in [("Z", Some(5)), ("a", Some(2)), ("b", Some(4)), ("ab", None)] {
        let name = String::from_str(alloc, name)?;
        assert_eq!(rt; find(rows.as_slice(), &name).map(|row| row.size), size);
    }
    remove(&mut rows, &String::from_str(alloc, "a")?);
    let sizes: Vec<u64> = rows.iter().map(|row| row.size).collect(alloc)?;
    assert_eq!(rt; sizes.as_slice(), [5, 3, 4].as_slice());
    Ok(())
}

#[test]
fn lists(rt: HostRuntime) -> Result<(), Fail> {
    let alloc = rt.alloc();
    let mut list = Listed::new(alloc);
    assert!(rt; list.is_empty());
    for number in [7, 7, 2] {
        list.push(number)?;
    }
    assert_eq!(rt; list.len(), 3);
    assert_eq!(rt; list.as_slice(), [7, 7, 2].as_slice());
    let copied = list.copy(alloc)?;
    assert_eq!(rt; Listed::of(copied.into_vec()).as_slice(), list.as_slice());
    Ok(())
}

#[test]
fn laws_and_faults(rt: HostRuntime) -> Result<(), Fail> {
    changes_are_found::<u64, u64>();
    keys_still_rise::<u64, u64>();
    lookups_tell_the_table::<u64, u64>();
    places_tell_where_rows_go::<u64>();
    assert_eq!(rt;
        format!(in rt.alloc(); "{Memory}")?.as_str(),
        "out of memory"
    );
    Ok(())
}
