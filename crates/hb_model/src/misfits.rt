use hb_records::Table;
use std::fmt;

/// Where rows aren't those of their audit: the first table that differs, and the first place in it, counted
/// from 1. Where a table ends too early, the place is the one behind its last row. It is printed as the table's
/// name, a blank, and the place in decimal digits, as `project 1`.
#[derive(Clone, Copy, Debug, PartialEq, Eq)]
pub struct Misfit {
    pub table: Table,
    pub place: u64,
}

// The name of a table in print.
fn word(table: Table) -> &'static str {
    match table {
        Table::Project => "project",
        Table::Blob => "blob",
        Table::Pair => "pair",
        Table::Artifact => "artifact",
        Table::Tag => "tag",
        Table::Upload => "upload",
        Table::Job => "job",
        Table::Candidate => "candidate",
        Table::Snap => "snap",
        Table::Entry => "entry",
    }
}

impl fmt::Display for Misfit {
    fn fmt<W: fmt::Write>(&self, f: &mut fmt::Formatter<W>) -> fmt::Result {
        write!(f, "{} {}", word(self.table), self.place)
    }
}
