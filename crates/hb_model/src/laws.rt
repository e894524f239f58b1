//! The laws of the definitions that stand here. Each function does nothing: its contract is the law.

ghost use Rattle.std.specs.Prelude.{◌≡◌, ℕ, List, [], ◌∷◌, true, false};
ghost use Rattle.hb_records.specs.Entries.{AuditEntry};
ghost use Rattle.hb_records.specs.declared.batches.Batch.{Batch};
ghost use Rattle.hb_records.specs.declared.entries.EntryKind.{EntryKind};
ghost use Rattle.hb_rows.specs.Tables.{Tables, AreTables, empty_tables};
ghost use Rattle.hb_rows.specs.Batches.{after_changes, after_batch};
ghost use Rattle.hb_model.specs.BlobRows.{BarTells};
ghost use Rattle.hb_model.specs.Changes.{changes, changes_of};
ghost use Rattle.hb_model.specs.Effects.{effect, rows_of};
ghost use Rattle.hb_model.specs.Fit.{FitOrNot, Fits, unbuilt_at};
ghost use Rattle.hb_model.specs.History.{History, Stands};
ghost use Rattle.hb_model.specs.Numbered.{IsNumbered};
ghost use Rattle.hb_model.specs.Registry.{empty_registry};
ghost use Rattle.hb_model.specs.Replay.{replay};
ghost use Rattle.hb_model.specs.Seen.{seen};
ghost use Rattle.hb_model.specs.UsedBound.{UsedIsBounded};
ghost use Rattle.hb_model.specs.Whole.{IsWhole};

/// Before the first entry there are no rows, and clients see nothing.
pub fn nothing_is_there_before_the_first_entry()
    ensures rows { rows_of [] ≡ empty_tables }
    ensures seen { replay [] ≡ empty_registry }
{}

/// What clients see of the rows of an audit is what the audit's replay gives, whether the audit is legal or
/// not. So an answer that is read from rows is an answer about the audit.
pub fn clients_see_the_replay()
    ensures { (j : List AuditEntry) → seen (rows_of j) ≡ replay j }
{}

/// In the rows of every audit the bar of a digest's row is 0 exactly where no collection took the digest
/// since it was last stored.
pub fn a_bar_tells_of_a_taking()
    ensures { (j : List AuditEntry) → BarTells j }
{}

/// The changes that a batch has for an entry make the entry's effect, whatever its kind, on any tables whose
/// keys rise.
pub fn changes_make_the_effect()
    ensures { (t : Tables) (n moment : ℕ) (kind : EntryKind)
        → AreTables t → after_changes t (changes n moment kind t) ≡ effect n moment kind t }
{}

/// The rows of an audit whose entries are numbered from 1 on are tables: their keys rise.
pub fn rows_of_an_audit_are_tables()
    ensures { (j : List AuditEntry) → IsNumbered j → AreTables (rows_of j) }
{}

/// A batch that has the changes of its entry makes, of the rows of an audit, those of the audit with the
/// entry. So the rows need no more than batches to stay the rows of their audit.
pub fn a_batch_makes_the_rows_of_the_longer_audit()
    ensures { (j : List AuditEntry) (b : Batch)
        → IsNumbered (b.entry ∷ j)
        → b.changes ≡ changes_of (rows_of j) b.entry
        → after_batch (rows_of j) b ≡ rows_of (b.entry ∷ j) }
{}

/// The entries of a history are numbered from 1 on, the oldest first.
pub fn histories_are_numbered()
    ensures { (j : List AuditEntry) → History j → IsNumbered j }
{}

/// In every audit, legal or not, what the row of a project says that it uses is at most the sum of the sizes
/// in the audit's entries. So a sum of what is used stays within the bounds of its type where that of the
/// sizes does.
pub fn what_is_used_is_bounded()
    ensures { (j : List AuditEntry) → UsedIsBounded j }
{}

/// What `fit` tells is one of two: None exactly where the rows are what their entries make, in order, of kinds
/// that are built; a first misfit only where they aren't.
pub fn rows_fit_or_not()
    ensures { (t : Tables) → FitOrNot t }
{}

/// The rows of a legal audit fit, if their entries are of kinds that are built.
pub fn rows_that_stand_fit()
    ensures { (t : Tables) → Stands t → unbuilt_at t ≡ None → Fits t }
{}
