//! Entries that touch no content: most of what a registry does. They leave it whole, whatever the store
//! holds, so that who makes such an entry has nothing to show about bytes, removals and marks.

ghost use Rattle.std.specs.Prelude.{ℕ, IsTrue};
ghost use Rattle.hb_records.specs.Entries.{AuditEntry};
ghost use Rattle.hb_records.specs.declared.notes.Notes.{Notes};
ghost use Rattle.hb_rows.specs.Tables.{Tables};
ghost use Rattle.hb_store.specs.Contents.{Contents};
ghost use Rattle.hb_model.specs.Effects.{after_entry};
ghost use Rattle.hb_model.specs.History.{Legal};
ghost use Rattle.hb_model.specs.Quiet.{is_quiet, SameContentNotes};
ghost use Rattle.hb_model.specs.Whole.{IsWhole, no_notes};

/// A legal entry of a quiet kind keeps the registry whole at its own moment, with the same content in the
/// store and in the notes. Which stages are out and which jobs are claimed may change at will.
pub fn quiet_entries_keep_the_registry_whole()
    ensures { (rows : Tables) (n m : Notes) (c : Contents) (t : ℕ) (e : AuditEntry)
        → IsWhole rows n c t
        → Legal rows.audit e
        → IsTrue (is_quiet e.kind)
        → SameContentNotes n m
        → IsWhole (after_entry rows e) m c e.moment }
{}

/// A registry that is whole is so without its notes, which is what a stop leaves of it where the store is
/// untouched.
pub fn whole_without_notes()
    ensures { (rows : Tables) (n : Notes) (c : Contents) (t : ℕ)
        → IsWhole rows n c t → IsWhole rows no_notes c t }
{}
