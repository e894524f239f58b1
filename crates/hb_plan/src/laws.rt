//! What the definitions say of one another. Each function does nothing: its contract is the law.

ghost use Rattle.std.specs.Prelude.{◌≡◌, ℕ, List, Some, IsTrue, IfSome};
ghost use Rattle.hb_records.specs.Entries.{AuditEntry};
ghost use Rattle.hb_records.specs.declared.entries.EntryKind.{EntryKind};
ghost use Rattle.hb_records.specs.declared.notes.Notes.{Notes};
ghost use Rattle.hb_rows.specs.Tables.{Tables, project_at};
ghost use Rattle.hb_model.specs.Built.{is_built};
ghost use Rattle.hb_model.specs.Effects.{rows_of};
ghost use Rattle.hb_model.specs.History.{History, Stands};
ghost use Rattle.hb_desk.specs.Calls.{Call};
ghost use Rattle.hb_desk.specs.ProjectVersions.{project_version};
ghost use Rattle.hb_desk.specs.Reply.{reply};
ghost use Rattle.hb_desk.specs.State.{State};
ghost use Rattle.hb_plan.specs.BuiltAudits.{AllBuilt, NoneGone};
ghost use Rattle.hb_plan.specs.RowReplies.{row_reply};

/// Over rows that stand, what the rows answer is what the audit answers, where its entries are of the built
/// kinds and no placement is gone.
pub fn rows_answer_as_the_audit()
    ensures { (rows : Tables) (notes : Notes) (call : Call) (t : ℕ)
        → Stands rows → AllBuilt rows.audit → NoneGone notes
        → reply call (record { audit = rows.audit; notes = notes }) t ≡ row_reply call rows notes }
{}

/// The entry that a reply makes is of a built kind. So audits keep to the built kinds.
pub fn built_entries_stay()
    ensures { (call : Call) (s : State) (t : ℕ) (kind : EntryKind)
        → (reply call s t).entry ≡ Some kind → IsTrue (is_built kind) }
{}

/// In the rows of every legal audit, of whatever kinds, a project's row has the project's version.
pub fn a_row_has_the_version_of_its_project()
    ensures { (j : List AuditEntry) → History j → (p : List ℕ)
        → IfSome (project_at (rows_of j) p) (λ row. row.version ≡ project_version j p) }
{}
