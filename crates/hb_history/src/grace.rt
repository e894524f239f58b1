//! The window of grace.

ghost use Rattle.std.specs.Prelude.{List, ℕ, ◌+◌, ◌≤◌, Contains, IsTrue};
ghost use Rattle.hb_text.specs.declared.digests.Digest.{Digest};
ghost use Rattle.hb_records.specs.Entries.{AuditEntry};
ghost use Rattle.hb_model.specs.LegalBlobs.{LegalUnassociated};
ghost use Rattle.hb_model.specs.Moves.{names};
ghost use Rattle.hb_model.specs.Words.{WINDOW};

/// What an entry names in a project stays there for the window: where a pair may go, the window since each
/// entry that names it is over.
pub fn what_is_named_has_its_grace()
    ensures { (j : List AuditEntry) (e : AuditEntry) (t job : ℕ) (p : List ℕ) (d : Digest)
        → Contains j e → IsTrue (names p d e.kind) → LegalUnassociated j t job p d
        → e.moment + WINDOW ≤ t }
{}
