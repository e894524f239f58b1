//! What is present.

ghost use Rattle.std.specs.Prelude.{◌≡◌, List, ℕ, IsSome, IsSomeAnd, IsTrue};
ghost use Rattle.hb_text.specs.declared.digests.Digest.{Digest};
ghost use Rattle.hb_records.specs.Entries.{AuditEntry};
ghost use Rattle.hb_records.specs.declared.records.Status.TheVariants.{Idle};
ghost use Rattle.hb_rows.specs.Tables.{blob_at};
ghost use Rattle.hb_model.specs.Effects.{rows_of};
ghost use Rattle.hb_model.specs.History.{Legal, History};
ghost use Rattle.hb_model.specs.Moves.{touches};
ghost use Rattle.hb_model.specs.Presence.{present};
ghost use Rattle.hb_model.specs.Registry.{pair_in};
ghost use Rattle.hb_model.specs.Replay.{replay};
ghost use Rattle.hb_history.specs.PresentRows.{is_here};

/// A digest is present exactly where its row is idle, or marked to be deleted and not taken.
pub fn the_row_tells_what_is_present()
    ensures { (j : List AuditEntry) → History j → (d : Digest)
        → present j d ≡ is_here (blob_at (rows_of j) d) }
{}

/// What a project has is present: it is stored, and no collection took it since it was last stored.
pub fn what_a_project_has_is_present()
    ensures { (j : List AuditEntry) → History j → (p : List ℕ) (d : Digest)
        → IsSome (pair_in (replay j) p d) → IsTrue (present j d) }
{}

/// The row of what a project has is idle: no mark stands on it, and no removal is under way.
pub fn what_a_project_has_is_idle()
    ensures { (j : List AuditEntry) → History j → (p : List ℕ) (d : Digest)
        → IsSome (pair_in (replay j) p d)
        → IsSomeAnd (blob_at (rows_of j) d) (λ row. row.status ≡ Idle) }
{}

/// A touch meets an idle row, and never one that is marked or being removed: what an entry touches, a project
/// has.
pub fn a_touch_meets_an_idle_row()
    ensures { (j : List AuditEntry) (e : AuditEntry) → History j → Legal j e → (d : Digest)
        → IsTrue (touches d e.kind)
        → IsSomeAnd (blob_at (rows_of j) d) (λ row. row.status ≡ Idle) }
{}
