//! What projects use, and their limits.

ghost use Rattle.std.specs.Prelude.{◌≡◌, ◌<◌, ◌∷◌, List, ℕ, IsSomeAnd, IsTrue};
ghost use Rattle.hb_records.specs.Entries.{AuditEntry};
ghost use Rattle.hb_rows.specs.Tables.{project_at};
ghost use Rattle.hb_model.specs.Effects.{rows_of};
ghost use Rattle.hb_model.specs.History.{Legal, History};
ghost use Rattle.hb_model.specs.LegalBlobs.{allows};
ghost use Rattle.hb_model.specs.Presence.{usage};
ghost use Rattle.hb_model.specs.Registry.{project_in};
ghost use Rattle.hb_model.specs.Replay.{replay};
ghost use Rattle.hb_model.specs.UsedBound.{used_in};

/// What a project's row says that it uses is what the sizes of its digests add up to, counted afresh.
pub fn what_is_used_is_the_recount()
    ensures { (j : List AuditEntry) → History j → (p : List ℕ)
        → used_in (project_at (rows_of j) p) ≡ usage (replay j) p }
{}

/// An entry by which a project uses more leaves it within the limit that it has.
pub fn additions_stay_within_the_limit()
    ensures { (j : List AuditEntry) (e : AuditEntry) → Legal j e → (p : List ℕ)
        → usage (replay j) p < usage (replay (e ∷ j)) p
        → IsSomeAnd (project_in (replay j) p)
        (λ x. IsTrue (allows x.limit (usage (replay (e ∷ j)) p))) }
{}
