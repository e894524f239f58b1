//! What is promised of the stored bytes.

ghost use Rattle.std.specs.Prelude.{List, ℕ, ◌≡◌, Some};
ghost use Rattle.hb_text.specs.declared.digests.Digest.{Digest};
ghost use Rattle.hb_records.specs.Entries.{AuditEntry};
ghost use Rattle.hb_store.specs.Contents.{Contents};
ghost use Rattle.hb_records.specs.declared.notes.Notes.{Notes};
ghost use Rattle.hb_rows.specs.Tables.{Tables};
ghost use Rattle.hb_model.specs.Effects.{after_entry};
ghost use Rattle.hb_model.specs.History.{History, Legal};
ghost use Rattle.hb_model.specs.Registry.{ArtifactItem, PairItem, artifact_in, pair_in};
ghost use Rattle.hb_model.specs.Replay.{replay, size_of};
ghost use Rattle.hb_model.specs.Sound.{HasLength, IsSound, OneLength};
ghost use Rattle.hb_model.specs.Whole.{IsKept, IsWhole};
ghost use Rattle.hb_history.specs.Naming.{Names, FewerPlacements};

/// What a project has counts with the size that is stored.
pub fn sizes_of_pairs_are_those_stored()
    ensures { (j : List AuditEntry) → History j → (p : List ℕ) (d : Digest) (x : PairItem)
        → pair_in (replay j) p d ≡ Some x → size_of j d ≡ Some x.size }
{}

/// An artifact counts with the size that is stored under its digest.
pub fn sizes_of_artifacts_are_those_stored()
    ensures { (j : List AuditEntry) → History j → (name : List ℕ) (d : Digest) (x : ArtifactItem)
        → artifact_in (replay j) name d ≡ Some x → size_of j d ≡ Some x.size }
{}

/// What every event keeps makes the promise: clients see a registry whose content is held.
pub fn whole_registries_are_sound()
    ensures { (rows : Tables) (n : Notes) (c : Contents) (t : ℕ) → IsWhole rows n c t
        → IsSound (replay rows.audit) c }
{}

/// An entry by which a project gets content that the store holds, or touches it, keeps rows, notes and store fitting
/// one another: the content is held with bytes of its digest, no removal of it may still take effect, and it has
/// this size, which is that of an entry that has one. Of the notes some placements may end with it.
pub fn content_that_is_held_may_be_named()
    ensures { (rows : Tables) (n m : Notes) (c : Contents) (t : ℕ) (e : AuditEntry) (d : Digest) (size : ℕ)
        → IsWhole rows n c t → Legal rows.audit e → Names e.kind d size
        → IsKept c d → (OneLength c → HasLength c d size) → FewerPlacements n m
        → IsWhole (after_entry rows e) m c e.moment }
{}
