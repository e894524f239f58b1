//! What children and tags name.

ghost use Rattle.std.specs.Prelude.{List};
ghost use Rattle.hb_records.specs.Entries.{AuditEntry};
ghost use Rattle.hb_model.specs.History.{History};
ghost use Rattle.hb_model.specs.Replay.{replay};
ghost use Rattle.hb_history.specs.Artifacts.{ChildrenAreThere, TagsNameArtifacts};

/// What an index lists is there: each child of an artifact is an artifact of the same repository, after every
/// legal audit.
pub fn children_of_indexes_are_there()
    ensures { (j : List AuditEntry) → History j → ChildrenAreThere (replay j) }
{}

/// A tag names an artifact that is there, of its own repository, after every audit, legal or not.
pub fn tags_name_artifacts()
    ensures { (j : List AuditEntry) → TagsNameArtifacts (replay j) }
{}
