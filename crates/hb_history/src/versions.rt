//! The versions of rows.

ghost use Rattle.hb_history.specs.Versions.{VersionsNeverComeBack};

/// As an audit goes on, a row that is found with the version that it had is the row as it was: no change, and
/// no row that was dropped and made anew, brings a version back.
pub fn versions_never_come_back()
    ensures { VersionsNeverComeBack }
{}
