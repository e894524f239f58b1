//! The limit of a talk's requests.
ghost use Rattle.std.specs.Prelude.{◌≡◌};
ghost use Rattle.hb_talk.specs.declared.wanted.TheConstants.{MAX_BODY};

/// A body has at most 4,194,304 bytes of data, 4 MiB. A longer one is answered 413 SIZE_INVALID.
pub fn longest_body()
    ensures { MAX_BODY ≡ 4194304 }
{}
