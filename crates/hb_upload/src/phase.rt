use hb_desk::Refusal;
use hb_text::{Digest, Name, Text};

// What a push was given: the repository, the digest that was announced, the bytes, and the digest that they have.
#[derive(Drop)]
pub(crate) struct Given {
    pub(crate) name: Name,
    pub(crate) digest: Digest,
    pub(crate) found: Digest,
    pub(crate) bytes: Text,
}

/// How a push ends.
#[derive(Drop)]
pub enum Stop {
    /// The project has the blob.
    Pushed,
    /// The bytes have this digest, and not the one that was announced.
    WrongDigest { found: Digest },
    /// An event of it was refused, or a call on its stage. The moment, in seconds since 1970-01-01T00:00:00Z, is that
    /// of the event, or of the one that gave the stage.
    Refused { refusal: Refusal, moment: u64 },
}

// Where a push is, with its stage where it holds one.
#[derive(Drop)]
pub(crate) enum Phase<T> {
    Begin,
    Stage {
        upload: u64,
    },
    Seal {
        upload: u64,
        stage: T,
    },
    Place {
        upload: u64,
        stage: T,
    },
    Settle {
        upload: u64,
    },
    // The upload ends, and then its stage is dropped, where it has one.
    End {
        upload: u64,
        stage: Option<T>,
        stop: Stop,
    },
    Drop {
        upload: u64,
        stage: T,
        stop: Stop,
    },
    Ended {
        stop: Stop,
    },
}

impl<T> Phase<T> {
    ghost use Rattle.std.specs.Prelude.{◌≡◌};
    ghost use Rattle.hb_upload.specs.Phases.{is_ended};

    pub(crate) fn is_ended(&self) -> bool
        ensures { result ≡ is_ended self.now }
    {
        matches!(self, Phase::Ended { .. })
    }
}
