use hb_records::PutAsk;
use hb_text::{Digest, Name, ProjectName, Reference};

/// What a caller asks of a desk beside its stages and readers. Each ask is one event, and makes at most one
/// entry of the audit.
#[derive(Drop)]
pub enum Ask {
    /// A project, with what it uses.
    ShowProject {
        name: ProjectName,
    },
    /// A blob, with its size. The project has it, and it is touched: no collection takes it until the window since then
    /// is over.
    TouchBlob {
        name: Name,
        digest: Digest,
    },
    /// An upload begins.
    BeginUpload {
        name: Name,
    },
    /// An upload goes. `job` is 0, since a client asks.
    EndUpload {
        job: u64,
        upload: u64,
    },
    /// An upload whose bytes have this digest ends, to be placed as content of so many bytes.
    Seal {
        upload: u64,
        digest: Digest,
        size: u64,
    },
    /// The same of a manifest, whose parts must be there.
    SealManifest {
        upload: u64,
        put: PutAsk,
    },
    /// The name's project gets the content that the upload placed.
    Settle {
        name: Name,
        upload: u64,
        digest: Digest,
    },
    /// The manifest that the upload placed is put, with its tag where it gets one.
    PutArtifact {
        upload: u64,
        put: PutAsk,
    },
    /// What a reference names. It isn't pulled.
    Look {
        name: Name,
        reference: Reference,
    },
    /// An artifact was pulled.
    NotePull {
        name: Name,
        digest: Digest,
    },
}
