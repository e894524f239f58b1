use hb_text::{Digest, Name, ProjectName, Reference, Tag};

/// The most tags that one list has.
pub const MOST_TAGS: u32 = 1_000;

/// A control value of a query.
#[derive(Clone, Copy, Debug, PartialEq, Eq, Drop)]
pub enum Given<T> {
    /// The query doesn't have it.
    Absent,
    /// The query has it, outside its grammar.
    Invalid,
    /// The query has this value.
    Value(T),
}

/// The job that a request wants queued.
#[derive(Debug, PartialEq, Eq, Drop)]
pub enum WantedJob {
    /// To collect blobs that nothing needs, and artifacts without a tag too where `untagged` says so.
    Collect { untagged: bool },
    /// To apply a project's rules of retention.
    Retain { project: Given<ProjectName> },
}

/// What a request asks for. Requests under `/v2/` are those of the OCI Distribution Specification 1.1
/// ("Endpoints"); those under `/harbor/` control the registry.
///
/// The number of an upload or of a job is `None` where its text in the path is no number: then it names none.
#[derive(Debug, PartialEq, Eq, Drop)]
pub enum Route {
    /// `GET /v2/`: whether this is a registry.
    Base,
    /// `GET /v2/NAME/blobs/DIGEST`
    GetBlob {
        name: Name,
        digest: Digest,
    },
    /// `HEAD /v2/NAME/blobs/DIGEST`
    HeadBlob {
        name: Name,
        digest: Digest,
    },
    /// `POST /v2/NAME/blobs/uploads/`
    BeginUpload {
        name: Name,
    },
    /// `POST /v2/NAME/blobs/uploads/?digest=DIGEST`: the body is the whole blob.
    PushBlob {
        name: Name,
        digest: Digest,
    },
    /// `POST /v2/NAME/blobs/uploads/?mount=DIGEST&from=NAME`. The giver is `None` where `from` is absent
    /// or no name.
    MountBlob {
        name: Name,
        digest: Digest,
        giver: Option<Name>,
    },
    /// `PATCH /v2/NAME/blobs/uploads/ID`
    GrowUpload {
        name: Name,
        upload: Option<u64>,
    },
    /// `PUT /v2/NAME/blobs/uploads/ID?digest=DIGEST`
    FinishUpload {
        name: Name,
        upload: Option<u64>,
        digest: Digest,
    },
    /// `GET /v2/NAME/blobs/uploads/ID`
    ShowUpload {
        name: Name,
        upload: Option<u64>,
    },
    /// `PUT /v2/NAME/manifests/REFERENCE`
    PutManifest {
        name: Name,
        reference: Reference,
    },
    /// `GET /v2/NAME/manifests/REFERENCE`
    GetManifest {
        name: Name,
        reference: Reference,
    },
    /// `HEAD /v2/NAME/manifests/REFERENCE`
    HeadManifest {
        name: Name,
        reference: Reference,
    },
    /// `DELETE /v2/NAME/manifests/REFERENCE`
    DeleteManifest {
        name: Name,
        reference: Reference,
    },
    /// `GET /v2/NAME/tags/list?n=N&last=TAG`: the tags above `last`, at most `most` of them. A `last` that
    /// is no tag counts as absent. `most` is `n` where that is a number below [`MOST_TAGS`], and else
    /// [`MOST_TAGS`].
    ListTags {
        name: Name,
        last: Option<Tag>,
        most: u32,
    },
    /// `PUT /harbor/projects/NAME?limit=N&version=V`. The limit is -1, for none, or a number of bytes of
    /// at most 2^63 - 1.
    PutProject {
        name: ProjectName,
        limit: Given<i64>,
        version: Given<u64>,
    },
    /// `GET /harbor/projects/NAME`
    ShowProject {
        name: ProjectName,
    },
    /// `PUT /harbor/projects/NAME/rules`: the body has the rules.
    PutRules {
        name: ProjectName,
    },
    /// `POST /harbor/jobs?kind=collect&untagged=true` or `POST /harbor/jobs?kind=retain&project=NAME`.
    /// Another kind is `Given::Invalid`.
    QueueJob {
        kind: Given<WantedJob>,
    },
    /// `GET /harbor/jobs/N`
    ShowJob {
        job: Option<u64>,
    },
}
