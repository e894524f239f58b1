use hb_records::Listed;
use hb_text::{Digest, Text};

/// A value in the detail of an error's body (OCI Distribution Specification 1.1, "Error Codes").
#[derive(Drop)]
pub enum DetailValue {
    Number(u128),
    Digest(Digest),
}

/// One of the values in the detail of an error's body, with its name.
#[derive(Drop)]
pub struct DetailItem {
    pub name: Text,
    pub value: DetailValue,
}

/// The detail of an error's body, in the order in which it is written.
pub type DetailList = Listed<DetailItem>;

/// What a request is answered over HTTP: the status, the error with its detail where it is one, and what the head and
/// the body say.
#[derive(Drop)]
pub struct Answer {
    /// The status code (RFC 9110, section 15).
    pub status: u16,
    /// The error's code (OCI Distribution Specification 1.1, "Error Codes"). A success has none.
    pub code: Option<Text>,
    pub detail: DetailList,
    /// The `Content-Length` of an answer whose bytes aren't in `body`, as of a HEAD, in bytes.
    pub length: Option<u64>,
    /// The `Content-Type`.
    pub media: Option<Text>,
    /// The `Docker-Content-Digest`.
    pub digest: Option<Digest>,
    /// The `Link` to the next page (RFC 8288).
    pub link: Option<Text>,
    pub location: Option<Text>,
    /// The bytes of an upload that arrived, as `0-9`.
    pub range: Option<Text>,
    /// The `Retry-After`, in seconds (RFC 9110, section 10.2.3).
    pub retry: Option<u64>,
    pub body: Option<Text>,
}
