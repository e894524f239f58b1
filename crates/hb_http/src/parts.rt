//! The parts of the requests of a connection.

use hb_text::Text;
use std::error::Error;
use std::fmt;

/// What a head says, with its values as they stand there but for the blanks and tabs around them.
#[derive(Debug, PartialEq, Eq, Drop)]
pub struct Head {
    pub method: Text,
    pub target: Text,
    /// The first Content-Type.
    pub content_type: Option<Text>,
    /// The first Content-Range.
    pub content_range: Option<Text>,
    /// How many bytes the body has; `None` where it comes in chunks.
    pub length: Option<u64>,
    /// Whether the connection closes behind the answer.
    pub close: bool,
}

/// The next part of the requests of a connection. Each `Head` is followed by the `Body` pieces of its
/// body, which may be none, and by a `BodyEnd`.
#[derive(Debug, PartialEq, Eq, Drop)]
pub enum Part {
    /// The bytes that have come hold no further part, and more may come.
    NeedInput,
    Head(Head),
    /// A piece of the body's data, which `Session::body` gives.
    Body,
    BodyEnd,
    /// The input has ended behind whole requests.
    InputEnd,
}

/// Why the bytes hold no further part. Each changes nothing but that there is no body piece any more.
#[derive(Clone, Copy, Debug, PartialEq, Eq, Hash)]
pub enum HttpFault {
    /// No bytes can follow that make a request of those that have come.
    Bad,
    /// As many bytes as a head may have hold no whole one.
    HeadTooLong,
    /// The line of a header past the limit is whole.
    TooManyHeaders,
    /// The input has ended inside a request.
    Cut,
    /// Memory was wanting.
    Memory,
}

impl fmt::Display for HttpFault {
    fn fmt<W: fmt::Write>(&self, f: &mut fmt::Formatter<W>) -> fmt::Result {
        match self {
            HttpFault::Bad => write!(f, "no request of HTTP/1.1"),
            HttpFault::HeadTooLong => write!(f, "head too long"),
            HttpFault::TooManyHeaders => write!(f, "too many headers"),
            HttpFault::Cut => write!(f, "input ended inside a request"),
            HttpFault::Memory => write!(f, "out of memory"),
        }
    }
}

impl Error for HttpFault {}
