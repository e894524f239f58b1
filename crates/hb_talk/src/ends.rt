/// How a talk over one connection ended.
#[derive(Clone, Copy, Debug, PartialEq, Eq)]
pub enum TalkEnd {
    /// The input ended between requests, or a request closed the connection.
    Closed,
    /// The input ended inside a request.
    Cut,
    /// The bytes are malformed or above the limits of a head.
    Bad,
    /// As many bytes as a connection may send have come.
    Long,
    /// The source failed.
    ReadFault,
    /// The sink failed.
    WriteFault,
    /// Memory was wanting.
    Memory,
}

/// How one turn of a talk went.
#[derive(Clone, Copy, Debug, PartialEq, Eq)]
pub(crate) enum Turned {
    /// The talk goes on.
    More,
    /// It has ended.
    Ended(TalkEnd),
}
