//! Where a session stands.

use crate::chunk_places::ChunkPlace;

/// Where a session stands in the bytes of a connection.
#[derive(Clone, Copy, Debug, PartialEq, Eq)]
pub enum Place {
    /// Between two requests.
    Between,
    /// In a body by length, of which so many bytes are left.
    Counted { left: u64 },
    /// In a body in chunks.
    Chunked { place: ChunkPlace },
}
