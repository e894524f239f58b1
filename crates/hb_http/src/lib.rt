//! HTTP/1.1 as a registry reads it: heads of requests and the requests that bytes are.
//!
//! - [`Session`]: the bytes of a connection as they come, taken apart into the parts of its requests. No
//!   fault moves it, so each is answered again at every further call, and it is never stuck: where it
//!   asks for input it has room for it.
//! - [`read_head`]: the head at the front of some bytes, within [`MAX_HEAD`] and [`MAX_HEADERS`], and
//!   which refusal stands there in its place. [`framing_of`] says where its body ends, and [`is_last`]
//!   whether the connection closes behind it. None of them takes memory.
//! - [`write_head`]: the text of an answer's head.
//! - [`Place`], [`ChunkPlace`]: where a session stands, and where in a body in chunks. Over lines it goes
//!   on byte by byte, and over data by whole pieces.
//! - [`laws`]: what holds of the definitions. There is one front, one framing and one reading of some
//!   bytes, and a front stays whatever follows, so it doesn't matter in which pieces the bytes came. A
//!   reader of bodies in chunks reads exactly these. The bytes that a session took say which parts it
//!   gave, however they were fed.
//! - `specs/Requests`: the requests that bytes are, up to the first that closes, for every way to say
//!   where a request ends. `specs/Heads`, `specs/Framing`, `specs/Headers`: heads within the limits,
//!   where their bodies end, and whether they ask to close.
//! - `specs/Parts`: what the next part is, where a session stands. `specs/Readings`: what the parts that
//!   were given say of the bytes that were taken. `specs/Standing`: what contracts see of a session.
//! - `specs/Chunks`: bodies in chunks, as a grammar. `specs/ChunkPlaces`: the same, byte by byte.
//! - `specs/AnswerHeads`: the text of an answer's head.
//! - `specs/WholeLines`, `specs/Reaches`, `specs/BodyHeaders`, `specs/Told`, `specs/SessionPlaces`: what the private functions say.
//!
//! The grammar of a head is the one of `httparse` (RFC 9112, sections 2 to 5).
#![tactic(auto)]

mod answers;
mod chunk_places;
#[cfg(test)]
mod chunk_tests;
mod framing;
mod header_lines;
mod heads;
pub mod laws;
mod parts;
mod places;
mod session;
#[cfg(test)]
mod session_tests;
mod start_lines;
#[cfg(test)]
mod tests;
mod told;

pub use answers::{AnswerHead, has_phrase, write_head};
pub use chunk_places::ChunkPlace;
pub use framing::{Framing, framing_of, is_last};
pub use heads::{Front, read_head};
pub use parts::{Head, HttpFault, Part};
pub use places::Place;
pub use session::Session;

/// The most bytes of a head, its first empty lines and its last one among them.
pub const MAX_HEAD: usize = 65_536;

/// The most headers of a head.
pub const MAX_HEADERS: usize = 100;

/// The most bytes of a chunk line with its CR LF, and of the end of a body in chunks: its last line, its
/// trailer lines and its empty line together.
pub const MAX_CHUNK_LINE: usize = 65_536;

/// The most bytes of one piece of a body.
pub const MAX_PIECE: usize = 65_536;

/// The most bytes that a session holds: its body piece and what waits.
pub const ROOM: usize = 131_072;
