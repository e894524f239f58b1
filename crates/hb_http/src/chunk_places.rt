//! A body in chunks, read byte by byte (RFC 9112, section 7.1).
ghost use Rattle.std.specs.Prelude.{◌≡◌, ◌⊎◌, ◌↔◌, ◌≤◌, ◌<◌, ◌-◌, ◌==◌, [], length, take, Some, None, IsTrue, true, false, if◌then◌else◌};
ghost use Rattle.std.specs.Char.{digit_value, is_ascii_hexdigit};
ghost use Rattle.hb_http.specs.ChunkPlaces.{AreLines, IsPlace, IsStop, after_extension, after_line, after_only, after_size, after_trailer, chunk_step, line_most, place_after};

use crate::MAX_CHUNK_LINE;

/// The most digits of a chunk's size.
const MAX_DIGITS: usize = 16;

/// Where a reader stands in a body in chunks. `used` counts the bytes so far of what has a limit: of a
/// chunk line, and behind the last one of the body's whole end.
#[derive(Clone, Copy, Debug, PartialEq, Eq)]
pub enum ChunkPlace {
    /// In the size of a chunk line, behind so many digits.
    Size { size: u64, digits: usize },
    /// In the extension of a chunk line.
    Extension { size: u64, used: usize },
    /// Behind the CR of a chunk line.
    LineFeed { size: u64, used: usize },
    /// In the data of a chunk, of which so many bytes are left, never none.
    Data { left: u64 },
    /// Behind the data of a chunk.
    DataReturn,
    /// Behind the CR that follows the data.
    DataFeed,
    /// At the start of a trailer line or of the empty line.
    TrailerStart { used: usize },
    /// In a trailer line, behind a byte of it.
    Trailer { used: usize },
    /// Behind the CR of a trailer line.
    TrailerFeed { used: usize },
    /// Behind the CR of the empty line.
    LastFeed,
    /// Behind the body.
    Over,
    /// No bytes can follow that make a body.
    Bad,
}

/// The value of a hexadecimal digit of either case.
fn hex_value(byte: u8) -> Option<u8>
    ensures some { (v : _) → result ≡ Some v → (is_ascii_hexdigit byte ≡ true) × (v ≡ digit_value byte) × (v < 16) }
    ensures none { result ≡ None → is_ascii_hexdigit byte ≡ false }
{
    match byte {
        b'0'..=b'9' => Some(byte - b'0'),
        b'A'..=b'F' => Some(byte - b'A' + 10),
        b'a'..=b'f' => Some(byte - b'a' + 10),
        _ => None,
    }
}

fn line_most(size: u64) -> usize
    ensures { result ≡ line_most size }
{
    if size == 0 {
        MAX_CHUNK_LINE - 2
    } else {
        MAX_CHUNK_LINE
    }
}

fn after_size(size: u64, digits: usize, byte: u8) -> ChunkPlace
    requires { IsPlace (ChunkPlace.Size size digits) }
    ensures value { result ≡ after_size size digits byte }
    ensures place { IsPlace result }
{
    if let Some(value) = hex_value(byte) {
        if digits < MAX_DIGITS {
            return ChunkPlace::Size {
                size: size * 16 + u64::from(value),
                digits: digits + 1,
            };
        }
        return ChunkPlace::Bad;
    }
    match byte {
        b'\r' if digits > 0 => ChunkPlace::LineFeed {
            size,
            used: digits + 1,
        },
        b';' if digits > 0 => ChunkPlace::Extension {
            size,
            used: digits + 1,
        },
        _ => ChunkPlace::Bad,
    }
}

fn after_extension(size: u64, used: usize, byte: u8) -> ChunkPlace
    requires { IsPlace (ChunkPlace.Extension size used) }
    ensures value { result ≡ after_extension size used byte }
    ensures place { IsPlace result }
{
    if byte == b'\r' {
        ChunkPlace::LineFeed {
            size,
            used: used + 1,
        }
    } else if byte == b'\n' {
        ChunkPlace::Bad
    } else if used + 3 <= line_most(size) {
        ChunkPlace::Extension {
            size,
            used: used + 1,
        }
    } else {
        ChunkPlace::Bad
    }
}

fn after_line(size: u64, used: usize) -> ChunkPlace
    requires { used ≤ line_most size }
    ensures value { result ≡ after_line size used }
    ensures place { IsPlace result }
{
    if size == 0 {
        ChunkPlace::TrailerStart { used }
    } else {
        ChunkPlace::Data { left: size }
    }
}

fn after_trailer(at_return: ChunkPlace, used: usize, byte: u8) -> ChunkPlace
    requires place { IsPlace at_return }
    requires few { used ≤ MAX_CHUNK_LINE }
    ensures value { result ≡ after_trailer at_return used byte }
    ensures place { IsPlace result }
{
    if byte == b'\r' {
        at_return
    } else if byte == b'\n' {
        ChunkPlace::Bad
    } else if used + 5 <= MAX_CHUNK_LINE {
        ChunkPlace::Trailer { used: used + 1 }
    } else {
        ChunkPlace::Bad
    }
}

fn after_only(wanted: u8, place: ChunkPlace, byte: u8) -> ChunkPlace
    requires { IsPlace place }
    ensures value { result ≡ after_only wanted place byte }
    ensures place { IsPlace result }
{
    if byte == wanted {
        place
    } else {
        ChunkPlace::Bad
    }
}

/// The place behind `count` bytes of a chunk's data, of which `left` are left.
pub(crate) fn after_data(left: u64, count: u64) -> ChunkPlace
    requires { count ≤ left }
    ensures value { result ≡ (if count == left then ChunkPlace.DataReturn else ChunkPlace.Data (left - count)) }
    ensures place { IsPlace result }
{
    if count == left {
        ChunkPlace::DataReturn
    } else {
        ChunkPlace::Data { left: left - count }
    }
}

/// The place behind one byte more.
fn chunk_step(place: ChunkPlace, byte: u8) -> ChunkPlace
    requires { IsPlace place }
    ensures value { result ≡ chunk_step place byte }
    ensures place { IsPlace result }
{
    match place {
        ChunkPlace::Size { size, digits } => after_size(size, digits, byte),
        ChunkPlace::Extension { size, used } => after_extension(size, used, byte),
        ChunkPlace::LineFeed { size, used } => {
            after_only(b'\n', after_line(size, used + 1), byte)
        }
        ChunkPlace::Data { left } => after_data(left, 1),
        ChunkPlace::DataReturn => after_only(b'\r', ChunkPlace::DataFeed, byte),
        ChunkPlace::DataFeed => after_only(b'\n', ChunkPlace::Size { size: 0, digits: 0 }, byte),
        ChunkPlace::TrailerStart { used } => after_trailer(ChunkPlace::LastFeed, used, byte),
        ChunkPlace::Trailer { used } => {
            after_trailer(ChunkPlace::TrailerFeed { used: used + 1 }, used, byte)
        }
        ChunkPlace::TrailerFeed { used } => {
            after_only(b'\n', ChunkPlace::TrailerStart { used: used + 1 }, byte)
        }
        ChunkPlace::LastFeed => after_only(b'\n', ChunkPlace::Over, byte),
        ChunkPlace::Over | ChunkPlace::Bad => ChunkPlace::Bad,
    }
}

/// Whether lines are not read on from here: data follows, or nothing.
fn is_stop(place: ChunkPlace) -> bool
    ensures { IsTrue result ↔ IsStop place }
{
    matches!(
        place,
        ChunkPlace::Data { .. } | ChunkPlace::Over | ChunkPlace::Bad
    )
}

/// Reads lines on, up to the data of a chunk or to where the body is over or can't be one: how many
/// bytes that takes, and the place behind them.
pub(crate) fn read_lines(place: ChunkPlace, bytes: &[u8]) -> (usize, ChunkPlace)
    requires { IsPlace place }
    ensures within { result.0 ≤ length bytes.now }
    ensures value { result.1 ≡ place_after place (take result.0 bytes.now) }
    ensures lines { AreLines place (take result.0 bytes.now) }
    ensures stops { IsStop result.1 ⊎ (result.0 ≡ length bytes.now) }
    ensures place { IsPlace result.1 }
{
    let mut now = place;
    'bytes: for (count, byte) in bytes.iter().enumerate() {
        if is_stop(now) {
            return (count, now);
        }
        now = chunk_step(now, *byte);
    }
    (bytes.len(), now)
}
