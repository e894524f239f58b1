ghost use Rattle.std.specs.Prelude.{◌≡◌, ◌≢◌, ◌∷◌, ◌++◌, [], ℕ, List, length, map, All, Some, IfNone};
ghost use Rattle.httparse.specs.Spans.{IsHeaderWithin, header_bytes};
ghost use Rattle.hb_http.specs.BodyHeaders.{SayLength, SayCoding};
ghost use Rattle.hb_http.specs.Framing.{HasLength, IsChunked, IsFramed, is_last, lengths, codings, says_close};
ghost use Rattle.hb_http.specs.Headers.{same_ignoring_case};

use hb_text::read_number;
use httparse::spans::HeaderSpan;

/// How the body of a request comes (RFC 9112, section 6.3).
#[derive(Clone, Copy, Debug, PartialEq, Eq)]
pub enum Framing {
    /// So many bytes.
    Length(u64),
    /// Chunks, by `Transfer-Encoding: chunked`.
    Chunked,
}

/// What the Content-Length headers say.
#[derive(Clone, Copy)]
enum LengthSaid {
    /// There is none.
    Nowhere,
    /// Each says this number.
    Everywhere(u64),
    /// Two say different numbers, or one says no number.
    Unclear,
}

/// What the Transfer-Encoding headers say.
#[derive(Clone, Copy)]
enum CodingSaid {
    /// There is none.
    Nothing,
    /// There is one, and it says `chunked`.
    Chunked,
    /// One says another coding, or there are several.
    Other,
}

/// Whether two texts differ at most in the case of ASCII letters.
fn is_same(a: &[u8], b: &[u8]) -> bool
    ensures { result ≡ same_ignoring_case a.now b.now }
{
    a.eq_ignore_ascii_case(b)
}

/// Whether the header has this name.
pub(crate) fn is_named(bytes: &[u8], header: HeaderSpan, name: &[u8]) -> bool
    requires { IsHeaderWithin (length bytes.now) header }
    ensures { result ≡ same_ignoring_case (header_bytes bytes.now header).0 name.now }
{
    is_same(header.name.of(bytes), name)
}

/// What two lengths say together.
fn both_said(before: u64, length: u64) -> LengthSaid
    ensures same { before ≡ length → result ≡ LengthSaid.Everywhere length }
    ensures other { before ≢ length → result ≡ LengthSaid.Unclear }
{
    if before == length {
        LengthSaid::Everywhere(length)
    } else {
        LengthSaid::Unclear
    }
}

/// What the Content-Length headers say with one value more.
fn with_length(said: LengthSaid, value: &[u8]) -> LengthSaid
    ensures { (values : List (List ℕ)) → SayLength values said → SayLength (values ++ value.now ∷ []) result }
{
    let Some(length) = read_number(value) else {
        return LengthSaid::Unclear;
    };
    match said {
        LengthSaid::Nowhere => LengthSaid::Everywhere(length),
        LengthSaid::Everywhere(before) => both_said(before, length),
        LengthSaid::Unclear => LengthSaid::Unclear,
    }
}

/// What the Transfer-Encoding headers say with one value more.
fn with_coding(said: CodingSaid, value: &[u8]) -> CodingSaid
    ensures { (values : List (List ℕ)) → SayCoding values said → SayCoding (values ++ value.now ∷ []) result }
{
    match said {
        CodingSaid::Nothing => {
            if is_same(value, b"chunked") {
                CodingSaid::Chunked
            } else {
                CodingSaid::Other
            }
        }
        CodingSaid::Chunked => CodingSaid::Other,
        CodingSaid::Other => CodingSaid::Other,
    }
}

fn length_said(bytes: &[u8], headers: &[HeaderSpan]) -> LengthSaid
    requires { All (IsHeaderWithin (length bytes.now)) headers.now }
    ensures { SayLength (lengths (map (header_bytes bytes.now) headers.now)) result }
{
    let mut said = LengthSaid::Nowhere;
    'headers: for (place, header) in headers.iter().enumerate() {
        if is_named(bytes, *header, b"content-length") {
            said = with_length(said, header.value.of(bytes));
        }
    }
    said
}

fn coding_said(bytes: &[u8], headers: &[HeaderSpan]) -> CodingSaid
    requires { All (IsHeaderWithin (length bytes.now)) headers.now }
    ensures { SayCoding (codings (map (header_bytes bytes.now) headers.now)) result }
{
    let mut said = CodingSaid::Nothing;
    'headers: for (place, header) in headers.iter().enumerate() {
        if is_named(bytes, *header, b"transfer-encoding") {
            said = with_coding(said, header.value.of(bytes));
        }
    }
    said
}

/// How the headers say that the body comes. `None` where they don't say it, or say it twice in different
/// ways: by both headers, by two lengths that differ, by a length that is no number, by another coding
/// or by a second one.
pub fn framing_of(bytes: &[u8], headers: &[HeaderSpan]) -> Option<Framing>
    requires { All (IsHeaderWithin (length bytes.now)) headers.now }
    ensures length { (n : ℕ) → result ≡ Some (Framing.Length n) → HasLength (map (header_bytes bytes.now) headers.now) n }
    ensures chunked { result ≡ Some Framing.Chunked → IsChunked (map (header_bytes bytes.now) headers.now) }
    ensures none { IfNone result (¬ (IsFramed (map (header_bytes bytes.now) headers.now))) }
{
    match coding_said(bytes, headers) {
        CodingSaid::Nothing => match length_said(bytes, headers) {
            LengthSaid::Nowhere => Some(Framing::Length(0)),
            LengthSaid::Everywhere(length) => Some(Framing::Length(length)),
            LengthSaid::Unclear => None,
        },
        CodingSaid::Chunked => match length_said(bytes, headers) {
            LengthSaid::Nowhere => Some(Framing::Chunked),
            LengthSaid::Everywhere(_) => None,
            LengthSaid::Unclear => None,
        },
        CodingSaid::Other => None,
    }
}

/// Whether the connection closes behind the answer: at version 1.0, and where a Connection header says
/// `close` (RFC 9112, section 9.6).
pub fn is_last(bytes: &[u8], headers: &[HeaderSpan], minor: u8) -> bool
    requires { All (IsHeaderWithin (length bytes.now)) headers.now }
    ensures { result ≡ is_last minor (map (header_bytes bytes.now) headers.now) }
{
    minor == 0 || asks_to_close(bytes, headers)
}

/// Whether a Connection header says `close`.
fn asks_to_close(bytes: &[u8], headers: &[HeaderSpan]) -> bool
    requires { All (IsHeaderWithin (length bytes.now)) headers.now }
    ensures { result ≡ says_close (map (header_bytes bytes.now) headers.now) }
{
    let mut said = false;
    'headers: for (place, header) in headers.iter().enumerate() {
        if is_named(bytes, *header, b"connection") {
            said = said || is_same(header.value.of(bytes), b"close");
        }
    }
    said
}
