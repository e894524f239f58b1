ghost use Rattle.std.specs.Prelude.{◌≡◌, ◌≢◌, ◌<◌, ◌≤◌, ◌↔◌, ◌+◌, ◌⊎◌, ℕ, List, length, take, fold, IsTrue, true, false};
ghost use Rattle.httparse.specs.Grammar.{RequestHead, ReadsRequest, HasNoRequest, NeverHasRequest, MayBecomeRequest, EndsInTarget};
ghost use Rattle.httparse.specs.Spans.{IsRequestOf, IsRequestWithin, RequestExceeds};
ghost use Rattle.hb_http.specs.Heads.{IsHead, IsHeadAt, AreWithin, HasNoHead, NeverHasHead, HasTooManyHeaders, IsHeadTooLong, window};
ghost use Rattle.hb_http.specs.WholeLines.{after_byte, EndsLine};

use crate::header_lines::end_past_limit;
use crate::start_lines::ends_in_target;
use crate::{MAX_HEAD, MAX_HEADERS};
use httparse::spans::{HeaderSpan, RequestSpans, parse_request};
use httparse::{Error, Status};

/// What stands at the front of some bytes.
#[derive(Clone, Copy, Debug, PartialEq, Eq)]
pub enum Front {
    /// A whole head within the limits, by its spans in the bytes.
    Head(RequestSpans),
    /// No head yet, and bytes that follow may make one.
    More,
    /// No bytes can follow that make a head.
    Malformed,
    /// The line of a header past the limit is whole.
    TooManyHeaders,
    /// As many bytes as a head may have hold no whole one.
    TooLong,
}

/// Whether the error is about the room for headers.
fn is_room(error: Error) -> bool
    ensures { IsTrue result ↔ (error ≡ Error.TooManyHeaders) }
{
    match error {
        Error::TooManyHeaders => true,
        _ => false,
    }
}

/// What bytes are that don't begin with a head, and whose lines up to `end` are whole and one more than
/// a head may have: too many headers, or no head ever.
fn front_past_limit(bytes: &[u8], end: usize, headers: &mut [HeaderSpan]) -> Front
    requires room { length headers.old ≡ MAX_HEADERS }
    requires end { end ≤ length bytes.now }
    requires lines { fold after_byte (false, 0) (take end bytes.now) ≡ (true, MAX_HEADERS + 2) }
    requires ends { EndsLine (take end bytes.now) }
    requires none { (h : RequestHead) (rest : List ℕ) → ReadsRequest bytes.now h rest → ¬ (length h.fields ≤ MAX_HEADERS) }
    ensures one { (result ≡ Front.TooManyHeaders) ⊎ (result ≡ Front.Malformed) }
    ensures many { result ≡ Front.TooManyHeaders → RequestExceeds MAX_HEADERS bytes.now }
    ensures malformed { result ≡ Front.Malformed → NeverHasRequest bytes.now × ¬ (EndsInTarget bytes.now) × ¬ (RequestExceeds MAX_HEADERS bytes.now) }
{
    match parse_request(&bytes[..end], headers) {
        Ok(Status::Complete(_)) => unreachable!(),
        Ok(Status::Partial) => Front::TooManyHeaders,
        Err(error) => if is_room(error) {
            Front::TooManyHeaders
        } else {
            Front::Malformed
        },
    }
}

/// The front of bytes of any number, so it is never `TooLong`.
///
/// Where the line of a header past the limit is whole, the parser may still ask for more, and it may
/// refuse for a byte further on. So whole lines are counted beside it, and what stands up to that line
/// decides. The parser also refuses a target that isn't UTF-8 before the target has ended, though its
/// last bytes may be the first of a longer character: there more is waited for.
fn front_of(bytes: &[u8], headers: &mut [HeaderSpan]) -> Front
    requires { length headers.old ≡ MAX_HEADERS }
    ensures head { (r : _) → result ≡ Front.Head r → IsRequestOf bytes.now headers.new r × IsRequestWithin bytes.now headers.new r × (r.headers ≤ MAX_HEADERS) }
    ensures found { (h : RequestHead) (rest : List ℕ) → ReadsRequest bytes.now h rest → length h.fields ≤ MAX_HEADERS → (r : _) × (result ≡ Front.Head r) }
    ensures more { result ≡ Front.More → HasNoRequest bytes.now × MayBecomeRequest bytes.now × ¬ (RequestExceeds MAX_HEADERS bytes.now) }
    ensures malformed { result ≡ Front.Malformed → NeverHasRequest bytes.now × ¬ (EndsInTarget bytes.now) × ¬ (RequestExceeds MAX_HEADERS bytes.now) }
    ensures many { result ≡ Front.TooManyHeaders → RequestExceeds MAX_HEADERS bytes.now }
    ensures any_length { result ≢ Front.TooLong }
{
    match parse_request(bytes, headers) {
        Ok(Status::Complete(head)) => Front::Head(head),
        Ok(Status::Partial) => match end_past_limit(bytes) {
            Some(end) => front_past_limit(bytes, end, headers),
            None => Front::More,
        },
        Err(error) => match end_past_limit(bytes) {
            Some(end) => front_past_limit(bytes, end, headers),
            None => {
                if is_room(error) {
                    unreachable!()
                }
                if ends_in_target(bytes) {
                    return Front::More;
                }
                Front::Malformed
            }
        },
    }
}

/// What is looked at for a head.
fn window_of(bytes: &[u8]) -> &[u8]
    ensures { result.now ≡ window bytes.now }
{
    &bytes[..bytes.len().min(MAX_HEAD)]
}

/// Reads the head at the front of the bytes, and writes where its headers are to the front of `headers`.
/// What else `headers` holds then means nothing.
///
/// Where several refusals are true of the bytes, the first byte that made one true decides: too many
/// headers stay that whatever byte came behind their last line, and bytes that can never be a head are
/// `Malformed`, however many came behind them. Where one byte makes several true, `Malformed` comes
/// before `TooManyHeaders`, and this before `TooLong`.
pub fn read_head(bytes: &[u8], headers: &mut [HeaderSpan]) -> Front
    requires { length headers.old ≡ MAX_HEADERS }
    ensures head { (r : _) → result ≡ Front.Head r → (h : RequestHead) × IsHeadAt bytes.now headers.new r h }
    ensures within { (r : _) → result ≡ Front.Head r → AreWithin bytes.now headers.new r }
    ensures found { (h : RequestHead) (rest : List ℕ) → IsHead bytes.now h rest → (r : _) × (result ≡ Front.Head r) }
    ensures more { result ≡ Front.More → HasNoHead bytes.now × (length bytes.now < MAX_HEAD) × ¬ (NeverHasHead bytes.now) × ¬ (HasTooManyHeaders bytes.now) }
    ensures malformed { result ≡ Front.Malformed → NeverHasHead bytes.now × ¬ (HasTooManyHeaders bytes.now) }
    ensures many { result ≡ Front.TooManyHeaders → HasTooManyHeaders bytes.now }
    ensures long { result ≡ Front.TooLong → IsHeadTooLong bytes.now × ¬ (NeverHasHead bytes.now) × ¬ (HasTooManyHeaders bytes.now) }
{
    match front_of(window_of(bytes), headers) {
        Front::More => if bytes.len() < MAX_HEAD {
            Front::More
        } else {
            Front::TooLong
        },
        front => front,
    }
}
