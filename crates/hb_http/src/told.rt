//! What the head of a request says, in texts of its own.
ghost use Rattle.std.specs.Prelude.{◌≡◌, ◌≢◌, ◌≤◌, ℕ, List, length, drop, map, Some, None, Ok, Err, All, IfOk};
ghost use Rattle.httparse.specs.Grammar.{RequestHead};
ghost use Rattle.httparse.specs.Spans.{IsHeaderWithin, IsWithin, header_bytes, span_bytes};
ghost use Rattle.hb_http.specs.Framing.{is_last};
ghost use Rattle.hb_http.specs.Headers.{values_of};
ghost use Rattle.hb_http.specs.Heads.{AreWithin, HasTooManyHeaders, IsHead, IsHeadTooLong, NeverHasHead};
ghost use Rattle.hb_http.specs.Parts.{HoldsNoPart, IsBad, first_of};
ghost use Rattle.hb_http.specs.declared.places.Place.{Place};
ghost use Rattle.hb_http.specs.Told.{IsToldAt, IsToldBy};

use crate::MAX_HEADERS;
use crate::framing::{Framing, framing_of, is_last, is_named};
use crate::heads::{Front, read_head};
use crate::parts::{Head, HttpFault};
use hb_text::{Memory, Text};
use httparse::spans::{EMPTY_HEADER_SPAN, HeaderSpan, RequestSpans};
use std::alloc::Global;

/// The value of the first header of a name.
fn first_value(
    alloc: Global,
    bytes: &[u8],
    headers: &[HeaderSpan],
    name: &[u8],
) -> Result<Option<Text>, Memory>
    requires { All (IsHeaderWithin (length bytes.now)) headers.now }
    ensures { IfOk result (λ value. value ≡ first_of (values_of name.now (map (header_bytes bytes.now) headers.now))) }
{
    'headers: for (place, header) in headers.iter().enumerate() {
        if is_named(bytes, *header, name) {
            return Ok(Some(Text::new(alloc, header.value.of(bytes))?));
        }
    }
    Ok(None)
}

/// How many bytes a body has, where it doesn't come in chunks.
fn length_of(framing: Framing) -> Option<u64>
    ensures length { (n : ℕ) → framing ≡ Framing.Length n → result ≡ Some n }
    ensures chunked { framing ≡ Framing.Chunked → result ≡ None }
{
    match framing {
        Framing::Length(length) => Some(length),
        Framing::Chunked => None,
    }
}

/// What a head says, by its spans in the bytes.
fn told_of(
    alloc: Global,
    bytes: &[u8],
    head: RequestSpans,
    headers: &[HeaderSpan],
    framing: Framing,
) -> Result<Head, Memory>
    requires method { IsWithin (length bytes.now) head.method }
    requires path { IsWithin (length bytes.now) head.path }
    requires headers { All (IsHeaderWithin (length bytes.now)) headers.now }
    ensures { IfOk result (IsToldBy bytes.now head (map (header_bytes bytes.now) headers.now) framing) }
{
    Ok(Head {
        method: Text::new(alloc, head.method.of(bytes))?,
        target: Text::new(alloc, head.path.of(bytes))?,
        content_type: first_value(alloc, bytes, headers, b"content-type")?,
        content_range: first_value(alloc, bytes, headers, b"content-range")?,
        length: length_of(framing),
        close: is_last(bytes, headers, head.version),
    })
}

/// The head at the front of the bytes and how long it is, or `None` where more bytes may make one.
pub(crate) fn read_told(alloc: Global, bytes: &[u8]) -> Result<Option<(Head, usize)>, HttpFault>
    ensures head { (told : _) (len : ℕ) → result ≡ Ok (Some (told, len)) → IsToldAt bytes.now told len }
    ensures more { result ≡ Ok None → HoldsNoPart Place.Between bytes.now }
    ensures bad { result ≡ Err HttpFault.Bad → IsBad Place.Between bytes.now }
    ensures many { result ≡ Err HttpFault.TooManyHeaders → HasTooManyHeaders bytes.now }
    ensures long { result ≡ Err HttpFault.HeadTooLong → IsHeadTooLong bytes.now × ¬ (NeverHasHead bytes.now) × ¬ (HasTooManyHeaders bytes.now) }
    ensures not_cut { result ≢ Err HttpFault.Cut }
{
    let mut spans = [EMPTY_HEADER_SPAN; MAX_HEADERS];
    match read_head(bytes, &mut spans) {
        Front::Head(head) => {
            let headers = &spans[..head.headers];
            match framing_of(bytes, headers) {
                Some(framing) => match told_of(alloc, bytes, head, headers, framing) {
                    Ok(told) => Ok(Some((told, head.len))),
                    Err(Memory) => Err(HttpFault::Memory),
                },
                None => Err(HttpFault::Bad),
            }
        }
        Front::More => Ok(None),
        Front::Malformed => Err(HttpFault::Bad),
        Front::TooManyHeaders => Err(HttpFault::TooManyHeaders),
        Front::TooLong => Err(HttpFault::HeadTooLong),
    }
}
