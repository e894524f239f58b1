ghost use Rattle.std.specs.Prelude.{◌≡◌};

use crate::laws::{Reading, front_stays, limits, no_request, one_framing, one_front, one_reading};
use crate::{
    AnswerHead, Framing, Front, MAX_HEAD, MAX_HEADERS, framing_of, has_phrase, is_last, read_head,
    write_head,
};
use hb_text::{Digest, Memory, Text};
use httparse::spans::EMPTY_HEADER_SPAN;
use std::alloc::{AllocError, Global};
use std::test::Fail;

fn front(bytes: &[u8]) -> Front {
    let mut headers = [EMPTY_HEADER_SPAN; MAX_HEADERS];
    read_head(bytes, &mut headers)
}

/// How long the head at the front is.
fn head_len(bytes: &[u8]) -> Option<usize> {
    match front(bytes) {
        Front::Head(head) => Some(head.len),
        _ => None,
    }
}

/// How the body of a whole head comes. The error is what stands there in its place.
fn framing(bytes: &[u8]) -> Result<Option<Framing>, Front> {
    let mut headers = [EMPTY_HEADER_SPAN; MAX_HEADERS];
    match read_head(bytes, &mut headers) {
        Front::Head(head) => Ok(framing_of(bytes, &headers[..head.headers])),
        other => Err(other),
    }
}

/// Whether the request of a whole head is the last.
fn last(bytes: &[u8]) -> Result<bool, Front> {
    let mut headers = [EMPTY_HEADER_SPAN; MAX_HEADERS];
    match read_head(bytes, &mut headers) {
        Front::Head(head) => Ok(is_last(bytes, &headers[..head.headers], head.version)),
        other => Err(other),
    }
}

/// A start line, so many header lines, and an end.
fn with_headers(alloc: Global, count: usize, end: &[u8]) -> Result<Vec<u8>, AllocError> {
    let mut bytes = Vec::from_slice(alloc, b"GET / HTTP/1.1\r\n")?;
    for _ in 0..count {
        bytes.extend_from_slice(b"A: b\r\n")?;
    }
    bytes.extend_from_slice(end)?;
    Ok(bytes)
}

/// A head of this length, which is 19 at least.
fn of_length(alloc: Global, length: usize) -> Result<Vec<u8>, AllocError> {
    let mut bytes = Vec::from_slice(alloc, b"GET / HTTP/1.1\nA:")?;
    for _ in 19..length {
        bytes.push(b'a')?;
    }
    bytes.extend_from_slice(b"\n\n")?;
    Ok(bytes)
}

#[test]
fn whole_heads(rt: HostRuntime) {
    let rows: [(&[u8], usize); 5] = [
        (b"GET /v2/ HTTP/1.1\r\nHost: a\r\n\r\n", 30),
        (b"GET /v2/ HTTP/1.1\nHost: a\n\nmore", 27),
        (b"\r\n\nGET / HTTP/1.0\r\n\r\n", 21),
        (b"HEAD * HTTP/1.1\r\n\r\n", 19),
        (b"GET /\xc3\xa9 HTTP/1.1\r\nA:\r\n\r\n", 24),
    ];
    for (bytes, len) in rows {
        assert_eq!(rt; head_len(bytes), Some(len), "a head of {len}");
    }
}

#[test]
fn cut_heads(rt: HostRuntime) {
    let bytes = b"\r\nPUT /v2/\xc3\xa9/blobs HTTP/1.1\r\nHost: a\nContent-Length: 3\r\n\r\n";
    for cut in 0..bytes.len() {
        assert_eq!(rt; front(&bytes[..cut]), Front::More, "cut at {cut}");
    }
    assert_eq!(rt; head_len(bytes), Some(bytes.len()));
}

#[test]
fn malformed_heads(rt: HostRuntime) {
    let rows: [&[u8]; 9] = [
        b"\0",
        b" GET",
        b"GE\x01",
        b"GET /\x7f",
        b"GET / HTTP/2",
        b"GET /\xff HTTP/1.1\r\n",
        b"GET / HTTP/1.1\r\nA : b\r\n",
        b"GET / HTTP/1.1\r\nA: b\r\n c\r\n",
        b"GET / HTTP/1.1\r\nA: \0",
    ];
    for bytes in rows {
        assert_eq!(rt; front(bytes), Front::Malformed);
    }
    assert_eq!(rt; front(b"GET /\xff"), Front::More);
}

#[test]
fn counts_headers(rt: HostRuntime) -> Result<(), Fail> {
    let rows: [(usize, &[u8], Front); 6] = [
        (100, b"A: b\r", Front::More),
        (100, b"A\0", Front::Malformed),
        (101, b"", Front::TooManyHeaders),
        (101, b"\r\n", Front::TooManyHeaders),
        (101, b"\0", Front::TooManyHeaders),
        (20_000, b"", Front::TooManyHeaders),
    ];
    for (count, end, want) in rows {
        let bytes = with_headers(rt.alloc(), count, end)?;
        assert_eq!(rt; front(bytes.as_slice()), want, "{count} headers");
    }
    let most = with_headers(rt.alloc(), MAX_HEADERS, b"\r\n")?;
    assert_eq!(rt; head_len(most.as_slice()), Some(618));
    Ok(())
}

#[test]
fn counts_bytes(rt: HostRuntime) -> Result<(), Fail> {
    let most = of_length(rt.alloc(), MAX_HEAD)?;
    assert_eq!(rt; head_len(most.as_slice()), Some(MAX_HEAD));
    let mut long = of_length(rt.alloc(), MAX_HEAD + 1)?;
    assert_eq!(rt; front(long.as_slice()), Front::TooLong);
    long.truncate(MAX_HEAD);
    assert_eq!(rt; front(long.as_slice()), Front::TooLong);
    long.truncate(MAX_HEAD - 1);
    assert_eq!(rt; front(long.as_slice()), Front::More);
    Ok(())
}

#[test]
fn framings(rt: HostRuntime) {
    let three = Some(Framing::Length(3));
    let rows: [(&[u8], Option<Framing>); 15] = [
        (b"A / HTTP/1.1\n\n", Some(Framing::Length(0))),
        (b"A / HTTP/1.1\nContent-Length: 3\n\n", three),
        (
            b"A / HTTP/1.1\ncontent-length:3 \nB: 4\nCONTENT-LENGTH:\t3\n\n",
            three,
        ),
        (
            b"A / HTTP/1.1\nContent-Length: 3\nContent-Length: 4\n\n",
            None,
        ),
        (b"A / HTTP/1.1\nContent-Length: 3, 3\n\n", None),
        (b"A / HTTP/1.1\nContent-Length: 007\n\n", None),
        (b"A / HTTP/1.1\nContent-Length: +1\n\n", None),
        (b"A / HTTP/1.1\nContent-Length:\n\n", None),
        (
            b"A / HTTP/1.1\nContent-Length: 18446744073709551616\n\n",
            None,
        ),
        (
            b"A / HTTP/1.1\nTransfer-Encoding: chunked\n\n",
            Some(Framing::Chunked),
        ),
        (
            b"A / HTTP/1.1\ntransfer-encoding: CHUNKED\n\n",
            Some(Framing::Chunked),
        ),
        (b"A / HTTP/1.1\nTransfer-Encoding: gzip\n\n", None),
        (b"A / HTTP/1.1\nTransfer-Encoding: gzip, chunked\n\n", None),
        (
            b"A / HTTP/1.1\nTransfer-Encoding: chunked\nTransfer-Encoding: chunked\n\n",
            None,
        ),
        (
            b"A / HTTP/1.1\nTransfer-Encoding: chunked\nContent-Length: 3\n\n",
            None,
        ),
    ];
    for (bytes, want) in rows {
        assert_eq!(rt; framing(bytes), Ok(want));
    }
}

#[test]
fn closes(rt: HostRuntime) {
    let rows: [(&[u8], bool); 7] = [
        (b"A / HTTP/1.1\n\n", false),
        (b"A / HTTP/1.0\n\n", true),
        (b"A / HTTP/1.0\nConnection: keep-alive\n\n", true),
        (b"A / HTTP/1.1\nconnection: CLOSE\n\n", true),
        (b"A / HTTP/1.1\nConnection: keep-alive\n\n", false),
        (
            b"A / HTTP/1.1\nConnection: keep-alive\nConnection: close\n\n",
            true,
        ),
        (b"A / HTTP/1.1\nConnection: close, x\n\n", false),
    ];
    for (bytes, want) in rows {
        assert_eq!(rt; last(bytes), Ok(want));
    }
}

/// Requests without bodies.
struct Bare;

impl Reading for Bare {
    ghost use Rattle.std.specs.Prelude.{◌≡◌, []};

    ghost ends = { λ head body. body ≡ [] };

    ghost closes = { λ head body. ⊥ };
}

#[test]
fn laws_hold() {
    one_reading::<Bare>();
    no_request::<Bare>();
    one_framing();
    limits();
    one_front();
    front_stays();
}

/// The head of an answer with a status alone.
fn bare_head(status: u16) -> AnswerHead
    ensures { result.status ≡ status }
{
    AnswerHead {
        status,
        close: false,
        length: None,
        media: None,
        digest: None,
        link: None,
        location: None,
        range: None,
        retry: None,
    }
}

/// The text of such a head, where the status has a phrase.
fn bare_text(alloc: Global, status: u16) -> Result<Option<Text>, Memory> {
    if !has_phrase(status) {
        return Ok(None);
    }
    Ok(Some(write_head(alloc, &bare_head(status))?))
}

#[test]
fn phrases(rt: HostRuntime) -> Result<(), Fail> {
    let rows: [(u16, &[u8]); 15] = [
        (200, b"HTTP/1.1 200 OK\r\n\r\n"),
        (201, b"HTTP/1.1 201 Created\r\n\r\n"),
        (202, b"HTTP/1.1 202 Accepted\r\n\r\n"),
        (204, b"HTTP/1.1 204 No Content\r\n\r\n"),
        (400, b"HTTP/1.1 400 Bad Request\r\n\r\n"),
        (403, b"HTTP/1.1 403 Forbidden\r\n\r\n"),
        (404, b"HTTP/1.1 404 Not Found\r\n\r\n"),
        (405, b"HTTP/1.1 405 Method Not Allowed\r\n\r\n"),
        (412, b"HTTP/1.1 412 Precondition Failed\r\n\r\n"),
        (413, b"HTTP/1.1 413 Payload Too Large\r\n\r\n"),
        (416, b"HTTP/1.1 416 Range Not Satisfiable\r\n\r\n"),
        (431, b"HTTP/1.1 431 Request Header Fields Too Large\r\n\r\n"),
        (500, b"HTTP/1.1 500 Internal Server Error\r\n\r\n"),
        (503, b"HTTP/1.1 503 Service Unavailable\r\n\r\n"),
        (507, b"HTTP/1.1 507 Insufficient Storage\r\n\r\n"),
    ];
    for (status, want) in rows {
        let want = Text::new(rt.alloc(), want)?;
        assert_eq!(rt; bare_text(rt.alloc(), status)?, Some(want), "{status}");
    }
    for status in [0u16, 100, 199, 203, 304, 418, 501, 999, 65_535] {
        assert!(rt; !has_phrase(status), "{status}");
    }
    Ok(())
}

#[test]
fn heads_of_answers(rt: HostRuntime) -> Result<(), Fail> {
    let alloc = rt.alloc();
    let mut head = bare_head(503);
    head.close = true;
    head.length = Some(u64::MAX);
    head.media = Some(Text::new(alloc, b"application/json")?);
    head.digest = Some(Digest::of(b"abc"));
    head.link = Some(Text::new(alloc, b"</v2/>; rel=\"next\"")?);
    head.location = Some(Text::new(alloc, b"/v2/library/a/blobs/uploads/2")?);
    head.range = Some(Text::new(alloc, b"0-2")?);
    head.retry = Some(0);
    let want = Text::new(
        alloc,
        b"HTTP/1.1 503 Service Unavailable\r\nConnection: close\r\nContent-Length: 18446744073709551615\r\nContent-Type: application/json\r\nDocker-Content-Digest: sha256:ba7816bf8f01cfea414140de5dae2223b00361a396177a9cb410ff61f20015ad\r\nLink: </v2/>; rel=\"next\"\r\nLocation: /v2/library/a/blobs/uploads/2\r\nRange: 0-2\r\nRetry-After: 0\r\n\r\n",
    )?;
    assert_eq!(rt; write_head(alloc, &head)?, want);
    let mut empty = bare_head(204);
    empty.length = Some(0);
    empty.range = Some(Text::new(alloc, b"0-0")?);
    let want = Text::new(alloc, b"HTTP/1.1 204 No Content\r\nRange: 0-0\r\n\r\n")?;
    assert_eq!(rt; write_head(alloc, &empty)?, want);
    Ok(())
}
