//! Connections taken apart: whole streams in pieces of any size, and what stands in for a request.

ghost use Rattle.std.specs.Prelude.{◌<◌};

use crate::laws::{Reading, faults_stay, one_part, one_reading_of_parts, parts_are_requests};
use crate::{Head, HttpFault, MAX_HEAD, MAX_HEADERS, MAX_PIECE, Part, ROOM, Session};
use hb_text::Text;
use std::alloc::Global;
use std::process::Abort;
use std::test::Fail;

/// Adds a piece to what was told.
fn tell(told: &mut Vec<u8>, piece: &[u8]) -> Result<(), Fail> {
    told.extend_from_slice(piece)?;
    Ok(())
}

/// Adds a blank and a value, or `-` where there is none.
fn tell_value(told: &mut Vec<u8>, value: &Option<Text>) -> Result<(), Fail> {
    tell(told, b" ")?;
    match value {
        Some(value) => tell(told, value.bytes()),
        None => tell(told, b"-"),
    }
}

/// Adds a head in square brackets.
fn tell_head(alloc: Global, told: &mut Vec<u8>, head: &Head) -> Result<(), Fail> {
    tell(told, b"[")?;
    tell(told, head.method.bytes())?;
    tell(told, b" ")?;
    tell(told, head.target.bytes())?;
    tell_value(told, &head.content_type)?;
    tell_value(told, &head.content_range)?;
    match head.length {
        Some(length) => {
            let digits = length.to_string(alloc)?;
            tell(told, b" ")?;
            tell(told, digits.as_bytes())?;
        }
        None => tell(told, b" chunks")?,
    }
    if head.close {
        tell(told, b" close")?;
    }
    tell(told, b"]")
}

fn fault_text(fault: HttpFault) -> &'static [u8] {
    match fault {
        HttpFault::Bad => b"!bad",
        HttpFault::HeadTooLong => b"!long",
        HttpFault::TooManyHeaders => b"!many",
        HttpFault::Cut => b"!cut",
        HttpFault::Memory => b"!memory",
    }
}

/// Takes one part and tells it. Whether another may follow at once.
fn tell_part(alloc: Global, session: &mut Session, told: &mut Vec<u8>) -> Result<bool, Fail> {
    match session.part(alloc) {
        Ok(Part::NeedInput) => return Ok(false),
        Ok(Part::Head(head)) => tell_head(alloc, told, &head)?,
        Ok(Part::Body) => tell(told, session.body())?,
        Ok(Part::BodyEnd) => tell(told, b";")?,
        Ok(Part::InputEnd) => {
            tell(told, b"$")?;
            return Ok(false);
        }
        Err(fault) => {
            tell(told, fault_text(fault))?;
            return Ok(false);
        }
    }
    Ok(true)
}

/// Takes all parts that are there, at most a thousand, and tells them.
fn tell_parts(alloc: Global, session: &mut Session, told: &mut Vec<u8>) -> Result<(), Fail> {
    for _ in 0..1000 {
        if !tell_part(alloc, session, told)? {
            return Ok(());
        }
    }
    Ok(())
}

/// What is told of a stream that comes in pieces of one size and then ends.
fn told_of(alloc: Global, stream: &[u8], size: usize) -> Result<Vec<u8>, Fail>
    requires { 0 < size }
{
    let mut session = Session::new(alloc)?;
    let mut told = Vec::new(alloc);
    for piece in stream.chunks(size) {
        let _all = session.feed(piece);
        tell_parts(alloc, &mut session, &mut told)?;
    }
    session.close_input();
    tell_parts(alloc, &mut session, &mut told)?;
    Ok(told)
}

/// What is told of a stream that comes at once, up to the first fault.
fn told_once(alloc: Global, stream: &[u8]) -> Result<Vec<u8>, Fail> {
    let mut session = Session::new(alloc)?;
    let mut told = Vec::new(alloc);
    let _all = session.feed(stream);
    session.close_input();
    tell_parts(alloc, &mut session, &mut told)?;
    Ok(told)
}

/// Asserts what is told of three requests that come in pieces of one size.
fn tells_three(rt: &impl Abort, alloc: Global, size: usize) -> Result<(), Fail>
    requires { 0 < size }
{
    let stream =
        b"POST /v2/a/blobs/uploads/ HTTP/1.1\r\nHost: r\r\nContent-Type: x/y \r\nContent-Type: z\r\nContent-Length: 5\r\n\r\nab\r\nc\r\nPATCH /u HTTP/1.1\r\nTransfer-Encoding: chunked\r\nContent-Range: 0-4\r\n\r\n3;q\r\nabc\r\n02\r\nde\r\n0\r\nT: u\r\n\r\nGET /v2/ HTTP/1.0\n\n";
    let want =
        b"[POST /v2/a/blobs/uploads/ x/y - 5]ab\r\nc;[PATCH /u - 0-4 chunks]abcde;[GET /v2/ - - 0 close];$";
    let told = told_of(alloc, stream, size)?;
    assert_eq!(rt; told.as_slice(), want.as_slice());
    Ok(())
}

#[test]
fn any_cutting(rt: HostRuntime) -> Result<(), Fail> {
    let alloc = rt.alloc();
    tells_three(&rt, alloc, 1)?;
    tells_three(&rt, alloc, 2)?;
    tells_three(&rt, alloc, 7)?;
    tells_three(&rt, alloc, 65_536)
}

#[test]
fn cut_anywhere(rt: HostRuntime) -> Result<(), Fail> {
    let alloc = rt.alloc();
    let stream =
        b"PUT / HTTP/1.1\r\nTransfer-Encoding: chunked\r\n\r\n1\r\na\r\n0\r\n\r\nPUT / HTTP/1.1\r\nContent-Length: 2\r\n\r\nbc";
    for cut in 0..stream.len() {
        let told = told_once(alloc, &stream[..cut])?;
        let between = cut == 0 || cut == 57;
        let end = if between {
            b"$".as_slice()
        } else {
            b"!cut".as_slice()
        };
        assert!(rt; told.as_slice().ends_with(end), "cut at {cut}");
    }
    Ok(())
}

/// Asserts what is told of a stream that comes at once.
fn tells(rt: &impl Abort, alloc: Global, stream: &[u8], want: &[u8]) -> Result<(), Fail> {
    let told = told_once(alloc, stream)?;
    assert_eq!(rt; told.as_slice(), want);
    Ok(())
}

/// Asserts that a stream isn't read past its first head, and that this is for what it says.
fn is_refused(rt: &impl Abort, alloc: Global, stream: &[u8]) -> Result<(), Fail> {
    tells(rt, alloc, stream, b"!bad")
}

// The rows here are streams that two readers of one connection might take apart in different ways.

#[test]
fn two_framings(rt: HostRuntime) -> Result<(), Fail> {
    let alloc = rt.alloc();
    let rows: [&[u8]; 7] = [
        b"A / HTTP/1.1\r\nContent-Length: 6\r\nTransfer-Encoding: chunked\r\n\r\n0\r\n\r\nG",
        b"A / HTTP/1.1\r\nTransfer-Encoding: chunked\r\nContent-Length: 4\r\n\r\n0\r\n\r\n",
        b"A / HTTP/1.1\r\nTransfer-Encoding: chunked\r\nTransfer-Encoding: x\r\n\r\n",
        b"A / HTTP/1.1\r\nTransfer-Encoding: xchunked\r\n\r\n",
        b"A / HTTP/1.1\r\nTransfer-Encoding: chunked, identity\r\n\r\n",
        b"A / HTTP/1.1\r\nTransfer-Encoding: \"chunked\"\r\n\r\n",
        b"A / HTTP/1.1\r\nTransfer-Encoding:\r\n\r\n",
    ];
    for stream in rows {
        is_refused(&rt, alloc, stream)?;
    }
    tells(
        &rt,
        alloc,
        b"A / HTTP/1.1\r\nTransfer-Encoding:\t chuNKed\t\r\n\r\n0\r\n\r\n",
        b"[A / - - chunks];$",
    )
}

#[test]
fn odd_lines(rt: HostRuntime) -> Result<(), Fail> {
    let alloc = rt.alloc();
    let rows: [&[u8]; 6] = [
        b"A / HTTP/1.1\r\nTransfer-Encoding : chunked\r\n\r\n",
        b"A / HTTP/1.1\r\n Transfer-Encoding: chunked\r\n\r\n",
        b"A / HTTP/1.1\r\nTransfer-Encoding\r\n: chunked\r\n\r\n",
        b"A / HTTP/1.1\r\nX: y\r\n Transfer-Encoding: chunked\r\n\r\n",
        b"A / HTTP/1.1\r\nX: y\rTransfer-Encoding: chunked\r\n\r\n",
        b"A / HTTP/1.1\r\nX: y\0\r\n\r\n",
    ];
    for stream in rows {
        is_refused(&rt, alloc, stream)?;
    }
    tells(
        &rt,
        alloc,
        b"A / HTTP/1.1\nX: y\nTransfer-Encoding: chunked\n\n0\r\n\r\n",
        b"[A / - - chunks];$",
    )
}

#[test]
fn odd_lengths(rt: HostRuntime) -> Result<(), Fail> {
    let alloc = rt.alloc();
    let rows: [&[u8]; 8] = [
        b"A / HTTP/1.1\r\nContent-Length: -1\r\n\r\n",
        b"A / HTTP/1.1\r\nContent-Length: +1\r\n\r\na",
        b"A / HTTP/1.1\r\nContent-Length: 01\r\n\r\na",
        b"A / HTTP/1.1\r\nContent-Length: 0x1\r\n\r\na",
        b"A / HTTP/1.1\r\nContent-Length: 1 1\r\n\r\na",
        b"A / HTTP/1.1\r\nContent-Length: 1, 1\r\n\r\na",
        b"A / HTTP/1.1\r\nContent-Length: 1\r\nContent-Length: 2\r\n\r\nab",
        b"A / HTTP/1.1\r\nContent-Length: 18446744073709551616\r\n\r\n",
    ];
    for stream in rows {
        is_refused(&rt, alloc, stream)?;
    }
    tells(
        &rt,
        alloc,
        b"A / HTTP/1.1\r\nContent-Length: 1\r\nContent-Length: 1\r\n\r\na",
        b"[A / - - 1]a;$",
    )
}

/// Asserts what is told of a request whose body in chunks comes behind its head.
fn tells_chunks(rt: &impl Abort, alloc: Global, body: &[u8], want: &[u8]) -> Result<(), Fail> {
    let mut stream = Vec::from_slice(alloc, b"A / HTTP/1.1\r\nTransfer-Encoding: chunked\r\n\r\n")?;
    stream.extend_from_slice(body)?;
    let mut all = Vec::from_slice(alloc, b"[A / - - chunks]")?;
    all.extend_from_slice(want)?;
    tells(rt, alloc, &stream, &all)
}

#[test]
fn empty_lines(rt: HostRuntime) -> Result<(), Fail> {
    let alloc = rt.alloc();
    tells(&rt, alloc, b"", b"$")?;
    tells(&rt, alloc, b"\r\n", b"!cut")?;
    tells(
        &rt,
        alloc,
        b"\r\n\nGET / HTTP/1.1\r\n\r\n",
        b"[GET / - - 0];$",
    )?;
    tells(
        &rt,
        alloc,
        b"GET / HTTP/1.1\r\n\r\n\r\n",
        b"[GET / - - 0];!cut",
    )?;
    tells(
        &rt,
        alloc,
        b"GET / HTTP/1.1\r\n\r\n\0",
        b"[GET / - - 0];!bad",
    )
}

#[test]
fn odd_chunks(rt: HostRuntime) -> Result<(), Fail> {
    let alloc = rt.alloc();
    let rows: [&[u8]; 5] = [
        b"00000000000000001\r\na",
        b"10000000000000001\r\na",
        b"-1\r\na",
        b"1 \r\na",
        b"1\na\n0\n\n",
    ];
    for body in rows {
        tells_chunks(&rt, alloc, body, b"!bad")?;
    }
    tells_chunks(&rt, alloc, b"1\r\nabc\r\n0\r\n\r\n", b"a!bad")?;
    tells_chunks(&rt, alloc, b"1\r\na\r\n0\r\n\r\n0\r\n\r\n", b"a;!bad")
}

/// A head without its end, of so many headers and at least so many bytes.
fn long_head(alloc: Global, headers: usize, bytes: usize) -> Result<Vec<u8>, Fail> {
    let mut head = Vec::from_slice(alloc, b"GET / HTTP/1.1\r\n")?;
    for _ in 0..headers {
        head.extend_from_slice(b"A: b\r\n")?;
    }
    for _ in head.len()..bytes {
        head.push(b'a')?;
    }
    Ok(head)
}

#[test]
fn limits(rt: HostRuntime) -> Result<(), Fail> {
    let alloc = rt.alloc();
    let mut most = long_head(alloc, MAX_HEADERS, 0)?;
    most.extend_from_slice(b"\r\n")?;
    assert_eq!(rt;
        told_once(alloc, &most)?.as_slice(),
        b"[GET / - - 0];$".as_slice()
    );
    let mut many = long_head(alloc, MAX_HEADERS + 1, 0)?;
    many.extend_from_slice(b"\r\n")?;
    assert_eq!(rt; told_once(alloc, &many)?.as_slice(), b"!many".as_slice());
    let mut whole = long_head(alloc, 1, MAX_HEAD - 6)?;
    whole.extend_from_slice(b": \r\n\r\n")?;
    assert_eq!(rt;
        told_once(alloc, &whole)?.as_slice(),
        b"[GET / - - 0];$".as_slice()
    );
    let mut long = long_head(alloc, 1, MAX_HEAD - 5)?;
    long.extend_from_slice(b": \r\n\r\n")?;
    assert_eq!(rt; told_once(alloc, &long)?.as_slice(), b"!long".as_slice());
    Ok(())
}

/// A session that was fed a head, which announces a body of 200,000 bytes, and as much of the body as
/// there was room for.
fn full_session(alloc: Global, body: &[u8]) -> Result<(Session, usize), Fail> {
    let mut session = Session::new(alloc)?;
    let head = session.feed(b"PUT / HTTP/1.1\r\nContent-Length: 200000\r\n\r\n");
    let taken = session.feed(body);
    Ok((session, head + taken))
}

/// Takes the next part and answers how long the body piece is then, and whether the part was one.
fn next_piece(alloc: Global, session: &mut Session) -> Result<(bool, usize), Fail> {
    let is_body = session.part(alloc)? == Part::Body;
    Ok((is_body, session.body().len()))
}

#[test]
fn a_full_room(rt: HostRuntime) -> Result<(), Fail> {
    let alloc = rt.alloc();
    let body = vec![in alloc; b'x'; 200_000]?;
    let (mut session, taken) = full_session(alloc, &body)?;
    assert_eq!(rt; taken, ROOM);
    assert_eq!(rt; session.feed(b"x"), 0);
    assert_eq!(rt; next_piece(alloc, &mut session)?, (false, 0));
    assert_eq!(rt; next_piece(alloc, &mut session)?, (true, MAX_PIECE));
    assert_eq!(rt; session.feed(&body), 42);
    assert_eq!(rt; session.body().len(), MAX_PIECE);
    assert_eq!(rt; session.feed(b"x"), 0);
    Ok(())
}

#[test]
fn a_cut_body(rt: HostRuntime) -> Result<(), Fail> {
    let alloc = rt.alloc();
    let body = vec![in alloc; b'x'; 65_536]?;
    let (mut session, _taken) = full_session(alloc, &body)?;
    let _head = session.part(alloc)?;
    assert_eq!(rt; next_piece(alloc, &mut session)?, (true, MAX_PIECE));
    assert_eq!(rt; session.feed(b"xyz"), 3);
    assert_eq!(rt; next_piece(alloc, &mut session)?, (true, 3));
    assert_eq!(rt; next_piece(alloc, &mut session)?, (false, 0));
    session.close_input();
    assert_eq!(rt; session.part(alloc), Err(HttpFault::Cut));
    assert_eq!(rt; session.part(alloc), Err(HttpFault::Cut));
    Ok(())
}

#[test]
fn laws_of_parts_hold() {
    one_reading_of_parts();
    parts_are_requests::<Never>();
    faults_stay();
    one_part();
}

/// Requests none of which closes the connection.
struct Never;

impl Reading for Never {
    ghost ends = { λ head body. ⊥ };

    ghost closes = { λ head body. ⊥ };
}
