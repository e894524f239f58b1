//! Bodies in chunks, with one chunk at most.

use crate::MAX_CHUNK_LINE;
use crate::chunk_places::{ChunkPlace, after_data, read_lines};
use crate::laws::{chunks_are_read, one_chunked_body};
use std::alloc::{AllocError, Global};
use std::test::Fail;

/// The place behind lines, the data of a chunk and lines again, and how many bytes that are.
fn outcome(bytes: &[u8]) -> (usize, ChunkPlace) {
    let start = ChunkPlace::Size { size: 0, digits: 0 };
    let (lines, place) = read_lines(start, bytes);
    match place {
        ChunkPlace::Data { left } => {
            let count = left.min((bytes.len() - lines) as u64);
            let behind = lines + count as usize;
            let (more, place) = read_lines(after_data(left, count), &bytes[behind..]);
            (behind + more, place)
        }
        _ => (lines, place),
    }
}

#[test]
fn whole_bodies(rt: HostRuntime) {
    let rows: [&[u8]; 8] = [
        b"0\r\n\r\n",
        b"0000000000000000\r\n\r\n",
        b"0;\r\n\r\n",
        b"3\r\nabc\r\n0\r\n\r\n",
        b"00a;x=\"y\"\r\n0123456789\r\n0\r\n\r\n",
        b"1;\0 \t\xff\r\n\r\r\n0\r\nA: b\r\n c\r\n\r\n",
        b"7\r\n\r\n0\r\n\r\n\r\n0\r\n\r\n",
        b"0\r\n:\r\n\r\n",
    ];
    for bytes in rows {
        assert_eq!(rt; outcome(bytes), (bytes.len(), ChunkPlace::Over));
    }
    assert_eq!(rt; outcome(b"0\r\n\r\n0\r\n\r\n"), (5, ChunkPlace::Over));
}

#[test]
fn bad_bodies(rt: HostRuntime) {
    let rows: [(&[u8], usize); 21] = [
        (b"\r\n", 1),
        (b";", 1),
        (b" 3", 1),
        (b"+3", 1),
        (b"-1", 1),
        (b"G", 1),
        (b"0x3", 2),
        (b"3 \r\n", 2),
        (b"3\n", 2),
        (b"3\r\r", 3),
        (b"3;a\n", 4),
        (b"3;a\rb", 5),
        (b"00000000000000003\r\n", 17),
        (b"10000000000000000\r\n", 17),
        (b"3\r\nabcd", 7),
        (b"3\r\nabc\n", 7),
        (b"3\r\nabc\rd", 8),
        (b"3\r\nabc\r\n\r\n", 9),
        (b"0\r\n\n", 4),
        (b"0\r\nA\n", 5),
        (b"0\r\nA\rB", 6),
    ];
    for (bytes, at) in rows {
        assert_eq!(rt; outcome(bytes), (at, ChunkPlace::Bad), "bad at {at}");
        assert_ne!(rt; outcome(&bytes[..at - 1]).1, ChunkPlace::Bad, "bad at {at}");
    }
}

#[test]
fn cut_bodies(rt: HostRuntime) {
    let bytes = b"A;b\r\n0123456789\r\n00\r\nC: d\r\n\r\n";
    for cut in 0..bytes.len() {
        let (count, place) = outcome(&bytes[..cut]);
        assert_eq!(rt; count, cut);
        assert_ne!(rt; place, ChunkPlace::Bad, "cut at {cut}");
        assert_ne!(rt; place, ChunkPlace::Over, "cut at {cut}");
    }
    let most = ChunkPlace::Data { left: u64::MAX };
    assert_eq!(rt; outcome(b"ffffFFFFffffFFFF\r\n"), (18, most));
}

/// A text, so many bytes, and an end.
fn padded(alloc: Global, start: &[u8], count: usize, end: &[u8]) -> Result<Vec<u8>, AllocError> {
    let mut bytes = Vec::from_slice(alloc, start)?;
    for _ in 0..count {
        bytes.push(b'a')?;
    }
    bytes.extend_from_slice(end)?;
    Ok(bytes)
}

#[test]
fn longest_lines(rt: HostRuntime) -> Result<(), Fail> {
    let alloc = rt.alloc();
    let line = padded(alloc, b"1;", MAX_CHUNK_LINE - 4, b"\r\n")?;
    let data = ChunkPlace::Data { left: 1 };
    assert_eq!(rt; outcome(&line), (MAX_CHUNK_LINE, data));
    let long = padded(alloc, b"1;", MAX_CHUNK_LINE - 3, b"\r\n")?;
    assert_eq!(rt; outcome(&long), (MAX_CHUNK_LINE - 1, ChunkPlace::Bad));
    let last = padded(alloc, b"0;", MAX_CHUNK_LINE - 6, b"\r\n\r\n")?;
    assert_eq!(rt; outcome(&last), (MAX_CHUNK_LINE, ChunkPlace::Over));
    let long = padded(alloc, b"0;", MAX_CHUNK_LINE - 5, b"\r\n\r\n")?;
    assert_eq!(rt; outcome(&long), (MAX_CHUNK_LINE - 3, ChunkPlace::Bad));
    let trailer = padded(alloc, b"0\r\n", MAX_CHUNK_LINE - 7, b"\r\n\r\n")?;
    assert_eq!(rt; outcome(&trailer), (MAX_CHUNK_LINE, ChunkPlace::Over));
    let long = padded(alloc, b"0\r\nb\r\n", MAX_CHUNK_LINE - 9, b"\r\n\r\n")?;
    assert_eq!(rt; outcome(&long), (MAX_CHUNK_LINE - 3, ChunkPlace::Bad));
    Ok(())
}

#[test]
fn laws_of_chunks_hold() {
    chunks_are_read();
    one_chunked_body();
}
