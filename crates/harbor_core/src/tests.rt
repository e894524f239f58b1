ghost use Rattle.std.specs.Prelude.{◌≡◌, IfOk, Some};
ghost use Rattle.hb_rows.specs.Tables.{empty_tables};
ghost use Rattle.hb_store.specs.MemStores.{contents_of};
ghost use Rattle.hb_world.specs.Starting.{IsAtRest, IsMisfit};

use crate::run::{Ended, run};
use hb_keeper::MemKeeper;
use hb_model::fit;
use hb_outside::{MemSink, MemSource, StepClock};
use hb_records::{Entry, EntryKind, ImmuteList, Listed, Project, RetainList, Row, Rules};
use hb_rows::Rows;
use hb_store::MemStore;
use hb_text::{ProjectName, Text};
use std::alloc::Global;
use std::test::Fail;

pub(crate) const PUSH: &[u8] =
    b"POST /v2/library/a/blobs/uploads/?digest=sha256:ba7816bf8f01cfea414140de5dae2223b00361a396177a9cb410ff61f20015ad HTTP/1.1\r\nHost: r\r\nContent-Length: 3\r\n\r\nabc";

const PULL: &[u8] =
    b"GET /v2/library/a/blobs/sha256:ba7816bf8f01cfea414140de5dae2223b00361a396177a9cb410ff61f20015ad HTTP/1.1\r\nHost: r\r\n\r\n";

pub(crate) const CREATED: &[u8] =
    b"HTTP/1.1 201 Created\r\nContent-Length: 0\r\nDocker-Content-Digest: sha256:ba7816bf8f01cfea414140de5dae2223b00361a396177a9cb410ff61f20015ad\r\nLocation: /v2/library/a/blobs/sha256:ba7816bf8f01cfea414140de5dae2223b00361a396177a9cb410ff61f20015ad\r\n\r\n";

pub(crate) const PULLED: &[u8] =
    b"HTTP/1.1 200 OK\r\nContent-Length: 3\r\nContent-Type: application/octet-stream\r\nDocker-Content-Digest: sha256:ba7816bf8f01cfea414140de5dae2223b00361a396177a9cb410ff61f20015ad\r\n\r\nabc";

const UNKNOWN: &[u8] =
    b"HTTP/1.1 404 Not Found\r\nContent-Length: 73\r\nContent-Type: application/json\r\n\r\n{\"errors\":[{\"code\":\"BLOB_UNKNOWN\",\"detail\":{},\"message\":\"blob unknown\"}]}";

const BAD_HEAD: &[u8] =
    b"HTTP/1.1 400 Bad Request\r\nConnection: close\r\nContent-Length: 73\r\nContent-Type: application/json\r\n\r\n{\"errors\":[{\"code\":\"HEAD_INVALID\",\"detail\":{},\"message\":\"head invalid\"}]}";

const HEAD_TOO_LONG: &[u8] =
    b"HTTP/1.1 431 Request Header Fields Too Large\r\nConnection: close\r\nContent-Length: 73\r\nContent-Type: application/json\r\n\r\n{\"errors\":[{\"code\":\"HEAD_INVALID\",\"detail\":{},\"message\":\"head invalid\"}]}";

pub(crate) const BASE: &[u8] =
    b"HTTP/1.1 200 OK\r\nContent-Length: 2\r\nContent-Type: application/json\r\n\r\n{}";

const STORAGE: &[u8] =
    b"HTTP/1.1 500 Internal Server Error\r\nContent-Length: 63\r\nContent-Type: application/json\r\n\r\n{\"errors\":[{\"code\":\"STORAGE\",\"detail\":{},\"message\":\"storage\"}]}";

// What docker pushes of an image with two layers, each blob in one request.
pub(crate) const PUSH_CONFIG: &[u8] =
    b"POST /v2/library/a/blobs/uploads/?digest=sha256%3A44136fa355b3678a1146ad16f7e8649e94fb4fc21fe77e8310c060f61caaff8a HTTP/1.1\r\nHost: r\r\nContent-Length: 2\r\n\r\n{}";

const PUSH_NOTHING: &[u8] =
    b"POST /v2/library/a/blobs/uploads/?digest=sha256%3Ae3b0c44298fc1c149afbf4c8996fb92427ae41e4649b934ca495991b7852b855 HTTP/1.1\r\nHost: r\r\nContent-Length: 0\r\n\r\n";

const PUT_MANIFEST: &[u8] =
    b"PUT /v2/library/a/manifests/v1 HTTP/1.1\r\nHost: r\r\nContent-Type: application/vnd.oci.image.manifest.v1+json\r\nContent-Length: 357\r\n\r\n{\"schemaVersion\":2,\"config\":{\"digest\":\"sha256:44136fa355b3678a1146ad16f7e8649e94fb4fc21fe77e8310c060f61caaff8a\",\"size\":2},\"layers\":[{\"digest\":\"sha256:ba7816bf8f01cfea414140de5dae2223b00361a396177a9cb410ff61f20015ad\",\"size\":3},{\"digest\":\"sha256:e3b0c44298fc1c149afbf4c8996fb92427ae41e4649b934ca495991b7852b855\",\"size\":0}],\"annotations\":{\"a\":\"b\"},\"unknown\":1}";

const GET_TAG: &[u8] = b"GET /v2/library/a/manifests/v1 HTTP/1.1\r\nHost: r\r\n\r\n";

const GET_DIGEST: &[u8] =
    b"GET /v2/library/a/manifests/sha256:9f0545606529702c3c00fe4dcc12aa9f6a01d0e1865e177c9f9f46da1121fbed HTTP/1.1\r\nHost: r\r\n\r\n";

pub(crate) const CREATED_CONFIG: &[u8] =
    b"HTTP/1.1 201 Created\r\nContent-Length: 0\r\nDocker-Content-Digest: sha256:44136fa355b3678a1146ad16f7e8649e94fb4fc21fe77e8310c060f61caaff8a\r\nLocation: /v2/library/a/blobs/sha256:44136fa355b3678a1146ad16f7e8649e94fb4fc21fe77e8310c060f61caaff8a\r\n\r\n";

const CREATED_NOTHING: &[u8] =
    b"HTTP/1.1 201 Created\r\nContent-Length: 0\r\nDocker-Content-Digest: sha256:e3b0c44298fc1c149afbf4c8996fb92427ae41e4649b934ca495991b7852b855\r\nLocation: /v2/library/a/blobs/sha256:e3b0c44298fc1c149afbf4c8996fb92427ae41e4649b934ca495991b7852b855\r\n\r\n";

const CREATED_MANIFEST: &[u8] =
    b"HTTP/1.1 201 Created\r\nContent-Length: 0\r\nDocker-Content-Digest: sha256:9f0545606529702c3c00fe4dcc12aa9f6a01d0e1865e177c9f9f46da1121fbed\r\nLocation: /v2/library/a/manifests/sha256:9f0545606529702c3c00fe4dcc12aa9f6a01d0e1865e177c9f9f46da1121fbed\r\n\r\n";

const GOT_MANIFEST: &[u8] =
    b"HTTP/1.1 200 OK\r\nContent-Length: 357\r\nContent-Type: application/vnd.oci.image.manifest.v1+json\r\nDocker-Content-Digest: sha256:9f0545606529702c3c00fe4dcc12aa9f6a01d0e1865e177c9f9f46da1121fbed\r\n\r\n{\"schemaVersion\":2,\"config\":{\"digest\":\"sha256:44136fa355b3678a1146ad16f7e8649e94fb4fc21fe77e8310c060f61caaff8a\",\"size\":2},\"layers\":[{\"digest\":\"sha256:ba7816bf8f01cfea414140de5dae2223b00361a396177a9cb410ff61f20015ad\",\"size\":3},{\"digest\":\"sha256:e3b0c44298fc1c149afbf4c8996fb92427ae41e4649b934ca495991b7852b855\",\"size\":0}],\"annotations\":{\"a\":\"b\"},\"unknown\":1}";

const NO_NAME: &[u8] =
    b"HTTP/1.1 404 Not Found\r\nContent-Length: 73\r\nContent-Type: application/json\r\n\r\n{\"errors\":[{\"code\":\"NAME_UNKNOWN\",\"detail\":{},\"message\":\"name unknown\"}]}";

const KEEPER: &[u8] =
    b"HTTP/1.1 500 Internal Server Error\r\nContent-Length: 61\r\nContent-Type: application/json\r\n\r\n{\"errors\":[{\"code\":\"KEEPER\",\"detail\":{},\"message\":\"keeper\"}]}";

const LONG_HEAD: &[u8] =
    b"POST /v2/library/a/blobs/uploads/?digest=sha256:ba7816bf8f01cfea414140de5dae2223b00361a396177a9cb410ff61f20015ad HTTP/1.1\r\nContent-Length: ";

pub(crate) const FOUND_ZEROS: &[u8] =
    b"HTTP/1.1 400 Bad Request\r\nContent-Length: 158\r\nContent-Type: application/json\r\n\r\n{\"errors\":[{\"code\":\"DIGEST_INVALID\",\"detail\":{\"found\":\"sha256:bb9f8df61474d25e71fa00722318cd387396ca1736605e1248821cc0de3d3af8\"},\"message\":\"digest invalid\"}]}";

pub(crate) const TOO_LONG: &[u8] =
    b"HTTP/1.1 413 Payload Too Large\r\nConnection: close\r\nContent-Length: 73\r\nContent-Type: application/json\r\n\r\n{\"errors\":[{\"code\":\"SIZE_INVALID\",\"detail\":{},\"message\":\"size invalid\"}]}";

// What a talk answers and how it ends.
fn talk(
    alloc: Global,
    input: &[u8],
    cut: usize,
    reads: Vec<u64>,
    writes: Vec<u64>,
    store: MemStore,
) -> Result<(u8, Vec<u8>), Fail>
    requires { IsAtRest (Some empty_tables) (Some (contents_of store)) }
{
    let words = vec![in alloc; Text::new(alloc, b"talk")?]?;
    let cuts = vec![in alloc; cut; 2_000]?;
    let mut source = MemSource::new(Vec::from_slice(alloc, input)?, cuts, reads);
    let mut sink = MemSink::new(alloc, 10_000, writes)?;
    let ended = run(
        alloc,
        &words,
        &mut StepClock::new(5, 1),
        &mut source,
        &mut sink,
        MemKeeper::new(alloc, Vec::new(alloc)),
        store,
    );
    Ok((ended.status, Vec::from_slice(alloc, sink.bytes())?))
}

// A talk over devices that don't fail.
pub(crate) fn plain(alloc: Global, input: &[u8], cut: usize) -> Result<(u8, Vec<u8>), Fail> {
    let store = MemStore::new(alloc, Vec::new(alloc));
    talk(alloc, input, cut, Vec::new(alloc), Vec::new(alloc), store)
}

pub(crate) fn joined(alloc: Global, pieces: &[&'static [u8]]) -> Result<Vec<u8>, Fail> {
    let mut text = Vec::new(alloc);
    for piece in pieces {
        text.extend_from_slice(piece)?;
    }
    Ok(text)
}

// With ample memory neither answer is want of it.
#[test]
fn a_blob_is_pushed_and_pulled(rt: HostRuntime) -> Result<(), Fail> {
    let alloc = rt.alloc();
    let input = joined(alloc, &[PUSH, PULL])?;
    let output = joined(alloc, &[CREATED, PULLED])?;
    let (status, said) = plain(alloc, &input, 65_536)?;
    assert_eq!(rt; status, 0);
    assert_eq!(rt; said.as_slice(), output.as_slice());
    Ok(())
}

// An image is pushed, and pulled by its tag and by its digest, behind a push and a pull on the same connection.
#[test]
fn an_image_is_pushed_and_pulled(rt: HostRuntime) -> Result<(), Fail> {
    let alloc = rt.alloc();
    let input = joined(
        alloc,
        &[
            PUSH,
            PULL,
            PUSH_CONFIG,
            PUSH,
            PUSH_NOTHING,
            PUT_MANIFEST,
            GET_TAG,
            GET_DIGEST,
        ],
    )?;
    let output = joined(
        alloc,
        &[
            CREATED,
            PULLED,
            CREATED_CONFIG,
            CREATED,
            CREATED_NOTHING,
            CREATED_MANIFEST,
            GOT_MANIFEST,
            GOT_MANIFEST,
        ],
    )?;
    for cut in [100, 65_536] {
        let (status, said) = plain(alloc, &input, cut)?;
        assert_eq!(rt; status, 0, "pieces of {cut}");
        assert_eq!(rt; said.as_slice(), output.as_slice());
    }
    Ok(())
}

#[test]
fn blobs_are_pushed_and_pulled_however_the_input_is_cut(rt: HostRuntime) -> Result<(), Fail> {
    let alloc = rt.alloc();
    let input = joined(alloc, &[PULL, PUSH, PULL, PUSH, PULL, PULL])?;
    let output = joined(alloc, &[UNKNOWN, CREATED, PULLED, CREATED, PULLED, PULLED])?;
    for cut in [1, 2, 100, 65_536] {
        let (status, said) = plain(alloc, &input, cut)?;
        assert_eq!(rt; status, 0, "pieces of {cut}");
        assert_eq!(rt; said.as_slice(), output.as_slice());
    }
    Ok(())
}

#[test]
fn each_request_has_its_answer(rt: HostRuntime) -> Result<(), Fail> {
    let alloc = rt.alloc();
    let cases: [(&[u8], &[u8]); 6] = [
        (b"", b""),
        (PULL, UNKNOWN),
        // the empty blob
        (
            b"POST /v2/library/a/blobs/uploads/?digest=sha256:e3b0c44298fc1c149afbf4c8996fb92427ae41e4649b934ca495991b7852b855 HTTP/1.1\r\n\r\nGET /v2/library/b/c/blobs/sha256:e3b0c44298fc1c149afbf4c8996fb92427ae41e4649b934ca495991b7852b855 HTTP/1.1\r\nConnection: Close\r\n\r\nGET",
            b"HTTP/1.1 201 Created\r\nContent-Length: 0\r\nDocker-Content-Digest: sha256:e3b0c44298fc1c149afbf4c8996fb92427ae41e4649b934ca495991b7852b855\r\nLocation: /v2/library/a/blobs/sha256:e3b0c44298fc1c149afbf4c8996fb92427ae41e4649b934ca495991b7852b855\r\n\r\nHTTP/1.1 200 OK\r\nConnection: close\r\nContent-Length: 0\r\nContent-Type: application/octet-stream\r\nDocker-Content-Digest: sha256:e3b0c44298fc1c149afbf4c8996fb92427ae41e4649b934ca495991b7852b855\r\n\r\n",
        ),
        // another digest than the body's
        (
            b"POST /v2/library/a/blobs/uploads/?digest=sha256:e3b0c44298fc1c149afbf4c8996fb92427ae41e4649b934ca495991b7852b855 HTTP/1.1\r\nContent-Length: 3\r\n\r\nabc",
            b"HTTP/1.1 400 Bad Request\r\nContent-Length: 158\r\nContent-Type: application/json\r\n\r\n{\"errors\":[{\"code\":\"DIGEST_INVALID\",\"detail\":{\"found\":\"sha256:ba7816bf8f01cfea414140de5dae2223b00361a396177a9cb410ff61f20015ad\"},\"message\":\"digest invalid\"}]}",
        ),
        // whether this is a registry
        (b"GET /v2/ HTTP/1.1\r\n\r\n", BASE),
        (
            b"GET /v2/other/a/blobs/sha256:ba7816bf8f01cfea414140de5dae2223b00361a396177a9cb410ff61f20015ad HTTP/1.1\r\n\r\n",
            NO_NAME,
        ),
    ];
    for (input, output) in cases {
        let (status, said) = plain(alloc, input, 65_536)?;
        assert_eq!(rt; status, 0);
        assert_eq!(rt; said.as_slice(), output);
    }
    Ok(())
}

// A body of 4 MiB is served, and a longer one isn't.
#[test]
fn a_body_above_the_limit_is_refused(rt: HostRuntime) -> Result<(), Fail> {
    let alloc = rt.alloc();
    for (length, answer) in [("4194304", FOUND_ZEROS), ("4194305", TOO_LONG)] {
        let mut input = joined(alloc, &[LONG_HEAD])?;
        input.extend_from_slice(length.as_bytes())?;
        input.extend_from_slice(b"\r\n\r\n")?;
        let body = vec![in alloc; 0u8; 4_194_304]?;
        input.extend_from_slice(&body)?;
        let (status, said) = plain(alloc, &input, 65_536)?;
        assert_eq!(rt; status, 0);
        assert_eq!(rt; said.as_slice(), answer);
    }
    Ok(())
}

#[test]
fn what_is_cut_has_no_answer(rt: HostRuntime) -> Result<(), Fail> {
    let alloc = rt.alloc();
    let cases: [&[u8]; 4] = [
        b"GET /v2/ HTTP/1.1\r\n",
        // a head without its last line feed
        b"GET /v2/ HTTP/1.1\r\nHost: r\r\n\r",
        // a body in chunks, within a chunk
        b"PUT /v2/library/a/manifests/v1 HTTP/1.1\r\nTransfer-Encoding: chunked\r\n\r\n5\r\nabc",
        b"POST /v2/library/a/blobs/uploads/?digest=sha256:ba7816bf8f01cfea414140de5dae2223b00361a396177a9cb410ff61f20015ad HTTP/1.1\r\nContent-Length: 3\r\n\r\nab",
    ];
    for input in cases {
        let (status, said) = plain(alloc, input, 65_536)?;
        assert_eq!(rt; status, 11);
        assert_eq!(rt; said.as_slice(), b"".as_slice());
    }
    Ok(())
}

// Malformed bytes are answered behind the answers of the requests before them, and end the talk.
#[test]
fn what_is_malformed_is_refused(rt: HostRuntime) -> Result<(), Fail> {
    let alloc = rt.alloc();
    let cases: [&[u8]; 26] = [
        // what isn't HTTP
        b"\x16\x03\x01",
        b"\0",
        b" GET",
        b"GE\x01",
        b"GET /\x7f",
        b"GET / HTTP/2",
        b"GET /\xff HTTP/1.1\r\n",
        // headers
        b"GET / HTTP/1.1\r\nA : b\r\n",
        b"GET / HTTP/1.1\r\nA: b\r\n c\r\n",
        b"GET / HTTP/1.1\r\nA: \0",
        // lengths
        b"GET /v2/ HTTP/1.1\r\nContent-Length: 1\r\nContent-Length: 2\r\n\r\n",
        b"GET /v2/ HTTP/1.1\r\nContent-Length: 01\r\n\r\n",
        b"GET /v2/ HTTP/1.1\r\nContent-Length: 3, 3\r\n\r\n",
        b"GET /v2/ HTTP/1.1\r\nContent-Length: +1\r\n\r\n",
        b"GET /v2/ HTTP/1.1\r\nContent-Length:\r\n\r\n",
        b"GET /v2/ HTTP/1.1\r\nContent-Length: 18446744073709551616\r\n\r\n",
        // codings
        b"GET /v2/ HTTP/1.1\r\nContent-Length: 0\r\nTransfer-Encoding: chunked\r\n\r\n",
        b"GET /v2/ HTTP/1.1\r\nTransfer-Encoding: gzip\r\n\r\n",
        b"GET /v2/ HTTP/1.1\r\nTransfer-Encoding: gzip, chunked\r\n\r\n",
        b"GET /v2/ HTTP/1.1\r\nTransfer-Encoding: chunked\r\nTransfer-Encoding: chunked\r\n\r\n",
        // chunks
        b"GET /v2/ HTTP/1.1\r\nTransfer-Encoding: chunked\r\n\r\nx\r\n",
        b"GET /v2/ HTTP/1.1\r\nTransfer-Encoding: chunked\r\n\r\n\r\n",
        b"GET /v2/ HTTP/1.1\r\nTransfer-Encoding: chunked\r\n\r\n00000000000000001",
        b"GET /v2/ HTTP/1.1\r\nTransfer-Encoding: chunked\r\n\r\n1;a\n",
        b"GET /v2/ HTTP/1.1\r\nTransfer-Encoding: chunked\r\n\r\n1\r\nab",
        b"GET /v2/ HTTP/1.1\r\nTransfer-Encoding: chunked\r\n\r\n0\r\nT\n",
    ];
    for input in cases {
        let (status, said) = plain(alloc, input, 65_536)?;
        assert_eq!(rt; status, 11);
        assert_eq!(rt; said.as_slice(), BAD_HEAD);
        let mut behind = joined(alloc, &[b"GET /v2/ HTTP/1.1\r\n\r\n"])?;
        behind.extend_from_slice(input)?;
        let (status, said) = plain(alloc, &behind, 1)?;
        assert_eq!(rt; status, 11);
        assert_eq!(rt;
            said.as_slice(),
            joined(alloc, &[BASE, BAD_HEAD])?.as_slice()
        );
    }
    Ok(())
}

// 100 headers are served, and one more is refused; so is a head of more than 65,536 bytes.
#[test]
fn a_head_above_its_limits_is_refused(rt: HostRuntime) -> Result<(), Fail> {
    let alloc = rt.alloc();
    for (headers, status, answer) in [(100, 0, BASE), (101, 11, HEAD_TOO_LONG)] {
        let mut input = joined(alloc, &[b"GET /v2/ HTTP/1.1\r\n"])?;
        for _ in 0..headers {
            input.extend_from_slice(b"a: b\r\n")?;
        }
        input.extend_from_slice(b"\r\n")?;
        let (ended, said) = plain(alloc, &input, 65_536)?;
        assert_eq!(rt; ended, status, "{headers} headers");
        assert_eq!(rt; said.as_slice(), answer);
    }
    let mut input = joined(alloc, &[b"GET /v2/ HTTP/1.1\r\na: "])?;
    let value = vec![in alloc; b'b'; 65_536]?;
    input.extend_from_slice(&value)?;
    let (ended, said) = plain(alloc, &input, 65_536)?;
    assert_eq!(rt; ended, 11);
    assert_eq!(rt; said.as_slice(), HEAD_TOO_LONG);
    Ok(())
}

// Whether these are the answers of two pushes and two pulls over a store of which these calls fail: one
// of its own, and one of each stage and of each reader, from 1.
fn are_answers_of_failing(
    alloc: Global,
    call: u64,
    append: u64,
    read: u64,
    answers: [&'static [u8]; 4],
) -> Result<bool, Fail> {
    let input = joined(alloc, &[PUSH, PUSH, PULL, PULL])?;
    let store = MemStore::with_scripts(
        alloc,
        vec![in alloc; call]?,
        vec![in alloc; append]?,
        vec![in alloc; read]?,
    );
    let (status, said) = talk(
        alloc,
        &input,
        65_536,
        Vec::new(alloc),
        Vec::new(alloc),
        store,
    )?;
    Ok(status == 0 && said == joined(alloc, &answers)?)
}

#[test]
fn each_storage_call_that_fails_is_answered_and_the_talk_goes_on(
    rt: HostRuntime,
) -> Result<(), Fail> {
    let alloc = rt.alloc();
    // the stages and places of the pushes, and the fetches of the pulls
    assert!(rt; are_answers_of_failing(alloc, 1, 0, 0, [STORAGE, CREATED, PULLED, PULLED])?);
    assert!(rt; are_answers_of_failing(alloc, 2, 0, 0, [STORAGE, CREATED, PULLED, PULLED])?);
    assert!(rt; are_answers_of_failing(alloc, 3, 0, 0, [CREATED, STORAGE, PULLED, PULLED])?);
    assert!(rt; are_answers_of_failing(alloc, 4, 0, 0, [CREATED, STORAGE, PULLED, PULLED])?);
    assert!(rt; are_answers_of_failing(alloc, 5, 0, 0, [CREATED, CREATED, STORAGE, PULLED])?);
    assert!(rt; are_answers_of_failing(alloc, 6, 0, 0, [CREATED, CREATED, PULLED, STORAGE])?);
    // each stage's append, and each reader's read
    assert!(rt; are_answers_of_failing(alloc, 0, 1, 0, [STORAGE, STORAGE, UNKNOWN, UNKNOWN])?);
    assert!(rt; are_answers_of_failing(alloc, 0, 0, 1, [CREATED, CREATED, STORAGE, STORAGE])?);
    Ok(())
}

#[test]
fn a_read_or_a_write_that_fails_ends_the_talk(rt: HostRuntime) -> Result<(), Fail> {
    let alloc = rt.alloc();
    let input = joined(alloc, &[PUSH, PULL])?;
    // The push is whole in the second piece of three, and the fourth read meets the end.
    let cases: [(u64, u64, u8, [&'static [u8]; 2]); 6] = [
        (1, 0, 3, [b"", b""]),
        (2, 0, 3, [b"", b""]),
        (3, 0, 3, [CREATED, b""]),
        (4, 0, 3, [CREATED, PULLED]),
        (0, 1, 4, [b"", b""]),
        (0, 2, 4, [CREATED, b""]),
    ];
    for (read, write, status, answers) in cases {
        let store = MemStore::new(alloc, Vec::new(alloc));
        let reads = vec![in alloc; read]?;
        let writes = vec![in alloc; write]?;
        let (ended, said) = talk(alloc, &input, 100, reads, writes, store)?;
        assert_eq!(rt; ended, status, "read {read}, write {write}");
        assert_eq!(rt; said.as_slice(), joined(alloc, &answers)?.as_slice());
    }
    Ok(())
}

#[test]
fn other_words_are_answered_with_usage(rt: HostRuntime) -> Result<(), Fail> {
    let alloc = rt.alloc();
    let words = vec![in alloc; Text::new(alloc, b"talk")?, Text::new(alloc, b"talk")?]?;
    for count in [0, 2] {
        let mut source = MemSource::new(Vec::new(alloc), Vec::new(alloc), Vec::new(alloc));
        let mut sink = MemSink::new(alloc, 100, Vec::new(alloc))?;
        let store = MemStore::new(alloc, Vec::new(alloc));
        let ended = run(
            alloc,
            &words[..count],
            &mut StepClock::new(5, 1),
            &mut source,
            &mut sink,
            MemKeeper::new(alloc, Vec::new(alloc)),
            store,
        );
        assert_eq!(rt; ended.status, 2);
        assert_eq!(rt; sink.bytes(), b"usage\n".as_slice());
    }
    Ok(())
}

// These requests over this keeper: how it ends, and what was written.
pub(crate) fn over(
    alloc: Global,
    keeper: MemKeeper,
    store: MemStore,
    requests: &[&'static [u8]],
) -> Result<(Ended<MemKeeper, MemStore>, Vec<u8>), Fail>
    requires { IsAtRest (Some keeper.rows) (Some (contents_of store)) }
    ensures { IfOk result (λ made. IsAtRest (Some made.0.keeper.rows) (Some (contents_of made.0.store))) }
{
    let words = vec![in alloc; Text::new(alloc, b"talk")?]?;
    let input = joined(alloc, requests)?;
    let mut source = MemSource::new(input, Vec::new(alloc), Vec::new(alloc));
    let mut sink = MemSink::new(alloc, 10_000, Vec::new(alloc))?;
    let mut clock = StepClock::new(5, 1);
    let ended = run(
        alloc,
        &words,
        &mut clock,
        &mut source,
        &mut sink,
        keeper,
        store,
    );
    Ok((ended, Vec::from_slice(alloc, sink.bytes())?))
}

// The rows of a registry whose one entry makes the project `library`, which says that it uses so much.
fn rows_that_use(alloc: Global, used: u128) -> Result<Rows, Fail> {
    let mut rows = Rows::new(alloc);
    let name = ProjectName::read(alloc, b"library")?;
    rows.set(Row::Project(Project {
        name,
        limit: -1,
        used,
        rules: Rules {
            immutes: ImmuteList::of(Listed::new(alloc)),
            retains: RetainList::of(Listed::new(alloc)),
        },
        version: 1,
    }))?;
    let project = ProjectName::read(alloc, b"library")?;
    rows.set(Row::Entry(Entry {
        number: 1,
        moment: 3,
        kind: EntryKind::ProjectMade { project, limit: -1 },
    }))?;
    Ok(rows)
}

// What a run over rows that don't fit ends with, how many entries they have then, and what was written.
fn refused(alloc: Global, rows: Rows) -> Result<(u8, usize, usize), Fail>
    requires { IsMisfit (Some rows) }
{
    let words = vec![in alloc; Text::new(alloc, b"talk")?]?;
    let input = joined(alloc, &[PUSH, PULL])?;
    let mut source = MemSource::new(input, Vec::new(alloc), Vec::new(alloc));
    let mut sink = MemSink::new(alloc, 10_000, Vec::new(alloc))?;
    let mut clock = StepClock::new(5, 1);
    let keeper = MemKeeper::of(alloc, rows, Vec::new(alloc));
    let store = MemStore::new(alloc, Vec::new(alloc));
    let ended = run(
        alloc,
        &words,
        &mut clock,
        &mut source,
        &mut sink,
        keeper,
        store,
    );
    Ok((
        ended.status,
        ended.keeper.rows().entries().len(),
        sink.bytes().len(),
    ))
}

#[test]
fn rows_that_do_not_fit_end_a_run(rt: HostRuntime) -> Result<(), Fail> {
    let alloc = rt.alloc();
    let rows = rows_that_use(alloc, 1)?;
    match fit(alloc, &rows)? {
        Some(_misfit) => assert_eq!(rt; refused(alloc, rows)?, (8, 1, 0)),
        None => assert_eq!(rt; 0, 8),
    }
    Ok(())
}

// Of a keeper that fails at a call of the start nothing is read; later it works.
#[test]
fn a_keeper_that_fails_ends_a_run(rt: HostRuntime) -> Result<(), Fail> {
    let alloc = rt.alloc();
    for call in [1, 10, 11] {
        let keeper = MemKeeper::new(alloc, vec![in alloc; call]?);
        let (ended, said) = over(
            alloc,
            keeper,
            MemStore::new(alloc, Vec::new(alloc)),
            &[PUSH, PULL],
        )?;
        assert_eq!(rt; ended.status, 5);
        assert_eq!(rt; said.len(), 0);
        let (ended, said) = over(alloc, ended.keeper, ended.store, &[PUSH, PULL])?;
        assert_eq!(rt; ended.status, 0);
        assert_eq!(rt;
            said.as_slice(),
            joined(alloc, &[CREATED, PULLED])?.as_slice()
        );
    }
    Ok(())
}

// Each call of the keeper that a push makes fails once. It is answered, and the talk goes on.
#[test]
fn a_keeper_call_that_fails_is_answered(rt: HostRuntime) -> Result<(), Fail> {
    let alloc = rt.alloc();
    let output = joined(alloc, &[KEEPER, CREATED, PULLED])?;
    for call in 12..24 {
        let keeper = MemKeeper::new(alloc, vec![in alloc; call]?);
        let store = MemStore::new(alloc, Vec::new(alloc));
        let (ended, said) = over(alloc, keeper, store, &[PUSH, PUSH, PULL])?;
        assert_eq!(rt; ended.status, 0);
        assert_eq!(rt; said.as_slice(), output.as_slice(), "at {call}");
    }
    Ok(())
}

// What was acknowledged is there for the next run, which adds no entry for a pull.
#[test]
fn a_run_starts_on_what_another_left(rt: HostRuntime) -> Result<(), Fail> {
    let alloc = rt.alloc();
    let keeper = MemKeeper::new(alloc, Vec::new(alloc));
    let store = MemStore::new(alloc, Vec::new(alloc));
    let (first, _said) = over(alloc, keeper, store, &[PUSH, PULL])?;
    assert_eq!(rt; first.status, 0);
    assert_eq!(rt; first.keeper.rows().entries().len(), 4);
    let (second, said) = over(alloc, first.keeper, first.store, &[PULL])?;
    assert_eq!(rt; second.status, 0);
    assert_eq!(rt; said.as_slice(), PULLED);
    assert_eq!(rt; second.keeper.rows().entries().len(), 4);
    assert_eq!(rt; second.keeper.rows().projects().len(), 1);
    Ok(())
}
