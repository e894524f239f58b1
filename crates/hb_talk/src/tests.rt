//! Connections over a world in memory, with ample memory.
use crate::{TalkEnd, longest_body, talk};
use hb_desk::Desk;
use hb_keeper::MemKeeper;
use hb_outside::{MemSink, MemSource, StepClock};
use hb_store::MemStore;
use hb_world::{World, empty_devices_are_at_rest};
use std::alloc::Global;
use std::process::Abort;
use std::test::Fail;

pub(crate) type MemWorld = World<MemKeeper, MemStore>;

const MANIFEST: &[u8] =
    b"{\"schemaVersion\":2,\"config\":{\"digest\":\"sha256:44136fa355b3678a1146ad16f7e8649e94fb4fc21fe77e8310c060f61caaff8a\",\"size\":2},\"layers\":[{\"digest\":\"sha256:ba7816bf8f01cfea414140de5dae2223b00361a396177a9cb410ff61f20015ad\",\"size\":3},{\"digest\":\"sha256:e3b0c44298fc1c149afbf4c8996fb92427ae41e4649b934ca495991b7852b855\",\"size\":0}],\"annotations\":{\"a\":\"b\"},\"unknown\":1}";

// Pushes `{}`.
pub(crate) const PUSH_CONFIG: &[u8] =
    b"POST /v2/library/a/blobs/uploads/?digest=sha256%3A44136fa355b3678a1146ad16f7e8649e94fb4fc21fe77e8310c060f61caaff8a HTTP/1.1\r\nHost: r\r\nContent-Length: 2\r\n\r\n{}";

pub(crate) const PUSH_ABC: &[u8] =
    b"POST /v2/library/a/blobs/uploads/?digest=sha256%3Aba7816bf8f01cfea414140de5dae2223b00361a396177a9cb410ff61f20015ad HTTP/1.1\r\nHost: r\r\nContent-Length: 3\r\n\r\nabc";

pub(crate) const PUSH_NOTHING: &[u8] =
    b"POST /v2/library/a/blobs/uploads/?digest=sha256%3Ae3b0c44298fc1c149afbf4c8996fb92427ae41e4649b934ca495991b7852b855 HTTP/1.1\r\nHost: r\r\nContent-Length: 0\r\n\r\n";

// Puts a manifest that refers to all three.
pub(crate) const PUT_MANIFEST: &[u8] =
    b"PUT /v2/library/a/manifests/v1 HTTP/1.1\r\nHost: r\r\nContent-Type: application/vnd.oci.image.manifest.v1+json\r\nContent-Length: 357\r\n\r\n{\"schemaVersion\":2,\"config\":{\"digest\":\"sha256:44136fa355b3678a1146ad16f7e8649e94fb4fc21fe77e8310c060f61caaff8a\",\"size\":2},\"layers\":[{\"digest\":\"sha256:ba7816bf8f01cfea414140de5dae2223b00361a396177a9cb410ff61f20015ad\",\"size\":3},{\"digest\":\"sha256:e3b0c44298fc1c149afbf4c8996fb92427ae41e4649b934ca495991b7852b855\",\"size\":0}],\"annotations\":{\"a\":\"b\"},\"unknown\":1}";

// The same, their bodies in chunks.
const PUSH_ABC_IN_CHUNKS: &[u8] =
    b"POST /v2/library/a/blobs/uploads/?digest=sha256%3Aba7816bf8f01cfea414140de5dae2223b00361a396177a9cb410ff61f20015ad HTTP/1.1\r\nTransfer-Encoding: Chunked\r\n\r\n01\r\na\r\n2;name=value\r\nbc\r\n0\r\nTrailer: value\r\n\r\n";

const PUT_IN_CHUNKS: &[u8] =
    b"PUT /v2/library/a/manifests/v1 HTTP/1.1\r\nContent-Type: application/vnd.oci.image.manifest.v1+json\r\nTransfer-Encoding: chunked\r\n\r\n1\r\n{\r\n11\r\n\"schemaVersion\":2\r\n52\r\n,\"config\":{\"digest\":\"sha256:44136fa355b3678a1146ad16f7e8649e94fb4fc21fe77e8310c060\r\n101\r\nf61caaff8a\",\"size\":2},\"layers\":[{\"digest\":\"sha256:ba7816bf8f01cfea414140de5dae2223b00361a396177a9cb410ff61f20015ad\",\"size\":3},{\"digest\":\"sha256:e3b0c44298fc1c149afbf4c8996fb92427ae41e4649b934ca495991b7852b855\",\"size\":0}],\"annotations\":{\"a\":\"b\"},\"unknown\":1}\r\n0\r\n\r\n";

pub(crate) const GET_TAG: &[u8] =
    b"GET /v2/library/a/manifests/v1 HTTP/1.1\r\nHost: r\r\nContent-Length: 0\r\n\r\n";

const GET_DIGEST: &[u8] =
    b"GET /v2/library/a/manifests/sha256:9f0545606529702c3c00fe4dcc12aa9f6a01d0e1865e177c9f9f46da1121fbed HTTP/1.1\r\nHost: r\r\nContent-Length: 0\r\n\r\n";

pub(crate) const GET_ABC: &[u8] =
    b"GET /v2/library/a/blobs/sha256:ba7816bf8f01cfea414140de5dae2223b00361a396177a9cb410ff61f20015ad HTTP/1.1\r\nHost: r\r\n\r\n";

pub(crate) const CREATED_CONFIG: &[u8] =
    b"HTTP/1.1 201 Created\r\nContent-Length: 0\r\nDocker-Content-Digest: sha256:44136fa355b3678a1146ad16f7e8649e94fb4fc21fe77e8310c060f61caaff8a\r\nLocation: /v2/library/a/blobs/sha256:44136fa355b3678a1146ad16f7e8649e94fb4fc21fe77e8310c060f61caaff8a\r\n\r\n";

pub(crate) const CREATED_ABC: &[u8] =
    b"HTTP/1.1 201 Created\r\nContent-Length: 0\r\nDocker-Content-Digest: sha256:ba7816bf8f01cfea414140de5dae2223b00361a396177a9cb410ff61f20015ad\r\nLocation: /v2/library/a/blobs/sha256:ba7816bf8f01cfea414140de5dae2223b00361a396177a9cb410ff61f20015ad\r\n\r\n";

pub(crate) const CREATED_NOTHING: &[u8] =
    b"HTTP/1.1 201 Created\r\nContent-Length: 0\r\nDocker-Content-Digest: sha256:e3b0c44298fc1c149afbf4c8996fb92427ae41e4649b934ca495991b7852b855\r\nLocation: /v2/library/a/blobs/sha256:e3b0c44298fc1c149afbf4c8996fb92427ae41e4649b934ca495991b7852b855\r\n\r\n";

pub(crate) const CREATED_MANIFEST: &[u8] =
    b"HTTP/1.1 201 Created\r\nContent-Length: 0\r\nDocker-Content-Digest: sha256:9f0545606529702c3c00fe4dcc12aa9f6a01d0e1865e177c9f9f46da1121fbed\r\nLocation: /v2/library/a/manifests/sha256:9f0545606529702c3c00fe4dcc12aa9f6a01d0e1865e177c9f9f46da1121fbed\r\n\r\n";

pub(crate) const GOT_MANIFEST: &[u8] =
    b"HTTP/1.1 200 OK\r\nContent-Length: 357\r\nContent-Type: application/vnd.oci.image.manifest.v1+json\r\nDocker-Content-Digest: sha256:9f0545606529702c3c00fe4dcc12aa9f6a01d0e1865e177c9f9f46da1121fbed\r\n\r\n{\"schemaVersion\":2,\"config\":{\"digest\":\"sha256:44136fa355b3678a1146ad16f7e8649e94fb4fc21fe77e8310c060f61caaff8a\",\"size\":2},\"layers\":[{\"digest\":\"sha256:ba7816bf8f01cfea414140de5dae2223b00361a396177a9cb410ff61f20015ad\",\"size\":3},{\"digest\":\"sha256:e3b0c44298fc1c149afbf4c8996fb92427ae41e4649b934ca495991b7852b855\",\"size\":0}],\"annotations\":{\"a\":\"b\"},\"unknown\":1}";

pub(crate) const GOT_ABC: &[u8] =
    b"HTTP/1.1 200 OK\r\nContent-Length: 3\r\nContent-Type: application/octet-stream\r\nDocker-Content-Digest: sha256:ba7816bf8f01cfea414140de5dae2223b00361a396177a9cb410ff61f20015ad\r\n\r\nabc";

const MISSING_CONFIG: &[u8] =
    b"HTTP/1.1 404 Not Found\r\nContent-Length: 173\r\nContent-Type: application/json\r\n\r\n{\"errors\":[{\"code\":\"MANIFEST_BLOB_UNKNOWN\",\"detail\":{\"digest\":\"sha256:44136fa355b3678a1146ad16f7e8649e94fb4fc21fe77e8310c060f61caaff8a\"},\"message\":\"manifest blob unknown\"}]}";

const MISSING_NOTHING: &[u8] =
    b"HTTP/1.1 404 Not Found\r\nContent-Length: 173\r\nContent-Type: application/json\r\n\r\n{\"errors\":[{\"code\":\"MANIFEST_BLOB_UNKNOWN\",\"detail\":{\"digest\":\"sha256:e3b0c44298fc1c149afbf4c8996fb92427ae41e4649b934ca495991b7852b855\"},\"message\":\"manifest blob unknown\"}]}";

const NO_BLOB: &[u8] =
    b"HTTP/1.1 404 Not Found\r\nContent-Length: 73\r\nContent-Type: application/json\r\n\r\n{\"errors\":[{\"code\":\"BLOB_UNKNOWN\",\"detail\":{},\"message\":\"blob unknown\"}]}";

const NO_NAME: &[u8] =
    b"HTTP/1.1 404 Not Found\r\nContent-Length: 73\r\nContent-Type: application/json\r\n\r\n{\"errors\":[{\"code\":\"NAME_UNKNOWN\",\"detail\":{},\"message\":\"name unknown\"}]}";

const NO_MANIFEST: &[u8] =
    b"HTTP/1.1 404 Not Found\r\nContent-Length: 81\r\nContent-Type: application/json\r\n\r\n{\"errors\":[{\"code\":\"MANIFEST_UNKNOWN\",\"detail\":{},\"message\":\"manifest unknown\"}]}";

const FOUND_ABC: &[u8] =
    b"HTTP/1.1 400 Bad Request\r\nContent-Length: 158\r\nContent-Type: application/json\r\n\r\n{\"errors\":[{\"code\":\"DIGEST_INVALID\",\"detail\":{\"found\":\"sha256:ba7816bf8f01cfea414140de5dae2223b00361a396177a9cb410ff61f20015ad\"},\"message\":\"digest invalid\"}]}";

const FOUND_MANIFEST: &[u8] =
    b"HTTP/1.1 400 Bad Request\r\nContent-Length: 158\r\nContent-Type: application/json\r\n\r\n{\"errors\":[{\"code\":\"DIGEST_INVALID\",\"detail\":{\"found\":\"sha256:9f0545606529702c3c00fe4dcc12aa9f6a01d0e1865e177c9f9f46da1121fbed\"},\"message\":\"digest invalid\"}]}";

const BAD_MANIFEST: &[u8] =
    b"HTTP/1.1 400 Bad Request\r\nContent-Length: 81\r\nContent-Type: application/json\r\n\r\n{\"errors\":[{\"code\":\"MANIFEST_INVALID\",\"detail\":{},\"message\":\"manifest invalid\"}]}";

const UNSUPPORTED: &[u8] =
    b"HTTP/1.1 404 Not Found\r\nContent-Length: 71\r\nContent-Type: application/json\r\n\r\n{\"errors\":[{\"code\":\"UNSUPPORTED\",\"detail\":{},\"message\":\"unsupported\"}]}";

const UNSUPPORTED_LAST: &[u8] =
    b"HTTP/1.1 404 Not Found\r\nConnection: close\r\nContent-Length: 71\r\nContent-Type: application/json\r\n\r\n{\"errors\":[{\"code\":\"UNSUPPORTED\",\"detail\":{},\"message\":\"unsupported\"}]}";

const TOO_LONG: &[u8] =
    b"HTTP/1.1 413 Payload Too Large\r\nConnection: close\r\nContent-Length: 73\r\nContent-Type: application/json\r\n\r\n{\"errors\":[{\"code\":\"SIZE_INVALID\",\"detail\":{},\"message\":\"size invalid\"}]}";

const TOO_LONG_HEAD: &[u8] =
    b"HTTP/1.1 413 Payload Too Large\r\nConnection: close\r\nContent-Length: 73\r\nContent-Type: application/json\r\n\r\n";

const NO_METHOD: &[u8] =
    b"HTTP/1.1 405 Method Not Allowed\r\nContent-Length: 71\r\nContent-Type: application/json\r\n\r\n{\"errors\":[{\"code\":\"UNSUPPORTED\",\"detail\":{},\"message\":\"unsupported\"}]}";

const BAD_NAME: &[u8] =
    b"HTTP/1.1 400 Bad Request\r\nContent-Length: 73\r\nContent-Type: application/json\r\n\r\n{\"errors\":[{\"code\":\"NAME_INVALID\",\"detail\":{},\"message\":\"name invalid\"}]}";

const BAD_DIGEST: &[u8] =
    b"HTTP/1.1 400 Bad Request\r\nContent-Length: 77\r\nContent-Type: application/json\r\n\r\n{\"errors\":[{\"code\":\"DIGEST_INVALID\",\"detail\":{},\"message\":\"digest invalid\"}]}";

const BASE: &[u8] =
    b"HTTP/1.1 200 OK\r\nContent-Length: 2\r\nContent-Type: application/json\r\n\r\n{}";

const KEEPER: &[u8] =
    b"HTTP/1.1 500 Internal Server Error\r\nContent-Length: 61\r\nContent-Type: application/json\r\n\r\n{\"errors\":[{\"code\":\"KEEPER\",\"detail\":{},\"message\":\"keeper\"}]}";

const STORAGE: &[u8] =
    b"HTTP/1.1 500 Internal Server Error\r\nContent-Length: 63\r\nContent-Type: application/json\r\n\r\n{\"errors\":[{\"code\":\"STORAGE\",\"detail\":{},\"message\":\"storage\"}]}";

// A world on new devices, of whose calls these fail. Its start makes 11 calls of the keeper.
pub(crate) fn world(
    alloc: Global,
    keeper_fails: &[u64],
    store_fails: &[u64],
) -> Result<MemWorld, Fail> {
    empty_devices_are_at_rest();
    let keeper = MemKeeper::new(alloc, keeper_fails.to_vec(alloc)?);
    let store = MemStore::new(alloc, store_fails.to_vec(alloc)?);
    match World::start(alloc, keeper, store, 5) {
        Ok(world) => Ok(world),
        Err(refused) => Err(refused.fault)?,
    }
}

pub(crate) fn joined(alloc: Global, pieces: &[&'static [u8]]) -> Result<Vec<u8>, Fail> {
    let mut text = Vec::new(alloc);
    for piece in pieces {
        text.extend_from_slice(piece)?;
    }
    Ok(text)
}

// Talks over a desk, to which the input comes in pieces of so many bytes: how it ends, and what is answered.
pub(crate) fn answered<D: Desk>(
    alloc: Global,
    desk: &mut D,
    input: &[u8],
    cut: usize,
) -> Result<(TalkEnd, Vec<u8>), Fail> {
    let cuts = vec![in alloc; cut; 3_000]?;
    let mut source = MemSource::new(Vec::from_slice(alloc, input)?, cuts, Vec::new(alloc));
    let mut sink = MemSink::new(alloc, 20_000, Vec::new(alloc))?;
    let end = talk(
        alloc,
        desk,
        &mut StepClock::new(5, 1),
        &mut source,
        &mut sink,
    );
    Ok((end, Vec::from_slice(alloc, sink.bytes())?))
}

// The same where the input comes at once, over a world of whose devices these calls fail.
fn plain(
    alloc: Global,
    keeper_fails: &[u64],
    store_fails: &[u64],
    input: &[u8],
) -> Result<(TalkEnd, Vec<u8>), Fail> {
    let mut desk = world(alloc, keeper_fails, store_fails)?;
    answered(alloc, &mut desk, input, 65_536)
}

// Pushes an image of three blobs, and pulls it by its tag and by its digest.
#[test]
fn an_image_is_pushed_and_pulled(rt: HostRuntime) -> Result<(), Fail> {
    let alloc = rt.alloc();
    let input = joined(
        alloc,
        &[
            PUSH_CONFIG,
            PUSH_ABC,
            PUSH_NOTHING,
            PUT_MANIFEST,
            GET_TAG,
            GET_DIGEST,
            GET_ABC,
        ],
    )?;
    let output = joined(
        alloc,
        &[
            CREATED_CONFIG,
            CREATED_ABC,
            CREATED_NOTHING,
            CREATED_MANIFEST,
            GOT_MANIFEST,
            GOT_MANIFEST,
            GOT_ABC,
        ],
    )?;
    for cut in [1, 100, 65_536] {
        let mut desk = world(alloc, &[], &[])?;
        let (end, said) = answered(alloc, &mut desk, &input, cut)?;
        assert_eq!(rt; end, TalkEnd::Closed);
        assert_eq!(rt; said.as_slice(), output.as_slice(), "pieces of {cut}");
    }
    Ok(())
}

// What a registry without a blob answers.
#[test]
fn each_refusal_has_its_answer(rt: HostRuntime) -> Result<(), Fail> {
    let alloc = rt.alloc();
    let cases: [(&[u8], &[u8]); 18] = [
        // another digest than the body's
        (
            b"POST /v2/library/a/blobs/uploads/?digest=sha256%3Ae3b0c44298fc1c149afbf4c8996fb92427ae41e4649b934ca495991b7852b855 HTTP/1.1\r\nHost: r\r\nContent-Length: 3\r\n\r\nabc",
            FOUND_ABC,
        ),
        (
            b"GET /v2/library/a/blobs/sha256:ba7816bf8f01cfea414140de5dae2223b00361a396177a9cb410ff61f20015ad HTTP/1.1\r\nHost: r\r\nContent-Length: 0\r\n\r\n",
            NO_BLOB,
        ),
        // a project that isn't there
        (
            b"GET /v2/other/a/blobs/sha256:ba7816bf8f01cfea414140de5dae2223b00361a396177a9cb410ff61f20015ad HTTP/1.1\r\nHost: r\r\nContent-Length: 0\r\n\r\n",
            NO_NAME,
        ),
        (
            b"POST /v2/other/a/blobs/uploads/?digest=sha256%3Aba7816bf8f01cfea414140de5dae2223b00361a396177a9cb410ff61f20015ad HTTP/1.1\r\nHost: r\r\nContent-Length: 3\r\n\r\nabc",
            NO_NAME,
        ),
        (GET_TAG, NO_MANIFEST),
        // what the manifest refers to isn't there
        (PUT_MANIFEST, MISSING_CONFIG),
        // another digest than the manifest's
        (
            b"PUT /v2/library/a/manifests/sha256:e3b0c44298fc1c149afbf4c8996fb92427ae41e4649b934ca495991b7852b855 HTTP/1.1\r\nHost: r\r\nContent-Type: application/vnd.oci.image.manifest.v1+json\r\nContent-Length: 357\r\n\r\n{\"schemaVersion\":2,\"config\":{\"digest\":\"sha256:44136fa355b3678a1146ad16f7e8649e94fb4fc21fe77e8310c060f61caaff8a\",\"size\":2},\"layers\":[{\"digest\":\"sha256:ba7816bf8f01cfea414140de5dae2223b00361a396177a9cb410ff61f20015ad\",\"size\":3},{\"digest\":\"sha256:e3b0c44298fc1c149afbf4c8996fb92427ae41e4649b934ca495991b7852b855\",\"size\":0}],\"annotations\":{\"a\":\"b\"},\"unknown\":1}",
            FOUND_MANIFEST,
        ),
        // no manifest
        (
            b"PUT /v2/library/a/manifests/v1 HTTP/1.1\r\nHost: r\r\nContent-Type: application/vnd.oci.image.manifest.v1+json\r\nContent-Length: 1\r\n\r\n[",
            BAD_MANIFEST,
        ),
        // a type that no manifest has
        (
            b"PUT /v2/library/a/manifests/v1 HTTP/1.1\r\nHost: r\r\nContent-Type: text/plain\r\nContent-Length: 2\r\n\r\n{}",
            BAD_MANIFEST,
        ),
        // a registry
        (b"GET /v2/ HTTP/1.1\r\n\r\n", BASE),
        // what isn't built yet, whose body is read
        (
            b"POST /harbor/jobs?kind=collect HTTP/1.1\r\nHost: r\r\nContent-Length: 3\r\n\r\nabc",
            UNSUPPORTED,
        ),
        // a HEAD, whose answer has no body
        (
            b"HEAD /v2/library/a/manifests/v1 HTTP/1.1\r\n\r\nGET /v2/ HTTP/1.1\r\n\r\n",
            b"HTTP/1.1 404 Not Found\r\nContent-Length: 81\r\nContent-Type: application/json\r\n\r\nHTTP/1.1 200 OK\r\nContent-Length: 2\r\nContent-Type: application/json\r\n\r\n{}",
        ),
        // no path
        (b"GET /v3/ HTTP/1.1\r\n\r\n", UNSUPPORTED),
        // no method of the path
        (b"PUT /v2/ HTTP/1.1\r\n\r\n", NO_METHOD),
        // no name
        (
            b"GET /v2/A/blobs/sha256:ba7816bf8f01cfea414140de5dae2223b00361a396177a9cb410ff61f20015ad HTTP/1.1\r\n\r\n",
            BAD_NAME,
        ),
        // no tag
        (
            b"GET /v2/library/a/manifests/- HTTP/1.1\r\n\r\n",
            BAD_MANIFEST,
        ),
        // no digest
        (
            b"GET /v2/library/a/blobs/sha256:0 HTTP/1.1\r\n\r\n",
            BAD_DIGEST,
        ),
        // a head that asks to close, and what stands behind it isn't answered
        (
            b"GET /v3/ HTTP/1.1\r\nConnection: close\r\n\r\nGET /v2/ HTTP/1.1\r\n\r\n",
            UNSUPPORTED_LAST,
        ),
    ];
    for (input, output) in cases {
        let (end, said) = plain(alloc, &[], &[], input)?;
        assert_eq!(rt; end, TalkEnd::Closed);
        assert_eq!(rt; said.as_slice(), output);
    }
    Ok(())
}

// Bodies in chunks are read like those by length.
#[test]
fn an_image_is_pushed_in_chunks(rt: HostRuntime) -> Result<(), Fail> {
    let alloc = rt.alloc();
    let input = joined(
        alloc,
        &[
            PUSH_CONFIG,
            PUSH_ABC_IN_CHUNKS,
            PUSH_NOTHING,
            PUT_IN_CHUNKS,
            GET_TAG,
            GET_ABC,
        ],
    )?;
    let output = joined(
        alloc,
        &[
            CREATED_CONFIG,
            CREATED_ABC,
            CREATED_NOTHING,
            CREATED_MANIFEST,
            GOT_MANIFEST,
            GOT_ABC,
        ],
    )?;
    for cut in [1, 7, 65_536] {
        let mut desk = world(alloc, &[], &[])?;
        let (end, said) = answered(alloc, &mut desk, &input, cut)?;
        assert_eq!(rt; end, TalkEnd::Closed);
        assert_eq!(rt; said.as_slice(), output.as_slice(), "pieces of {cut}");
    }
    Ok(())
}

// A head that tells too long a body is answered at once, whatever its route, and nothing behind it is read.
#[test]
fn a_body_above_the_limit_is_refused(rt: HostRuntime) -> Result<(), Fail> {
    longest_body();
    let alloc = rt.alloc();
    let cases: [(&[u8], &[u8]); 3] = [
        (
            b"PUT /v2/library/a/manifests/v1 HTTP/1.1\r\nContent-Length: 4194305\r\n\r\n",
            TOO_LONG,
        ),
        (
            b"PUT /v2/ HTTP/1.1\r\nContent-Length: 4194305\r\n\r\nGET /v2/ HTTP/1.1\r\n\r\n",
            TOO_LONG,
        ),
        (
            b"HEAD /v2/library/a/manifests/v1 HTTP/1.1\r\nContent-Length: 4194305\r\n\r\n",
            TOO_LONG_HEAD,
        ),
    ];
    for (input, output) in cases {
        let (end, said) = plain(alloc, &[], &[], input)?;
        assert_eq!(rt; end, TalkEnd::Closed);
        assert_eq!(rt; said.as_slice(), output);
    }
    Ok(())
}

// A manifest is put where all that it refers to is there.
#[test]
fn a_manifest_waits_for_its_blobs(rt: HostRuntime) -> Result<(), Fail> {
    let alloc = rt.alloc();
    let input = joined(
        alloc,
        &[
            PUSH_CONFIG,
            PUSH_ABC,
            PUT_MANIFEST,
            PUSH_NOTHING,
            PUT_MANIFEST,
        ],
    )?;
    let output = joined(
        alloc,
        &[
            CREATED_CONFIG,
            CREATED_ABC,
            MISSING_NOTHING,
            CREATED_NOTHING,
            CREATED_MANIFEST,
        ],
    )?;
    let (end, said) = plain(alloc, &[], &[], &input)?;
    assert_eq!(rt; end, TalkEnd::Closed);
    assert_eq!(rt; said.as_slice(), output.as_slice());
    Ok(())
}

// Each call of the keeper and of the store that a push makes fails once. It is answered, and the talk goes on.
#[test]
fn a_device_that_fails_is_answered(rt: HostRuntime) -> Result<(), Fail> {
    let alloc = rt.alloc();
    let input = joined(alloc, &[PUSH_ABC, PUSH_ABC, GET_ABC])?;
    let keeper = joined(alloc, &[KEEPER, CREATED_ABC, GOT_ABC])?;
    for call in 12..24 {
        let (end, said) = plain(alloc, &[call], &[], &input)?;
        assert_eq!(rt; end, TalkEnd::Closed);
        assert_eq!(rt; said.as_slice(), keeper.as_slice(), "at {call}");
    }
    let storage = joined(alloc, &[STORAGE, CREATED_ABC, GOT_ABC])?;
    for call in 1..3 {
        let (end, said) = plain(alloc, &[], &[call], &input)?;
        assert_eq!(rt; end, TalkEnd::Closed);
        assert_eq!(rt; said.as_slice(), storage.as_slice(), "at {call}");
    }
    Ok(())
}
