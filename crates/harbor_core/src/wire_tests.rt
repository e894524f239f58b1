//! Hostile and odd requests through the whole program, whole answers compared.
ghost use Rattle.hb_rows.specs.Tables.{empty_tables};

use crate::tests::{
    BASE, CREATED, CREATED_CONFIG, FOUND_ZEROS, PULLED, PUSH, PUSH_CONFIG, TOO_LONG, joined, over,
    plain,
};
use hb_keeper::MemKeeper;
use hb_store::MemStore;
use hb_text::Digest;
use std::alloc::Global;
use std::test::Fail;

const UNKNOWN_PATH: &[u8] =
    b"HTTP/1.1 404 Not Found\r\nContent-Length: 71\r\nContent-Type: application/json\r\n\r\n{\"errors\":[{\"code\":\"UNSUPPORTED\",\"detail\":{},\"message\":\"unsupported\"}]}";

const OTHER_METHOD: &[u8] =
    b"HTTP/1.1 405 Method Not Allowed\r\nContent-Length: 71\r\nContent-Type: application/json\r\n\r\n{\"errors\":[{\"code\":\"UNSUPPORTED\",\"detail\":{},\"message\":\"unsupported\"}]}";

const NAME_INVALID: &[u8] =
    b"HTTP/1.1 400 Bad Request\r\nContent-Length: 73\r\nContent-Type: application/json\r\n\r\n{\"errors\":[{\"code\":\"NAME_INVALID\",\"detail\":{},\"message\":\"name invalid\"}]}";

const MANIFEST_INVALID: &[u8] =
    b"HTTP/1.1 400 Bad Request\r\nContent-Length: 81\r\nContent-Type: application/json\r\n\r\n{\"errors\":[{\"code\":\"MANIFEST_INVALID\",\"detail\":{},\"message\":\"manifest invalid\"}]}";

const DIGEST_INVALID: &[u8] =
    b"HTTP/1.1 400 Bad Request\r\nContent-Length: 77\r\nContent-Type: application/json\r\n\r\n{\"errors\":[{\"code\":\"DIGEST_INVALID\",\"detail\":{},\"message\":\"digest invalid\"}]}";

// A request with a body of this method and target.
fn request(alloc: Global, method: &'static [u8], target: &'static [u8]) -> Result<Vec<u8>, Fail> {
    joined(
        alloc,
        &[
            method,
            b" ",
            target,
            b" HTTP/1.1\r\nHost: r\r\nContent-Length: 3\r\n\r\nabc",
        ],
    )
}

// Whether it is answered so, its body dropped, and what comes behind it answered too, however the bytes are cut.
fn is_refused(
    alloc: Global,
    method: &'static [u8],
    target: &'static [u8],
    answer: &'static [u8],
) -> Result<bool, Fail> {
    let mut input = request(alloc, method, target)?;
    input.extend_from_slice(b"GET /v2/ HTTP/1.1\r\n\r\n")?;
    let output = joined(alloc, &[answer, BASE])?;
    let (status, said) = plain(alloc, &input, 65_536)?;
    let (again, same) = plain(alloc, &input, 7)?;
    Ok(status == 0 && said == output && again == 0 && same == output)
}

// Whatever their method and their names are: the path comes first.
#[test]
fn unknown_paths_are_refused(rt: HostRuntime) -> Result<(), Fail> {
    let alloc = rt.alloc();
    let cases: [(&'static [u8], &'static [u8]); 28] = [
        (b"BREW", b"/"),
        (b"BREW", b"*"),
        (b"BREW", b"?"),
        (b"BREW", b"/v2"),
        (b"BREW", b"v2/"),
        (b"BREW", b"//v2/"),
        (b"BREW", b"/v2//"),
        (b"BREW", b"/V2/"),
        (b"BREW", b"/v1/"),
        (b"BREW", b"/v2/library"),
        (b"BREW", b"/v2/_catalog"),
        (b"BREW", b"/v2/library/a/tags"),
        (b"BREW", b"/v2/library/a/tags/list/"),
        (b"BREW", b"/v2/library/a/tags/list%2F"),
        (b"BREW", b"/v2/library/a/tags/lists"),
        (b"BREW", b"/v2/library/a/uploads/7"),
        (b"BREW", b"/v2/library/a/blobs"),
        (b"BREW", b"/v2/library/a/%62lobs/x"),
        (b"BREW", b"http://h/v2/"),
        (b"BREW", b"/harbor"),
        (b"BREW", b"/harbor/"),
        (b"BREW", b"/harbor/projects"),
        (b"BREW", b"/harbor/projects/"),
        (b"BREW", b"/harbor/projects//rules"),
        (b"BREW", b"/harbor/projects/a/rules/"),
        (b"BREW", b"/harbor/jobs/"),
        (b"BREW", b"/harbor/jobs/7/"),
        (b"BREW", b"/v2/Library/A"),
    ];
    for (method, target) in cases {
        assert!(rt; is_refused(alloc, method, target, UNKNOWN_PATH)?);
    }
    Ok(())
}

// Whatever their names are: the method comes before them.
#[test]
fn other_methods_are_refused(rt: HostRuntime) -> Result<(), Fail> {
    let alloc = rt.alloc();
    let cases: [(&'static [u8], &'static [u8]); 14] = [
        (b"get", b"/v2/"),
        (b"POST", b"/v2/tags/list"),
        (b"GET", b"/v2/library/a/blobs/uploads/"),
        (b"DELETE", b"/v2/library/a/blobs/uploads/7"),
        (b"POST", b"/v2/library/a/blobs/uploads/7"),
        (b"DELETE", b"/v2/A/blobs/x"),
        (b"PATCH", b"/v2/library/a/manifests/latest"),
        (b"POST", b"/harbor/projects/A"),
        (b"GET", b"/harbor/projects/A/rules"),
        (b"GET", b"/harbor/jobs"),
        (b"PUT", b"/harbor/jobs"),
        (b"POST", b"/harbor/jobs/7"),
        (b"patch", b"/v2/library/a/blobs/uploads/7"),
        (b"BREW", b"/v2/A/manifests/-"),
    ];
    for (method, target) in cases {
        assert!(rt; is_refused(alloc, method, target, OTHER_METHOD)?);
    }
    Ok(())
}

// Whatever stands behind them: a name comes before a tag and a digest.
#[test]
fn invalid_names_are_refused(rt: HostRuntime) -> Result<(), Fail> {
    let alloc = rt.alloc();
    let cases: [(&'static [u8], &'static [u8]); 16] = [
        (b"GET", b"/v2/tags/list"),
        (b"GET", b"/v2//tags/list"),
        (b"GET", b"/v2/a/tags/list"),
        (b"GET", b"/v2/a//b/tags/list"),
        (b"GET", b"/v2/./a/tags/list"),
        (b"GET", b"/v2/a/../b/tags/list"),
        (b"GET", b"/v2/library%2Fa/tags/list"),
        (b"GET", b"/v2/Library/a/tags/list"),
        (b"GET", b"/v2/library/\xc3\xa9/tags/list"),
        (b"POST", b"/v2/blobs/uploads/"),
        (b"PUT", b"/v2/blobs/uploads/x?digest=x"),
        (b"GET", b"/v2/blobs/x"),
        (b"GET", b"/v2/manifests/-"),
        (b"GET", b"/harbor/projects/A"),
        (b"PUT", b"/harbor/projects/%61?limit=x"),
        (b"PUT", b"/harbor/projects/a..b/rules"),
    ];
    for (method, target) in cases {
        assert!(rt; is_refused(alloc, method, target, NAME_INVALID)?);
    }
    Ok(())
}

// A tag outside its grammar.
#[test]
fn invalid_tags_are_refused(rt: HostRuntime) -> Result<(), Fail> {
    let alloc = rt.alloc();
    let cases: [(&'static [u8], &'static [u8]); 4] = [
        (b"GET", b"/v2/library/a/manifests/"),
        (b"GET", b"/v2/library/a/manifests/.a"),
        (b"GET", b"/v2/library/a/manifests/a%2E"),
        (
            b"GET",
            b"/v2/library/a/manifests/ZZZZZZZZZZZZZZZZZZZZZZZZZZZZZZZZZZZZZZZZZZZZZZZZZZZZZZZZZZZZZZZZZZZZZZZZZZZZZZZZZZZZZZZZZZZZZZZZZZZZZZZZZZZZZZZZZZZZZZZZZZZZZZZZZ",
        ),
    ];
    for (method, target) in cases {
        assert!(rt; is_refused(alloc, method, target, MANIFEST_INVALID)?);
    }
    Ok(())
}

// A digest outside its grammar, in the path and in the query.
#[test]
fn invalid_digests_are_refused(rt: HostRuntime) -> Result<(), Fail> {
    let alloc = rt.alloc();
    let cases: [(&'static [u8], &'static [u8]); 13] = [
        (b"GET", b"/v2/library/a/blobs/"),
        (b"GET", b"/v2/library/a/manifests/a:b"),
        (b"GET", b"/v2/library/a/manifests/:"),
        (b"GET", b"/v2/library/a/blobs/uploads"),
        (
            b"GET",
            b"/v2/library/a/blobs/sha256:BA7816BF8F01CFEA414140DE5DAE2223B00361A396177A9CB410FF61F20015AD",
        ),
        (
            b"GET",
            b"/v2/library/a/blobs/sha256%3Aba7816bf8f01cfea414140de5dae2223b00361a396177a9cb410ff61f20015ad",
        ),
        (b"GET", b"/v2/library/blobs/uploads/x/blobs/sha256:x"),
        (b"POST", b"/v2/library/a/blobs/uploads/?digest"),
        (
            b"POST",
            b"/v2/library/a/blobs/uploads/?digest=&digest=sha256:ba7816bf8f01cfea414140de5dae2223b00361a396177a9cb410ff61f20015ad",
        ),
        (
            b"POST",
            b"/v2/library/a/blobs/uploads/?digest=sha256%3Aba7816bf8f01cfea414140de5dae2223b00361a396177a9cb410ff61f20015ad%zz",
        ),
        (
            b"POST",
            b"/v2/library/a/blobs/uploads/?mount=x&digest=sha256:ba7816bf8f01cfea414140de5dae2223b00361a396177a9cb410ff61f20015ad",
        ),
        (b"PUT", b"/v2/library/a/blobs/uploads/x"),
        (
            b"PUT",
            b"/v2/library/a/blobs/uploads/7?Digest=sha256:ba7816bf8f01cfea414140de5dae2223b00361a396177a9cb410ff61f20015ad",
        ),
    ];
    for (method, target) in cases {
        assert!(rt; is_refused(alloc, method, target, DIGEST_INVALID)?);
    }
    Ok(())
}

// Each is refused by name, and the talk goes on. The form comes before what the project has.
#[test]
fn hostile_manifests_are_refused(rt: HostRuntime) -> Result<(), Fail> {
    let alloc = rt.alloc();
    let cases: [(&'static [u8], &'static [u8]); 15] = [
        // not JSON
        (
            b"PUT /v2/library/a/manifests/v1 HTTP/1.1\r\nHost: r\r\nContent-Type: application/vnd.oci.image.manifest.v1+json\r\nContent-Length: 1\r\n\r\n{",
            b"HTTP/1.1 400 Bad Request\r\nContent-Length: 81\r\nContent-Type: application/json\r\n\r\n{\"errors\":[{\"code\":\"MANIFEST_INVALID\",\"detail\":{},\"message\":\"manifest invalid\"}]}",
        ),
        // no object
        (
            b"PUT /v2/library/a/manifests/v1 HTTP/1.1\r\nHost: r\r\nContent-Type: application/vnd.oci.image.manifest.v1+json\r\nContent-Length: 2\r\n\r\n[]",
            b"HTTP/1.1 400 Bad Request\r\nContent-Length: 81\r\nContent-Type: application/json\r\n\r\n{\"errors\":[{\"code\":\"MANIFEST_INVALID\",\"detail\":{},\"message\":\"manifest invalid\"}]}",
        ),
        // another type
        (
            b"PUT /v2/library/a/manifests/v1 HTTP/1.1\r\nHost: r\r\nContent-Type: text/plain\r\nContent-Length: 2\r\n\r\n{}",
            b"HTTP/1.1 400 Bad Request\r\nContent-Length: 81\r\nContent-Type: application/json\r\n\r\n{\"errors\":[{\"code\":\"MANIFEST_INVALID\",\"detail\":{},\"message\":\"manifest invalid\"}]}",
        ),
        // no schema
        (
            b"PUT /v2/library/a/manifests/v1 HTTP/1.1\r\nHost: r\r\nContent-Type: application/vnd.oci.image.manifest.v1+json\r\nContent-Length: 2\r\n\r\n{}",
            b"HTTP/1.1 400 Bad Request\r\nContent-Length: 81\r\nContent-Type: application/json\r\n\r\n{\"errors\":[{\"code\":\"MANIFEST_INVALID\",\"detail\":{},\"message\":\"manifest invalid\"}]}",
        ),
        // another schema
        (
            b"PUT /v2/library/a/manifests/v1 HTTP/1.1\r\nHost: r\r\nContent-Type: application/vnd.oci.image.manifest.v1+json\r\nContent-Length: 134\r\n\r\n{\"schemaVersion\":1,\"config\":{\"digest\":\"sha256:44136fa355b3678a1146ad16f7e8649e94fb4fc21fe77e8310c060f61caaff8a\",\"size\":2},\"layers\":[]}",
            b"HTTP/1.1 400 Bad Request\r\nContent-Length: 81\r\nContent-Type: application/json\r\n\r\n{\"errors\":[{\"code\":\"MANIFEST_INVALID\",\"detail\":{},\"message\":\"manifest invalid\"}]}",
        ),
        // no layers
        (
            b"PUT /v2/library/a/manifests/v1 HTTP/1.1\r\nHost: r\r\nContent-Type: application/vnd.oci.image.manifest.v1+json\r\nContent-Length: 122\r\n\r\n{\"schemaVersion\":2,\"config\":{\"digest\":\"sha256:44136fa355b3678a1146ad16f7e8649e94fb4fc21fe77e8310c060f61caaff8a\",\"size\":2}}",
            b"HTTP/1.1 400 Bad Request\r\nContent-Length: 81\r\nContent-Type: application/json\r\n\r\n{\"errors\":[{\"code\":\"MANIFEST_INVALID\",\"detail\":{},\"message\":\"manifest invalid\"}]}",
        ),
        // layers that are no list
        (
            b"PUT /v2/library/a/manifests/v1 HTTP/1.1\r\nHost: r\r\nContent-Type: application/vnd.oci.image.manifest.v1+json\r\nContent-Length: 134\r\n\r\n{\"schemaVersion\":2,\"config\":{\"digest\":\"sha256:44136fa355b3678a1146ad16f7e8649e94fb4fc21fe77e8310c060f61caaff8a\",\"size\":2},\"layers\":{}}",
            b"HTTP/1.1 400 Bad Request\r\nContent-Length: 81\r\nContent-Type: application/json\r\n\r\n{\"errors\":[{\"code\":\"MANIFEST_INVALID\",\"detail\":{},\"message\":\"manifest invalid\"}]}",
        ),
        // an image as an index
        (
            b"PUT /v2/library/a/manifests/v1 HTTP/1.1\r\nHost: r\r\nContent-Type: application/vnd.oci.image.index.v1+json\r\nContent-Length: 134\r\n\r\n{\"schemaVersion\":2,\"config\":{\"digest\":\"sha256:44136fa355b3678a1146ad16f7e8649e94fb4fc21fe77e8310c060f61caaff8a\",\"size\":2},\"layers\":[]}",
            b"HTTP/1.1 400 Bad Request\r\nContent-Length: 81\r\nContent-Type: application/json\r\n\r\n{\"errors\":[{\"code\":\"MANIFEST_INVALID\",\"detail\":{},\"message\":\"manifest invalid\"}]}",
        ),
        // no digest
        (
            b"PUT /v2/library/a/manifests/v1 HTTP/1.1\r\nHost: r\r\nContent-Type: application/vnd.oci.image.manifest.v1+json\r\nContent-Length: 51\r\n\r\n{\"schemaVersion\":2,\"config\":{\"size\":2},\"layers\":[]}",
            b"HTTP/1.1 400 Bad Request\r\nContent-Length: 90\r\nContent-Type: application/json\r\n\r\n{\"errors\":[{\"code\":\"MANIFEST_INVALID\",\"detail\":{\"place\":0},\"message\":\"manifest invalid\"}]}",
        ),
        // a digest in upper case
        (
            b"PUT /v2/library/a/manifests/v1 HTTP/1.1\r\nHost: r\r\nContent-Type: application/vnd.oci.image.manifest.v1+json\r\nContent-Length: 227\r\n\r\n{\"schemaVersion\":2,\"config\":{\"digest\":\"sha256:44136fa355b3678a1146ad16f7e8649e94fb4fc21fe77e8310c060f61caaff8a\",\"size\":2},\"layers\":[{\"digest\":\"sha256:BA7816BF8F01CFEA414140DE5DAE2223B00361A396177A9CB410FF61F20015AD\",\"size\":3}]}",
            b"HTTP/1.1 400 Bad Request\r\nContent-Length: 90\r\nContent-Type: application/json\r\n\r\n{\"errors\":[{\"code\":\"MANIFEST_INVALID\",\"detail\":{\"place\":1},\"message\":\"manifest invalid\"}]}",
        ),
        // a size below 0
        (
            b"PUT /v2/library/a/manifests/v1 HTTP/1.1\r\nHost: r\r\nContent-Type: application/vnd.oci.image.manifest.v1+json\r\nContent-Length: 322\r\n\r\n{\"schemaVersion\":2,\"config\":{\"digest\":\"sha256:44136fa355b3678a1146ad16f7e8649e94fb4fc21fe77e8310c060f61caaff8a\",\"size\":2},\"layers\":[{\"digest\":\"sha256:ba7816bf8f01cfea414140de5dae2223b00361a396177a9cb410ff61f20015ad\",\"size\":3},{\"digest\":\"sha256:ba7816bf8f01cfea414140de5dae2223b00361a396177a9cb410ff61f20015ad\",\"size\":-1}]}",
            b"HTTP/1.1 400 Bad Request\r\nContent-Length: 90\r\nContent-Type: application/json\r\n\r\n{\"errors\":[{\"code\":\"MANIFEST_INVALID\",\"detail\":{\"place\":2},\"message\":\"manifest invalid\"}]}",
        ),
        // a reference that the project has not
        (
            b"PUT /v2/library/a/manifests/v1 HTTP/1.1\r\nHost: r\r\nContent-Type: application/vnd.oci.image.manifest.v1+json\r\nContent-Length: 227\r\n\r\n{\"schemaVersion\":2,\"config\":{\"digest\":\"sha256:44136fa355b3678a1146ad16f7e8649e94fb4fc21fe77e8310c060f61caaff8a\",\"size\":2},\"layers\":[{\"digest\":\"sha256:ba7816bf8f01cfea414140de5dae2223b00361a396177a9cb410ff61f20015ad\",\"size\":3}]}",
            b"HTTP/1.1 404 Not Found\r\nContent-Length: 173\r\nContent-Type: application/json\r\n\r\n{\"errors\":[{\"code\":\"MANIFEST_BLOB_UNKNOWN\",\"detail\":{\"digest\":\"sha256:44136fa355b3678a1146ad16f7e8649e94fb4fc21fe77e8310c060f61caaff8a\"},\"message\":\"manifest blob unknown\"}]}",
        ),
        // a child that the repository has not
        (
            b"PUT /v2/library/a/manifests/v1 HTTP/1.1\r\nHost: r\r\nContent-Type: application/vnd.oci.image.index.v1+json\r\nContent-Length: 127\r\n\r\n{\"schemaVersion\":2,\"manifests\":[{\"digest\":\"sha256:ba7816bf8f01cfea414140de5dae2223b00361a396177a9cb410ff61f20015ad\",\"size\":3}]}",
            b"HTTP/1.1 404 Not Found\r\nContent-Length: 173\r\nContent-Type: application/json\r\n\r\n{\"errors\":[{\"code\":\"MANIFEST_BLOB_UNKNOWN\",\"detail\":{\"digest\":\"sha256:ba7816bf8f01cfea414140de5dae2223b00361a396177a9cb410ff61f20015ad\"},\"message\":\"manifest blob unknown\"}]}",
        ),
        // another digest than the body has, before its form
        (
            b"PUT /v2/library/a/manifests/sha256:ba7816bf8f01cfea414140de5dae2223b00361a396177a9cb410ff61f20015ad HTTP/1.1\r\nHost: r\r\nContent-Type: application/vnd.oci.image.manifest.v1+json\r\nContent-Length: 2\r\n\r\n{}",
            b"HTTP/1.1 400 Bad Request\r\nContent-Length: 158\r\nContent-Type: application/json\r\n\r\n{\"errors\":[{\"code\":\"DIGEST_INVALID\",\"detail\":{\"found\":\"sha256:44136fa355b3678a1146ad16f7e8649e94fb4fc21fe77e8310c060f61caaff8a\"},\"message\":\"digest invalid\"}]}",
        ),
        // another project
        (
            b"PUT /v2/other/a/manifests/v1 HTTP/1.1\r\nHost: r\r\nContent-Type: application/vnd.oci.image.manifest.v1+json\r\nContent-Length: 134\r\n\r\n{\"schemaVersion\":2,\"config\":{\"digest\":\"sha256:44136fa355b3678a1146ad16f7e8649e94fb4fc21fe77e8310c060f61caaff8a\",\"size\":2},\"layers\":[]}",
            b"HTTP/1.1 404 Not Found\r\nContent-Length: 73\r\nContent-Type: application/json\r\n\r\n{\"errors\":[{\"code\":\"NAME_UNKNOWN\",\"detail\":{},\"message\":\"name unknown\"}]}",
        ),
    ];
    for (input, answer) in cases {
        let input = joined(alloc, &[input, b"GET /v2/ HTTP/1.1\r\n\r\n"])?;
        let output = joined(alloc, &[answer, BASE])?;
        let (status, said) = plain(alloc, &input, 65_536)?;
        assert_eq!(rt; status, 0);
        assert_eq!(rt; said.as_slice(), output.as_slice());
    }
    Ok(())
}

const PUT_FOREIGN: &[u8] =
    b"PUT /v2/library/a/manifests/v1 HTTP/1.1\r\nHost: r\r\nContent-Type: application/vnd.oci.image.manifest.v1+json\r\nContent-Length: 485\r\n\r\n{\"schemaVersion\":2,\"config\":{\"digest\":\"sha256:44136fa355b3678a1146ad16f7e8649e94fb4fc21fe77e8310c060f61caaff8a\",\"size\":2},\"layers\":[{\"digest\":\"sha256:ba7816bf8f01cfea414140de5dae2223b00361a396177a9cb410ff61f20015ad\",\"size\":3},{\"digest\":\"sha256:ba7816bf8f01cfea414140de5dae2223b00361a396177a9cb410ff61f20015ad\",\"size\":3},{\"mediaType\":\"application/vnd.oci.image.layer.nondistributable.v1.tar\",\"digest\":\"sha256:0000000000000000000000000000000000000000000000000000000000000000\",\"size\":7}]}";

const CREATED_FOREIGN: &[u8] =
    b"HTTP/1.1 201 Created\r\nContent-Length: 0\r\nDocker-Content-Digest: sha256:73a00022e7475a03acd1e44c98b10b53b10b583285e898d2814428786ced3d55\r\nLocation: /v2/library/a/manifests/sha256:73a00022e7475a03acd1e44c98b10b53b10b583285e898d2814428786ced3d55\r\n\r\n";

// A layer that is listed twice is one reference, and a foreign layer is none: nobody has to push it.
#[test]
fn a_foreign_layer_is_not_asked_for(rt: HostRuntime) -> Result<(), Fail> {
    let alloc = rt.alloc();
    let keeper = MemKeeper::new(alloc, Vec::new(alloc));
    let store = MemStore::new(alloc, Vec::new(alloc));
    let (ended, said) = over(alloc, keeper, store, &[PUSH_CONFIG, PUSH, PUT_FOREIGN])?;
    assert_eq!(rt; ended.status, 0);
    assert_eq!(rt;
        said.as_slice(),
        joined(alloc, &[CREATED_CONFIG, CREATED, CREATED_FOREIGN])?.as_slice()
    );
    let rows = ended.keeper.rows();
    let [artifact] = rows.artifacts() else {
        return Err(Fail::new("one artifact"));
    };
    assert_eq!(rt;
        artifact.refs.as_slice(),
        [Digest::of(b"{}"), Digest::of(b"abc")].as_slice()
    );
    let [project] = rows.projects() else {
        return Err(Fail::new("one project"));
    };
    assert_eq!(rt; project.used, 5 + 485);
    Ok(())
}

const PUT_INDEX: &[u8] =
    b"PUT /v2/library/a/manifests/all HTTP/1.1\r\nHost: r\r\nContent-Type: application/vnd.oci.image.index.v1+json\r\nContent-Length: 186\r\n\r\n{\"schemaVersion\":2,\"manifests\":[{\"mediaType\":\"application/vnd.oci.image.manifest.v1+json\",\"digest\":\"sha256:73a00022e7475a03acd1e44c98b10b53b10b583285e898d2814428786ced3d55\",\"size\":485}]}";

const CREATED_INDEX: &[u8] =
    b"HTTP/1.1 201 Created\r\nContent-Length: 0\r\nDocker-Content-Digest: sha256:8264bb1e9f7bcfbfd6c0cb2b35c884523592bae56dab25e9ba6db4677327f878\r\nLocation: /v2/library/a/manifests/sha256:8264bb1e9f7bcfbfd6c0cb2b35c884523592bae56dab25e9ba6db4677327f878\r\n\r\n";

const GET_INDEX: &[u8] = b"GET /v2/library/a/manifests/all HTTP/1.1\r\nHost: r\r\n\r\n";

const GOT_INDEX: &[u8] =
    b"HTTP/1.1 200 OK\r\nContent-Length: 186\r\nContent-Type: application/vnd.oci.image.index.v1+json\r\nDocker-Content-Digest: sha256:8264bb1e9f7bcfbfd6c0cb2b35c884523592bae56dab25e9ba6db4677327f878\r\n\r\n{\"schemaVersion\":2,\"manifests\":[{\"mediaType\":\"application/vnd.oci.image.manifest.v1+json\",\"digest\":\"sha256:73a00022e7475a03acd1e44c98b10b53b10b583285e898d2814428786ced3d55\",\"size\":485}]}";

const NO_CHILD: &[u8] =
    b"HTTP/1.1 404 Not Found\r\nContent-Length: 173\r\nContent-Type: application/json\r\n\r\n{\"errors\":[{\"code\":\"MANIFEST_BLOB_UNKNOWN\",\"detail\":{\"digest\":\"sha256:73a00022e7475a03acd1e44c98b10b53b10b583285e898d2814428786ced3d55\"},\"message\":\"manifest blob unknown\"}]}";

// An index is put once its child is there, and pulled.
#[test]
fn an_index_is_put_and_pulled(rt: HostRuntime) -> Result<(), Fail> {
    let alloc = rt.alloc();
    let input = joined(
        alloc,
        &[
            PUSH_CONFIG,
            PUSH,
            PUT_INDEX,
            PUT_FOREIGN,
            PUT_INDEX,
            GET_INDEX,
        ],
    )?;
    let output = joined(
        alloc,
        &[
            CREATED_CONFIG,
            CREATED,
            NO_CHILD,
            CREATED_FOREIGN,
            CREATED_INDEX,
            GOT_INDEX,
        ],
    )?;
    let (status, said) = plain(alloc, &input, 65_536)?;
    assert_eq!(rt; status, 0);
    assert_eq!(rt; said.as_slice(), output.as_slice());
    Ok(())
}

const CHECK_BLOB: &[u8] =
    b"HEAD /v2/library/a/blobs/sha256:ba7816bf8f01cfea414140de5dae2223b00361a396177a9cb410ff61f20015ad HTTP/1.1\r\nHost: r\r\n\r\n";

const BLOB_IS_THERE: &[u8] =
    b"HTTP/1.1 200 OK\r\nContent-Length: 3\r\nContent-Type: application/octet-stream\r\nDocker-Content-Digest: sha256:ba7816bf8f01cfea414140de5dae2223b00361a396177a9cb410ff61f20015ad\r\n\r\n";

const BLOB_IS_NOT: &[u8] =
    b"HTTP/1.1 404 Not Found\r\nContent-Length: 73\r\nContent-Type: application/json\r\n\r\n";

const CHECK_TAG: &[u8] = b"HEAD /v2/library/a/manifests/v1 HTTP/1.1\r\nHost: r\r\n\r\n";

const CHECK_DIGEST: &[u8] =
    b"HEAD /v2/library/a/manifests/sha256:73a00022e7475a03acd1e44c98b10b53b10b583285e898d2814428786ced3d55 HTTP/1.1\r\nHost: r\r\n\r\n";

const MANIFEST_IS_THERE: &[u8] =
    b"HTTP/1.1 200 OK\r\nContent-Length: 485\r\nContent-Type: application/vnd.oci.image.manifest.v1+json\r\nDocker-Content-Digest: sha256:73a00022e7475a03acd1e44c98b10b53b10b583285e898d2814428786ced3d55\r\n\r\n";

const MANIFEST_IS_NOT: &[u8] =
    b"HTTP/1.1 404 Not Found\r\nContent-Length: 81\r\nContent-Type: application/json\r\n\r\n";

// A blob and a manifest are checked without their bytes. Each check of a blob is an entry, which touches it; that of a
// manifest is none, and doesn't pull it.
#[test]
fn blobs_and_manifests_are_checked(rt: HostRuntime) -> Result<(), Fail> {
    let alloc = rt.alloc();
    let keeper = MemKeeper::new(alloc, Vec::new(alloc));
    let store = MemStore::new(alloc, Vec::new(alloc));
    let (first, said) = over(
        alloc,
        keeper,
        store,
        &[CHECK_BLOB, CHECK_TAG, PUSH_CONFIG, PUSH, PUT_FOREIGN],
    )?;
    assert_eq!(rt; first.status, 0);
    assert_eq!(rt;
        said.as_slice(),
        joined(
            alloc,
            &[
                BLOB_IS_NOT,
                MANIFEST_IS_NOT,
                CREATED_CONFIG,
                CREATED,
                CREATED_FOREIGN
            ]
        )?
        .as_slice()
    );
    let entries = first.keeper.rows().entries().len();
    let (second, said) = over(
        alloc,
        first.keeper,
        first.store,
        &[CHECK_BLOB, CHECK_TAG, CHECK_DIGEST, CHECK_BLOB],
    )?;
    assert_eq!(rt; second.status, 0);
    assert_eq!(rt;
        said.as_slice(),
        joined(
            alloc,
            &[
                BLOB_IS_THERE,
                MANIFEST_IS_THERE,
                MANIFEST_IS_THERE,
                BLOB_IS_THERE
            ]
        )?
        .as_slice()
    );
    let rows = second.keeper.rows();
    assert_eq!(rt; rows.entries().len(), entries + 2);
    let [artifact] = rows.artifacts() else {
        return Err(Fail::new("one artifact"));
    };
    assert_eq!(rt; artifact.pulled, 0);
    Ok(())
}

const PUT_TOO_LONG: &[u8] =
    b"PUT /v2/library/a/manifests/v1 HTTP/1.1\r\nHost: r\r\nContent-Type: application/vnd.oci.image.manifest.v1+json\r\nContent-Length: 4194305\r\n\r\n";

// Of a body whose length is told and above the limit nothing is read: it is refused at its head, and what comes behind
// it isn't answered.
#[test]
fn a_length_above_the_limit_is_refused_at_the_head(rt: HostRuntime) -> Result<(), Fail> {
    let alloc = rt.alloc();
    let inputs: [&'static [u8]; 3] = [b"", b"{", b"GET /v2/ HTTP/1.1\r\n\r\n"];
    for behind in inputs {
        let keeper = MemKeeper::new(alloc, Vec::new(alloc));
        let store = MemStore::new(alloc, Vec::new(alloc));
        let (ended, said) = over(alloc, keeper, store, &[PUT_TOO_LONG, behind])?;
        assert_eq!(rt; ended.status, 0);
        assert_eq!(rt; said.as_slice(), TOO_LONG);
        assert_eq!(rt; ended.keeper.rows().entries().len(), 1);
    }
    Ok(())
}

const PUSH_CHUNKS: &[u8] =
    b"POST /v2/library/a/blobs/uploads/?digest=sha256:ba7816bf8f01cfea414140de5dae2223b00361a396177a9cb410ff61f20015ad HTTP/1.1\r\nHost: r\r\nTransfer-Encoding: chunked\r\n\r\n1\r\na\r\n002;x=y\r\nbc\r\n0\r\nTrailer: t\r\n\r\n";

const PULL_AGAIN: &[u8] =
    b"GET /v2/library/a/blobs/sha256:ba7816bf8f01cfea414140de5dae2223b00361a396177a9cb410ff61f20015ad HTTP/1.1\r\nHost: r\r\n\r\n";

const BEGIN_CHUNKS: &[u8] =
    b"POST /v2/library/a/blobs/uploads/?digest=sha256:ba7816bf8f01cfea414140de5dae2223b00361a396177a9cb410ff61f20015ad HTTP/1.1\r\nHost: r\r\nTransfer-Encoding: chunked\r\n\r\n";

// A body in chunks is pushed as one by length, however its bytes are cut.
#[test]
fn a_body_in_chunks_is_pushed(rt: HostRuntime) -> Result<(), Fail> {
    let alloc = rt.alloc();
    let input = joined(alloc, &[PUSH_CHUNKS, PULL_AGAIN])?;
    let output = joined(alloc, &[CREATED, PULLED])?;
    for cut in [1, 3, 65_536] {
        let (status, said) = plain(alloc, &input, cut)?;
        assert_eq!(rt; status, 0, "pieces of {cut}");
        assert_eq!(rt; said.as_slice(), output.as_slice());
    }
    Ok(())
}

// Its data may have 4 MiB. It is refused once they have one byte more, and nothing is read behind that.
#[test]
fn chunks_above_the_limit_are_refused(rt: HostRuntime) -> Result<(), Fail> {
    let alloc = rt.alloc();
    let body = vec![in alloc; 0u8; 4_194_304]?;
    let ends: [(&'static [u8], &'static [u8]); 2] = [
        (b"\r\n0\r\n\r\n", FOUND_ZEROS),
        (b"\r\n1\r\n0", TOO_LONG),
    ];
    for (end, answer) in ends {
        let mut input = joined(alloc, &[BEGIN_CHUNKS, b"400000\r\n"])?;
        input.extend_from_slice(&body)?;
        input.extend_from_slice(end)?;
        let (status, said) = plain(alloc, &input, 65_536)?;
        assert_eq!(rt; status, 0);
        assert_eq!(rt; said.as_slice(), answer);
    }
    Ok(())
}
