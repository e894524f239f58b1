//! Manifests good and bad: those of the specifications, hostile ones, and ones at their limits.

use crate::laws::{digests_have_one_text, manifests_are_sound, refusals_have_a_cause};
use crate::{
    DigestList, MAX_BLOB, MAX_DESCRIPTORS, MAX_MANIFEST, Manifest, ManifestFault, read_manifest,
};
use hb_text::{Digest, Duplicate, Memory};
use std::alloc::{AllocError, Global};
use std::test::Fail;

const IMAGE: &str = "application/vnd.oci.image.manifest.v1+json";

const INDEX: &str = "application/vnd.oci.image.index.v1+json";

const DOCKER_IMAGE: &str = "application/vnd.docker.distribution.manifest.v2+json";

const DOCKER_LIST: &str = "application/vnd.docker.distribution.manifest.list.v2+json";

const BAD_AT_0: Option<ManifestFault> = Some(ManifestFault::BadDescriptor { place: 0 });

const BAD_AT_1: Option<ManifestFault> = Some(ManifestFault::BadDescriptor { place: 1 });

const BAD_AT_2: Option<ManifestFault> = Some(ManifestFault::BadDescriptor { place: 2 });

const BAD_AT_3: Option<ManifestFault> = Some(ManifestFault::BadDescriptor { place: 3 });

const BAD_AT_999: Option<ManifestFault> = Some(ManifestFault::BadDescriptor { place: 999 });

// Descriptors of `{}` and of `abc`, and what stands around the parts of manifests.
const OBJECT: &str =
    r#"{"digest":"sha256:44136fa355b3678a1146ad16f7e8649e94fb4fc21fe77e8310c060f61caaff8a","size":2}"#;

const ABC: &str =
    r#"{"digest":"sha256:ba7816bf8f01cfea414140de5dae2223b00361a396177a9cb410ff61f20015ad","size":3}"#;

const LAYERS: &str =
    r#"{"schemaVersion":2,"config":{"digest":"sha256:44136fa355b3678a1146ad16f7e8649e94fb4fc21fe77e8310c060f61caaff8a","size":2},"layers":["#;

const CONFIG: &str = r#"{"schemaVersion":2,"layers":[],"config":"#;

const MANIFESTS: &str = r#"{"schemaVersion":2,"manifests":["#;

const SUBJECT: &str =
    r#"{"schemaVersion":2,"config":{"digest":"sha256:44136fa355b3678a1146ad16f7e8649e94fb4fc21fe77e8310c060f61caaff8a","size":2},"layers":[],"manifests":[],"subject":"#;

/// Three parts as one text.
fn joined(alloc: Global, front: &str, part: &str, back: &str) -> Result<Vec<u8>, AllocError> {
    let mut bytes = Vec::from_slice(alloc, front.as_bytes())?;
    bytes.extend_from_slice(part.as_bytes())?;
    bytes.extend_from_slice(back.as_bytes())?;
    Ok(bytes)
}

/// Why bytes are refused, if they are.
fn refusal(alloc: Global, media: Option<&[u8]>, bytes: &[u8]) -> Option<ManifestFault> {
    match read_manifest(alloc, media, bytes) {
        Ok(_) => None,
        Err(fault) => Some(fault),
    }
}

/// Why a text of three parts is refused, if it is.
fn fault(alloc: Global, media: &str, front: &str, part: &str, back: &str) -> Option<ManifestFault> {
    match joined(alloc, front, part, back) {
        Ok(bytes) => refusal(alloc, Some(media.as_bytes()), bytes.as_slice()),
        Err(_) => Some(ManifestFault::Memory),
    }
}

/// The same without a Content-Type.
fn own_fault(alloc: Global, front: &str, part: &str, back: &str) -> Option<ManifestFault> {
    match joined(alloc, front, part, back) {
        Ok(bytes) => refusal(alloc, None, bytes.as_slice()),
        Err(_) => Some(ManifestFault::Memory),
    }
}

/// Whether a manifest is the one that is expected.
fn is_same(
    manifest: &Manifest,
    media: &str,
    refs: &[Digest],
    children: &[Digest],
    subject: Option<Digest>,
) -> bool {
    manifest.media.bytes() == media.as_bytes()
        && manifest.refs.as_slice() == refs
        && manifest.children.as_slice() == children
        && manifest.subject == subject
}

/// Whether a text of three parts is read as an image with these references, of this media type.
fn is_image(
    alloc: Global,
    media: &str,
    front: &str,
    part: &str,
    back: &str,
    refs: &[Digest],
) -> bool {
    match joined(alloc, front, part, back) {
        Ok(bytes) => match read_manifest(alloc, Some(media.as_bytes()), bytes.as_slice()) {
            Ok(manifest) => is_same(&manifest, media, refs, [].as_slice(), None),
            Err(_) => false,
        },
        Err(_) => false,
    }
}

/// Whether it is read as an index with these children.
fn is_index(
    alloc: Global,
    media: &str,
    front: &str,
    part: &str,
    back: &str,
    children: &[Digest],
) -> bool {
    match joined(alloc, front, part, back) {
        Ok(bytes) => match read_manifest(alloc, Some(media.as_bytes()), bytes.as_slice()) {
            Ok(manifest) => is_same(&manifest, media, [].as_slice(), children, None),
            Err(_) => false,
        },
        Err(_) => false,
    }
}

/// The subject that it is read with.
fn subject(alloc: Global, media: &str, front: &str, part: &str, back: &str) -> Option<Digest> {
    match joined(alloc, front, part, back) {
        Ok(bytes) => match read_manifest(alloc, Some(media.as_bytes()), bytes.as_slice()) {
            Ok(manifest) => manifest.subject,
            Err(_) => None,
        },
        Err(_) => None,
    }
}

/// The media type that it is read with, whose own one it is.
fn is_own_type(alloc: Global, front: &str, part: &str, back: &str, media: &str) -> bool {
    match joined(alloc, front, part, back) {
        Ok(bytes) => match read_manifest(alloc, None, bytes.as_slice()) {
            Ok(manifest) => manifest.media.bytes() == media.as_bytes(),
            Err(_) => false,
        },
        Err(_) => false,
    }
}

const WHOLE: &str = r#"{"schemaVersion":2,"mediaType":"application/vnd.oci.image.manifest.v1+json",
"config":{"mediaType":"application/vnd.oci.image.config.v1+json","digest":"sha256:44136fa355b3678a1146ad16f7e8649e94fb4fc21fe77e8310c060f61caaff8a","size":2},
"layers":[{"mediaType":"application/vnd.oci.image.layer.v1.tar","digest":"sha256:ba7816bf8f01cfea414140de5dae2223b00361a396177a9cb410ff61f20015ad","size":3},
{"mediaType":"application/vnd.oci.image.layer.v1.tar","digest":"sha256:e3b0c44298fc1c149afbf4c8996fb92427ae41e4649b934ca495991b7852b855","size":0,"urls":["https://a/b"]},
{"mediaType":"application/vnd.oci.image.layer.v1.tar+gzip","digest":"sha256:ba7816bf8f01cfea414140de5dae2223b00361a396177a9cb410ff61f20015ad","size":4},
{"digest":"sha256:44136fa355b3678a1146ad16f7e8649e94fb4fc21fe77e8310c060f61caaff8a","size":2}],
"annotations":{"a":"b"},"other":[1,null,true,{},-1.5e3]}
"#;

#[test]
fn whole_image(rt: HostRuntime) {
    let refs = [Digest::of(b"{}"), Digest::of(b"abc"), Digest::of(b"")];
    assert!(rt; is_image(rt.alloc(), IMAGE, WHOLE, "", "", refs.as_slice()));
    assert!(rt; is_image(rt.alloc(), DOCKER_IMAGE, WHOLE, "", "", refs.as_slice()));
}

const FOREIGN: &str =
    r#"","digest":"sha256:e3b0c44298fc1c149afbf4c8996fb92427ae41e4649b934ca495991b7852b855","size":0}"#;

#[test]
fn layers_that_may_not_be_distributed(rt: HostRuntime) {
    let alloc = rt.alloc();
    let config = [Digest::of(b"{}")];
    let both = [Digest::of(b"{}"), Digest::of(b"")];
    let rows: [(&str, bool); 8] = [
        (
            r#"{"mediaType":"application/vnd.oci.image.layer.nondistributable.v1.tar"#,
            false,
        ),
        (
            r#"{"mediaType":"application/vnd.oci.image.layer.nondistributable.v1.tar+gzip"#,
            false,
        ),
        (
            r#"{"mediaType":"application/vnd.oci.image.layer.nondistributable.v1.tar+zstd"#,
            false,
        ),
        (
            r#"{"mediaType":"application/vnd.docker.image.rootfs.foreign.diff.tar.gzip"#,
            false,
        ),
        (
            r#"{"mediaType":"application/vnd.oci.image.layer.nondistributable.v1.tar+GZIP"#,
            true,
        ),
        (
            r#"{"mediaType":"application/vnd.oci.image.layer.nondistributable.v1.tar; a=b"#,
            true,
        ),
        (
            r#"{"mediaType":"application/vnd.docker.image.rootfs.diff.tar.gzip"#,
            true,
        ),
        (r#"{"mediaType":""#, true),
    ];
    for (media, counts) in rows {
        let refs = if counts {
            both.as_slice()
        } else {
            config.as_slice()
        };
        assert!(rt; is_layer(alloc, media, refs), "{media}");
    }
}

/// Whether an image with this layer has these references.
fn is_layer(alloc: Global, media: &str, refs: &[Digest]) -> bool {
    match joined(alloc, media, FOREIGN, "]}") {
        Ok(layer) => match std::str::from_utf8(layer.as_slice()) {
            Ok(layer) => is_image(alloc, IMAGE, LAYERS, layer, "", refs),
            Err(_) => false,
        },
        Err(_) => false,
    }
}

const FOREIGN_CONFIG: &str =
    r#"{"mediaType":"application/vnd.oci.image.layer.nondistributable.v1.tar","digest":"sha256:e3b0c44298fc1c149afbf4c8996fb92427ae41e4649b934ca495991b7852b855","size":0}"#;

#[test]
fn foreign_elsewhere(rt: HostRuntime) {
    let alloc = rt.alloc();
    let empty = [Digest::of(b"")];
    // a config counts whatever it says, and so does a manifest in an index
    assert!(rt; is_image(alloc, IMAGE, CONFIG, FOREIGN_CONFIG, "}", empty.as_slice()));
    assert!(rt;
        is_index(
            alloc,
            INDEX,
            MANIFESTS,
            FOREIGN_CONFIG,
            "]}",
            empty.as_slice()
        )
    );
}

const CHILDREN: &str = r#"{"schemaVersion":2,"manifests":[
{"digest":"sha256:ba7816bf8f01cfea414140de5dae2223b00361a396177a9cb410ff61f20015ad","size":3,"platform":{"os":"linux"}},
{"digest":"sha256:44136fa355b3678a1146ad16f7e8649e94fb4fc21fe77e8310c060f61caaff8a","size":2},
{"digest":"sha256:ba7816bf8f01cfea414140de5dae2223b00361a396177a9cb410ff61f20015ad","size":3},
{"digest":"sha256:e3b0c44298fc1c149afbf4c8996fb92427ae41e4649b934ca495991b7852b855","size":0},
{"digest":"sha256:44136fa355b3678a1146ad16f7e8649e94fb4fc21fe77e8310c060f61caaff8a","size":2}]}"#;

#[test]
fn whole_index(rt: HostRuntime) {
    let alloc = rt.alloc();
    let children = [Digest::of(b"abc"), Digest::of(b"{}"), Digest::of(b"")];
    assert!(rt; is_index(alloc, INDEX, CHILDREN, "", "", children.as_slice()));
    assert!(rt; is_index(alloc, DOCKER_LIST, CHILDREN, "", "", children.as_slice()));
    assert!(rt; is_index(alloc, INDEX, MANIFESTS, "", "]}", [].as_slice()));
}

#[test]
fn subjects(rt: HostRuntime) {
    let alloc = rt.alloc();
    assert_eq!(rt;
        subject(alloc, IMAGE, SUBJECT, ABC, "}"),
        Some(Digest::of(b"abc"))
    );
    assert_eq!(rt;
        subject(alloc, INDEX, SUBJECT, ABC, "}"),
        Some(Digest::of(b"abc"))
    );
    let rows: [&str; 7] = [
        "null",
        "[]",
        "{}",
        r#"{"digest":"sha256:ba7816bf8f01cfea414140de5dae2223b00361a396177a9cb410ff61f20015ad"}"#,
        r#"{"size":3}"#,
        r#"{"size":3,"digest":"abc"}"#,
        r#""sha256:ba7816bf8f01cfea414140de5dae2223b00361a396177a9cb410ff61f20015ad""#,
    ];
    for text in rows {
        assert_eq!(rt; fault(alloc, IMAGE, SUBJECT, text, "}"), None, "{text}");
        assert_eq!(rt; subject(alloc, IMAGE, SUBJECT, text, "}"), None, "{text}");
    }
}

#[test]
fn content_types(rt: HostRuntime) {
    let alloc = rt.alloc();
    let rows: [(&str, bool); 22] = [
        ("application/vnd.oci.image.manifest.v1+json", true),
        (" \t application/vnd.oci.image.manifest.v1+json \t", true),
        ("application/vnd.oci.image.manifest.v1+json;", true),
        (
            "application/vnd.oci.image.manifest.v1+json; charset=utf-8",
            true,
        ),
        (
            "\tapplication/vnd.oci.image.manifest.v1+json ; a=b; c=\";\"",
            true,
        ),
        ("", false),
        (" ", false),
        (";", false),
        ("; application/vnd.oci.image.manifest.v1+json", false),
        ("application/json", false),
        ("application/vnd.oci.image.manifest.v1+jso", false),
        ("application/vnd.oci.image.manifest.v1+json2", false),
        ("application/vnd.oci.image.manifest.v2+json", false),
        ("Application/vnd.oci.image.manifest.v1+json", false),
        ("application/vnd.oci.image.manifest.v1+JSON", false),
        ("\napplication/vnd.oci.image.manifest.v1+json", false),
        (
            "application/vnd.oci.image.manifest.v1+json, text/plain",
            false,
        ),
        ("application /vnd.oci.image.manifest.v1+json", false),
        (
            "application/vnd.docker.distribution.manifest.v1+json",
            false,
        ),
        (
            "application/vnd.docker.distribution.manifest.v1+prettyjws",
            false,
        ),
        ("application/vnd.oci.image.config.v1+json", false),
        ("application/vnd.oci.image.layer.v1.tar", false),
    ];
    for (media, is_known) in rows {
        let expected = if is_known {
            None
        } else {
            Some(ManifestFault::MediaUnknown)
        };
        assert_eq!(rt; fault(alloc, media, LAYERS, "", "]}"), expected, "{media}");
    }
    assert_eq!(rt;
        refusal(alloc, Some(b"\xff\xfe"), WHOLE.as_bytes()),
        Some(ManifestFault::MediaUnknown)
    );
}

const OWN: &str =
    r#"{"schemaVersion":2,"layers":[],"config":{"digest":"sha256:44136fa355b3678a1146ad16f7e8649e94fb4fc21fe77e8310c060f61caaff8a","size":2},"manifests":[]"#;

#[test]
fn media_types_of_their_own(rt: HostRuntime) {
    let alloc = rt.alloc();
    assert!(rt;
        is_own_type(
            alloc,
            OWN,
            r#","mediaType":"application/vnd.oci.image.manifest.v1+json""#,
            "}",
            IMAGE
        )
    );
    assert!(rt;
        is_own_type(
            alloc,
            OWN,
            r#","mediaType":"application/vnd.oci.image.index.v1+json""#,
            "}",
            INDEX
        )
    );
    // of two the last counts
    assert!(rt;
        is_own_type(
            alloc,
            OWN,
            r#","mediaType":"application/vnd.oci.image.manifest.v1+json","mediaType":"application/vnd.oci.image.index.v1+json""#,
            "}",
            INDEX
        )
    );
    // it is taken as it stands
    let rows: [&str; 8] = [
        "",
        r#","mediaType":"application/vnd.oci.image.manifest.v1+json; a=b""#,
        r#","mediaType":" application/vnd.oci.image.manifest.v1+json""#,
        r#","mediaType":"text/plain""#,
        r#","mediaType":"""#,
        r#","mediaType":null"#,
        r#","mediaType":["application/vnd.oci.image.manifest.v1+json"]"#,
        r#","MediaType":"application/vnd.oci.image.manifest.v1+json""#,
    ];
    for member in rows {
        assert_eq!(rt;
            own_fault(alloc, OWN, member, "}"),
            Some(ManifestFault::MediaUnknown),
            "{member}"
        );
    }
}

#[test]
fn header_before_body(rt: HostRuntime) {
    let alloc = rt.alloc();
    let config = [Digest::of(b"{}")];
    let member = r#","mediaType":"application/vnd.oci.image.index.v1+json""#;
    assert!(rt; is_image(alloc, IMAGE, OWN, member, "}", config.as_slice()));
    assert_eq!(rt;
        fault(alloc, "text/plain", OWN, member, "}"),
        Some(ManifestFault::MediaUnknown)
    );
}

#[test]
fn no_objects(rt: HostRuntime) {
    let alloc = rt.alloc();
    let rows: [&[u8]; 19] = [
        b"",
        b" ",
        b"null",
        b"2",
        b"\"a\"",
        b"[]",
        b"[{\"schemaVersion\":2}]",
        b"{",
        b"}",
        b"{]",
        b"{}{}",
        b"{} x",
        b"{\"schemaVersion\":2,}",
        b"{schemaVersion:2}",
        b"{'schemaVersion':2}",
        b"// a comment\n{}",
        b"\xef\xbb\xbf{}",
        b"{\"a\":\"\xff\"}",
        b"{\"a\":\"\xed\xa0\x80\"}",
    ];
    for bytes in rows {
        // it comes before the media type
        assert_eq!(rt;
            refusal(alloc, None, bytes),
            Some(ManifestFault::NotJson),
            "{bytes:?}"
        );
    }
    // an object with nothing in it
    assert_eq!(rt;
        refusal(alloc, Some(IMAGE.as_bytes()), b"\n{}\r\n"),
        Some(ManifestFault::NoSchema)
    );
    assert_eq!(rt;
        refusal(alloc, None, b"{}"),
        Some(ManifestFault::MediaUnknown)
    );
}

/// An image whose last member is so many arrays in one another.
fn nested(alloc: Global, count: usize) -> Result<Vec<u8>, AllocError> {
    let mut bytes = joined(alloc, LAYERS, "", "],\"a\":")?;
    for _ in 0..count {
        bytes.push(b'[')?;
    }
    for _ in 0..count {
        bytes.push(b']')?;
    }
    bytes.push(b'}')?;
    Ok(bytes)
}

fn nested_fault(alloc: Global, count: usize) -> Option<ManifestFault> {
    match nested(alloc, count) {
        Ok(bytes) => refusal(alloc, Some(IMAGE.as_bytes()), bytes.as_slice()),
        Err(_) => Some(ManifestFault::Memory),
    }
}

#[test]
fn nesting(rt: HostRuntime) {
    let alloc = rt.alloc();
    // with the object around them 127, and 128
    assert_eq!(rt; nested_fault(alloc, 126), None);
    assert_eq!(rt; nested_fault(alloc, 127), Some(ManifestFault::NotJson));
    assert_eq!(rt; nested_fault(alloc, 100_000), Some(ManifestFault::NotJson));
}

#[test]
fn no_version(rt: HostRuntime) {
    let alloc = rt.alloc();
    let front = r#"{"config":{},"layers":[],"manifests":[]"#;
    let rows: [&str; 14] = [
        "",
        r#","schemaVersion":1"#,
        r#","schemaVersion":3"#,
        r#","schemaVersion":0"#,
        r#","schemaVersion":-2"#,
        r#","schemaVersion":2.0"#,
        r#","schemaVersion":2e0"#,
        r#","schemaVersion":20e-1"#,
        r#","schemaVersion":"2""#,
        r#","schemaVersion":null"#,
        r#","schemaVersion":[2]"#,
        r#","schemaVersion":true"#,
        r#","schemaVersion":18446744073709551618"#,
        r#","schemaVersion":2,"schemaVersion":1"#,
    ];
    for member in rows {
        assert_eq!(rt;
            fault(alloc, IMAGE, front, member, "}"),
            Some(ManifestFault::NoSchema),
            "{member}"
        );
        assert_eq!(rt;
            fault(alloc, INDEX, front, member, "}"),
            Some(ManifestFault::NoSchema),
            "{member}"
        );
    }
    assert_eq!(rt;
        fault(
            alloc,
            INDEX,
            front,
            r#","schemaVersion":1,"schemaVersion":2"#,
            "}"
        ),
        None
    );
}

#[test]
fn no_lists(rt: HostRuntime) {
    let alloc = rt.alloc();
    let rows: [&str; 13] = [
        "",
        r#","config":{}"#,
        r#","layers":[]"#,
        r#","config":[],"layers":[]"#,
        r#","config":[{}],"layers":[]"#,
        r#","config":null,"layers":[]"#,
        r#","config":"a","layers":[]"#,
        r#","config":1,"layers":[]"#,
        r#","config":{},"layers":{}"#,
        r#","config":{},"layers":{"0":{}}"#,
        r#","config":{},"layers":null"#,
        r#","config":{},"layers":"a""#,
        r#","manifests":[]"#,
    ];
    for members in rows {
        assert_eq!(rt;
            fault(alloc, IMAGE, r#"{"schemaVersion":2"#, members, "}"),
            Some(ManifestFault::NoSchema),
            "{members}"
        );
    }
    let rows: [&str; 6] = [
        "",
        r#","manifests":{}"#,
        r#","manifests":{"0":{}}"#,
        r#","manifests":null"#,
        r#","manifests":"a""#,
        r#","config":{},"layers":[]"#,
    ];
    for members in rows {
        assert_eq!(rt;
            fault(alloc, INDEX, r#"{"schemaVersion":2"#, members, "}"),
            Some(ManifestFault::NoSchema),
            "{members}"
        );
    }
}

#[test]
fn repeated_members(rt: HostRuntime) {
    let alloc = rt.alloc();
    let abc = [Digest::of(b"abc")];
    assert!(rt;
        is_image(
            alloc,
            IMAGE,
            SUBJECT,
            r#"null,"config":[],"layers":[{}],"config":"#,
            r#"{"digest":"sha256:ba7816bf8f01cfea414140de5dae2223b00361a396177a9cb410ff61f20015ad","size":3},"layers":[]}"#,
            abc.as_slice()
        )
    );
    // a name is the same however it is written
    assert!(rt;
        is_image(
            alloc,
            IMAGE,
            SUBJECT,
            r#"null,"c\u006fnfig":"#,
            r#"{"digest":"sha256:ba7816bf8f01cfea414140de5dae2223b00361a396177a9cb410ff61f20015ad","size":3}}"#,
            abc.as_slice()
        )
    );
}

#[test]
fn sizes(rt: HostRuntime) {
    let alloc = rt.alloc();
    assert_eq!(rt; MAX_BLOB, 68_719_476_736);
    let front =
        r#"{"digest":"sha256:ba7816bf8f01cfea414140de5dae2223b00361a396177a9cb410ff61f20015ad","size":"#;
    let rows: [(&str, bool); 16] = [
        ("0", true),
        ("1", true),
        ("68719476736", true),
        ("68719476737", false),
        ("18446744073709551615", false),
        ("18446744073709551616", false),
        ("1.0", false),
        ("1e3", false),
        ("0.0", false),
        ("-0", false),
        ("-1", false),
        ("\"3\"", false),
        ("null", false),
        ("[3]", false),
        ("{}", false),
        ("true", false),
    ];
    for (size, is_good) in rows {
        let expected = if is_good { None } else { BAD_AT_1 };
        assert_eq!(rt; layer_fault(alloc, front, size, "}"), expected, "{size}");
    }
}

/// Why an image with a layer of three parts is refused, if it is.
fn layer_fault(alloc: Global, front: &str, part: &str, back: &str) -> Option<ManifestFault> {
    match joined(alloc, front, part, back) {
        Ok(layer) => match std::str::from_utf8(layer.as_slice()) {
            Ok(layer) => fault(alloc, IMAGE, LAYERS, layer, "]}"),
            Err(_) => None,
        },
        Err(_) => Some(ManifestFault::Memory),
    }
}

#[test]
fn digests(rt: HostRuntime) {
    let alloc = rt.alloc();
    let rows: [(&str, bool); 18] = [
        (
            r#""sha256:ba7816bf8f01cfea414140de5dae2223b00361a396177a9cb410ff61f20015ad""#,
            true,
        ),
        (
            r#""sha256:ba7816bf8f01cfea414140de5dae2223b00361a396177a9cb410ff61f20015a\u0064""#,
            true,
        ),
        (
            r#""sha256:BA7816BF8F01CFEA414140DE5DAE2223B00361A396177A9CB410FF61F20015AD""#,
            false,
        ),
        (
            r#""sha256:ba7816bf8f01cfea414140de5dae2223b00361a396177a9cb410ff61f20015aD""#,
            false,
        ),
        (
            r#""SHA256:ba7816bf8f01cfea414140de5dae2223b00361a396177a9cb410ff61f20015ad""#,
            false,
        ),
        (
            r#""sha512:ba7816bf8f01cfea414140de5dae2223b00361a396177a9cb410ff61f20015ad""#,
            false,
        ),
        (
            r#""sha512:ddaf35a193617abacc417349ae20413112e6fa4e89a97ea20a9eeee64b55d39a2192992a274fc1a836ba3c23a3feebbd454d4423643ce80e2a9ac94fa54ca49f""#,
            false,
        ),
        (
            r#""sha256:ba7816bf8f01cfea414140de5dae2223b00361a396177a9cb410ff61f20015a""#,
            false,
        ),
        (
            r#""sha256:ba7816bf8f01cfea414140de5dae2223b00361a396177a9cb410ff61f20015ad0""#,
            false,
        ),
        (
            r#""sha256:ba7816bf8f01cfea414140de5dae2223b00361a396177a9cb410ff61f20015ag""#,
            false,
        ),
        (
            r#"" sha256:ba7816bf8f01cfea414140de5dae2223b00361a396177a9cb410ff61f20015ad""#,
            false,
        ),
        (
            r#""sha256:ba7816bf8f01cfea414140de5dae2223b00361a396177a9cb410ff61f20015ad\n""#,
            false,
        ),
        (
            r#""ba7816bf8f01cfea414140de5dae2223b00361a396177a9cb410ff61f20015ad""#,
            false,
        ),
        (r#""sha256:""#, false),
        (r#""""#, false),
        (
            r#"["sha256:ba7816bf8f01cfea414140de5dae2223b00361a396177a9cb410ff61f20015ad"]"#,
            false,
        ),
        ("null", false),
        ("1", false),
    ];
    for (digest, is_good) in rows {
        let expected = if is_good { None } else { BAD_AT_1 };
        assert_eq!(rt;
            layer_fault(alloc, r#"{"size":3,"digest":"#, digest, "}"),
            expected,
            "{digest}"
        );
    }
}

#[test]
fn first_bad_descriptors(rt: HostRuntime) {
    let alloc = rt.alloc();
    assert_eq!(rt;
        fault(alloc, IMAGE, CONFIG, "{}", ",\"layers\":[[],{}]}"),
        BAD_AT_0
    );
    assert_eq!(rt; fault(alloc, IMAGE, LAYERS, ABC, ",null,{}]}"), BAD_AT_2);
    assert_eq!(rt; fault(alloc, INDEX, MANIFESTS, ABC, ",null,{}]}"), BAD_AT_1);
    assert_eq!(rt; fault(alloc, INDEX, MANIFESTS, "1", ",null,{}]}"), BAD_AT_0);
    let front =
        r#"{"schemaVersion":2,"config":{"digest":"sha256:44136fa355b3678a1146ad16f7e8649e94fb4fc21fe77e8310c060f61caaff8a","size":2},"layers":[{"digest":"sha256:44136fa355b3678a1146ad16f7e8649e94fb4fc21fe77e8310c060f61caaff8a","size":2},"#;
    assert_eq!(rt; fault(alloc, IMAGE, front, OBJECT, ",[]]}"), BAD_AT_3);
    // what isn't to be stored is a descriptor too
    assert_eq!(rt;
        fault(
            alloc,
            IMAGE,
            LAYERS,
            r#"{"mediaType":"application/vnd.oci.image.layer.nondistributable.v1.tar","size":1}"#,
            "]}"
        ),
        BAD_AT_1
    );
    // and a media type may be anything
    assert_eq!(rt;
        fault(
            alloc,
            IMAGE,
            LAYERS,
            r#"{"mediaType":7,"size":3,"#,
            r#""digest":"sha256:ba7816bf8f01cfea414140de5dae2223b00361a396177a9cb410ff61f20015ad"}]}"#
        ),
        None
    );
}

/// A descriptor whose digest is its own among this many.
fn push_descriptor(bytes: &mut Vec<u8>, place: usize) -> Result<(), AllocError> {
    let mut digest = *b"sha256:0000000000000000000000000000000000000000000000000000000000000000";
    digest[70] = b'0' + (place % 10) as u8;
    digest[69] = b'0' + (place / 10 % 10) as u8;
    digest[68] = b'0' + (place / 100 % 10) as u8;
    digest[67] = b'0' + (place / 1000 % 10) as u8;
    bytes.extend_from_slice(b"{\"size\":0,\"digest\":\"")?;
    bytes.extend_from_slice(digest.as_slice())?;
    bytes.extend_from_slice(b"\"},")?;
    Ok(())
}

/// A manifest that begins so, with this many descriptors and then this last one.
fn many(alloc: Global, front: &str, count: usize, last: &str) -> Result<Vec<u8>, AllocError> {
    let mut bytes = Vec::from_slice(alloc, front.as_bytes())?;
    for place in 0..count {
        push_descriptor(&mut bytes, place)?;
    }
    bytes.extend_from_slice(last.as_bytes())?;
    bytes.extend_from_slice(b"]}")?;
    Ok(bytes)
}

fn many_fault(
    alloc: Global,
    media: &str,
    front: &str,
    count: usize,
    last: &str,
) -> Option<ManifestFault> {
    match many(alloc, front, count, last) {
        Ok(bytes) => refusal(alloc, Some(media.as_bytes()), bytes.as_slice()),
        Err(_) => Some(ManifestFault::Memory),
    }
}

/// How many digests an image refers to, and an index lists.
fn many_read(alloc: Global, media: &str, front: &str, count: usize, last: &str) -> usize {
    match many(alloc, front, count, last) {
        Ok(bytes) => match read_manifest(alloc, Some(media.as_bytes()), bytes.as_slice()) {
            Ok(manifest) => manifest.refs.len().saturating_add(manifest.children.len()),
            Err(_) => 0,
        },
        Err(_) => 0,
    }
}

#[test]
fn numbers_of_descriptors(rt: HostRuntime) {
    let alloc = rt.alloc();
    assert_eq!(rt; MAX_DESCRIPTORS, 1000);
    // the config, 998 layers and one more; and 999 and one more
    assert_eq!(rt; many_read(alloc, IMAGE, LAYERS, 998, ABC), 1000);
    assert_eq!(rt;
        many_fault(alloc, IMAGE, LAYERS, 999, ABC),
        Some(ManifestFault::TooMany)
    );
    assert_eq!(rt; many_read(alloc, INDEX, MANIFESTS, 999, ABC), 1000);
    assert_eq!(rt;
        many_fault(alloc, INDEX, MANIFESTS, 1000, ABC),
        Some(ManifestFault::TooMany)
    );
    // it comes before a bad one, and the last place is told
    assert_eq!(rt;
        many_fault(alloc, IMAGE, LAYERS, 999, "{}"),
        Some(ManifestFault::TooMany)
    );
    assert_eq!(rt; many_fault(alloc, IMAGE, LAYERS, 998, "{}"), BAD_AT_999);
    assert_eq!(rt; many_fault(alloc, INDEX, MANIFESTS, 999, "{}"), BAD_AT_999);
}

/// Why an image of this many bytes is refused, if it is: blanks stand at its end.
fn long_fault(alloc: Global, media: Option<&[u8]>, length: usize) -> Option<ManifestFault> {
    match of_length(alloc, length) {
        Ok(bytes) => refusal(alloc, media, bytes.as_slice()),
        Err(_) => Some(ManifestFault::Memory),
    }
}

fn of_length(alloc: Global, length: usize) -> Result<Vec<u8>, AllocError> {
    let mut bytes = joined(alloc, LAYERS, ABC, "]}")?;
    for _ in bytes.len()..length {
        bytes.push(b' ')?;
    }
    Ok(bytes)
}

#[test]
fn lengths(rt: HostRuntime) {
    let alloc = rt.alloc();
    assert_eq!(rt; MAX_MANIFEST, 4_194_304);
    assert_eq!(rt; long_fault(alloc, Some(IMAGE.as_bytes()), 4_194_304), None);
    assert_eq!(rt;
        long_fault(alloc, Some(IMAGE.as_bytes()), 4_194_305),
        Some(ManifestFault::TooLong)
    );
    // it comes before all else
    assert_eq!(rt;
        long_fault(alloc, None, 4_194_304),
        Some(ManifestFault::MediaUnknown)
    );
    assert_eq!(rt;
        long_fault(alloc, None, 4_194_305),
        Some(ManifestFault::TooLong)
    );
}

#[test]
fn copies(rt: HostRuntime) -> Result<(), Fail> {
    let alloc = rt.alloc();
    let manifest = read_manifest(alloc, None, WHOLE.as_bytes())?;
    let copy = manifest.copy(alloc)?;
    let refs: &DigestList = &copy.refs;
    assert_eq!(rt; refs.len(), 3);
    assert!(rt; is_same(&copy, IMAGE, manifest.refs.as_slice(), [].as_slice(), None));
    Ok(())
}

#[test]
fn faults(rt: HostRuntime) -> Result<(), Fail> {
    let alloc = rt.alloc();
    let rows: [(ManifestFault, &str); 7] = [
        (ManifestFault::MediaUnknown, "unknown media type"),
        (ManifestFault::NotJson, "not a JSON object"),
        (ManifestFault::NoSchema, "not of schema 2"),
        (
            ManifestFault::BadDescriptor { place: 7 },
            "no descriptor at 7",
        ),
        (ManifestFault::TooMany, "too many descriptors"),
        (ManifestFault::TooLong, "too long"),
        (ManifestFault::from(Memory), "out of memory"),
    ];
    for (fault, text) in rows {
        assert_eq!(rt; format!(in alloc; "{fault}")?.as_str(), text);
    }
    Ok(())
}

#[test]
fn laws_hold(_rt: HostRuntime) {
    digests_have_one_text();
    manifests_are_sound();
    refusals_have_a_cause();
}
