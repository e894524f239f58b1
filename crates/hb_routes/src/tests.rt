//! Requests, good and hostile: each row of the tables of routes, and targets at the limits.

ghost use Rattle.std.specs.Prelude.{◌≡◌};

use crate::laws::{control_paths_are_read, one_route, registry_paths_are_read};
use crate::{Given, MOST_TAGS, Route, RouteFault, Router, WantedJob};
use hb_text::{Digest, Duplicate, Name, NameFault, ProjectName, Reference, Tag};
use std::alloc::{AllocError, Global};
use std::test::Fail;

fn routed(alloc: Global, method: &[u8], target: &[u8]) -> Result<Route, RouteFault> {
    match Router::new(alloc) {
        Ok(router) => router.route(alloc, method, target),
        Err(_) => Err(RouteFault::Memory),
    }
}

fn is_same(route: &Route, want: &Result<Route, NameFault>) -> bool {
    match want {
        Ok(want) => route == want,
        Err(_) => false,
    }
}

fn is_given(found: &Result<Route, RouteFault>, want: &Result<Route, NameFault>) -> bool {
    match found {
        Ok(route) => is_same(route, want),
        Err(_) => false,
    }
}

// Whether the request has this route.
fn gives(alloc: Global, method: &[u8], target: &[u8], want: Result<Route, NameFault>) -> bool {
    let found = routed(alloc, method, target);
    is_given(&found, &want)
}

// Whether the request is refused for this cause.
fn refuses(alloc: Global, method: &[u8], target: &[u8], want: RouteFault) -> bool {
    match routed(alloc, method, target) {
        Ok(_) => false,
        Err(fault) => fault == want,
    }
}

fn repository(alloc: Global) -> Result<Name, NameFault> {
    Name::read(alloc, b"library/a")
}

fn library(alloc: Global) -> Result<ProjectName, NameFault> {
    ProjectName::read(alloc, b"library")
}

// SHA-256 of `abc`.
fn abc() -> Digest {
    Digest::of(b"abc")
}

fn by_tag(alloc: Global, tag: &[u8]) -> Result<Reference, NameFault> {
    Ok(Reference::Tag(Tag::read(alloc, tag)?))
}

const BLOB: &[u8] =
    b"/v2/library/a/blobs/sha256:ba7816bf8f01cfea414140de5dae2223b00361a396177a9cb410ff61f20015ad";

fn get_blob(alloc: Global) -> Result<Route, NameFault> {
    Ok(Route::GetBlob {
        name: repository(alloc)?,
        digest: abc(),
    })
}

fn head_blob(alloc: Global) -> Result<Route, NameFault> {
    Ok(Route::HeadBlob {
        name: repository(alloc)?,
        digest: abc(),
    })
}

#[test]
fn blobs(rt: HostRuntime) {
    let alloc = rt.alloc();
    assert!(rt; gives(alloc, b"GET", b"/v2/", Ok(Route::Base)));
    assert!(rt; gives(alloc, b"GET", b"/v2/?n=1", Ok(Route::Base)));
    assert!(rt; gives(alloc, b"GET", BLOB, get_blob(alloc)));
    assert!(rt; gives(alloc, b"HEAD", BLOB, head_blob(alloc)));
}

fn begin_upload(alloc: Global) -> Result<Route, NameFault> {
    Ok(Route::BeginUpload {
        name: repository(alloc)?,
    })
}

fn push_blob(alloc: Global) -> Result<Route, NameFault> {
    Ok(Route::PushBlob {
        name: repository(alloc)?,
        digest: abc(),
    })
}

#[test]
fn begun_uploads(rt: HostRuntime) {
    let alloc = rt.alloc();
    let begun: [&[u8]; 3] = [
        b"/v2/library/a/blobs/uploads/",
        b"/v2/library/a/blobs/uploads/?",
        b"/v2/library/a/blobs/uploads/?Digest=x&from=other/b",
    ];
    for target in begun {
        assert!(rt; gives(alloc, b"POST", target, begin_upload(alloc)));
    }
    // escapes of either case, and the first of two digests
    let pushed: [&[u8]; 3] = [
        b"/v2/library/a/blobs/uploads/?digest=sha256:ba7816bf8f01cfea414140de5dae2223b00361a396177a9cb410ff61f20015ad",
        b"/v2/library/a/blobs/uploads/?digest=sha256%3A%62a7816bf8f01cfea414140de5dae2223b00361a396177a9cb410ff61f20015ad&digest=x",
        b"/v2/library/a/blobs/uploads/?a&digest=sha256%3a%62a7816bf8f01cfea414140de5dae2223b00361a396177a9cb410ff61f20015ad",
    ];
    for target in pushed {
        assert!(rt; gives(alloc, b"POST", target, push_blob(alloc)));
    }
}

fn mount_from(alloc: Global, giver: &[u8]) -> Result<Route, NameFault> {
    Ok(Route::MountBlob {
        name: repository(alloc)?,
        digest: abc(),
        giver: Some(Name::read(alloc, giver)?),
    })
}

fn mount(alloc: Global) -> Result<Route, NameFault> {
    Ok(Route::MountBlob {
        name: repository(alloc)?,
        digest: abc(),
        giver: None,
    })
}

// A mount counts before a digest, wherever it stands.
#[test]
fn mounts(rt: HostRuntime) {
    let alloc = rt.alloc();
    let from =
        b"/v2/library/a/blobs/uploads/?digest=x&from=other%2Fb&mount=sha256:ba7816bf8f01cfea414140de5dae2223b00361a396177a9cb410ff61f20015ad";
    assert!(rt; gives(alloc, b"POST", from, mount_from(alloc, b"other/b")));
    let rows: [&[u8]; 3] = [
        b"/v2/library/a/blobs/uploads/?mount=sha256:ba7816bf8f01cfea414140de5dae2223b00361a396177a9cb410ff61f20015ad",
        b"/v2/library/a/blobs/uploads/?mount=sha256:ba7816bf8f01cfea414140de5dae2223b00361a396177a9cb410ff61f20015ad&from=b",
        b"/v2/library/a/blobs/uploads/?mount=sha256:ba7816bf8f01cfea414140de5dae2223b00361a396177a9cb410ff61f20015ad&from=other%2Fb%",
    ];
    for target in rows {
        assert!(rt; gives(alloc, b"POST", target, mount(alloc)));
    }
}

fn grow_upload(alloc: Global, upload: Option<u64>) -> Result<Route, NameFault> {
    Ok(Route::GrowUpload {
        name: repository(alloc)?,
        upload,
    })
}

fn show_upload(alloc: Global, upload: Option<u64>) -> Result<Route, NameFault> {
    Ok(Route::ShowUpload {
        name: repository(alloc)?,
        upload,
    })
}

fn finish_upload(alloc: Global, upload: Option<u64>) -> Result<Route, NameFault> {
    Ok(Route::FinishUpload {
        name: repository(alloc)?,
        upload,
        digest: abc(),
    })
}

#[test]
fn open_uploads(rt: HostRuntime) {
    let alloc = rt.alloc();
    let last = b"/v2/library/a/blobs/uploads/18446744073709551615";
    assert!(rt; gives(alloc, b"PATCH", last, grow_upload(alloc, Some(u64::MAX))));
    assert!(rt;
        gives(
            alloc,
            b"GET",
            b"/v2/library/a/blobs/uploads/0?x",
            show_upload(alloc, Some(0))
        )
    );
    let done =
        b"/v2/library/a/blobs/uploads/7?x=1&digest=sha256:ba7816bf8f01cfea414140de5dae2223b00361a396177a9cb410ff61f20015ad";
    assert!(rt; gives(alloc, b"PUT", done, finish_upload(alloc, Some(7))));
}

// Ids that are no numbers: the path names an upload or a job all the same.
#[test]
fn ids_that_are_no_numbers(rt: HostRuntime) {
    let alloc = rt.alloc();
    let rows: [&[u8]; 6] = [
        b"/v2/library/a/blobs/uploads/007",
        b"/v2/library/a/blobs/uploads/18446744073709551616",
        b"/v2/library/a/blobs/uploads/x",
        b"/v2/library/a/blobs/uploads/-1",
        b"/v2/library/a/blobs/uploads/%37",
        b"/v2/library/a/blobs/uploads/\xff",
    ];
    for target in rows {
        assert!(rt; gives(alloc, b"GET", target, show_upload(alloc, None)));
    }
    assert!(rt;
        gives(
            alloc,
            b"GET",
            b"/harbor/jobs/07",
            Ok(Route::ShowJob { job: None })
        )
    );
    assert!(rt;
        gives(
            alloc,
            b"GET",
            b"/harbor/jobs/x",
            Ok(Route::ShowJob { job: None })
        )
    );
    assert!(rt;
        gives(
            alloc,
            b"GET",
            b"/harbor/jobs/7?x",
            Ok(Route::ShowJob { job: Some(7) })
        )
    );
}

fn put_manifest(alloc: Global, tag: &[u8]) -> Result<Route, NameFault> {
    Ok(Route::PutManifest {
        name: repository(alloc)?,
        reference: by_tag(alloc, tag)?,
    })
}

fn get_manifest(alloc: Global, tag: &[u8]) -> Result<Route, NameFault> {
    Ok(Route::GetManifest {
        name: repository(alloc)?,
        reference: by_tag(alloc, tag)?,
    })
}

fn head_manifest(alloc: Global, tag: &[u8]) -> Result<Route, NameFault> {
    Ok(Route::HeadManifest {
        name: repository(alloc)?,
        reference: by_tag(alloc, tag)?,
    })
}

fn delete_manifest(alloc: Global) -> Result<Route, NameFault> {
    Ok(Route::DeleteManifest {
        name: repository(alloc)?,
        reference: Reference::Digest(abc()),
    })
}

#[test]
fn manifests(rt: HostRuntime) {
    let alloc = rt.alloc();
    let target = b"/v2/library/a/manifests/latest";
    assert!(rt; gives(alloc, b"PUT", target, put_manifest(alloc, b"latest")));
    assert!(rt; gives(alloc, b"GET", target, get_manifest(alloc, b"latest")));
    assert!(rt; gives(alloc, b"HEAD", target, head_manifest(alloc, b"latest")));
    let digest =
        b"/v2/library/a/manifests/sha256:ba7816bf8f01cfea414140de5dae2223b00361a396177a9cb410ff61f20015ad";
    assert!(rt; gives(alloc, b"DELETE", digest, delete_manifest(alloc)));
    // a tag of 128 bytes
    let long =
        b"/v2/library/a/manifests/ZZZZZZZZZZZZZZZZZZZZZZZZZZZZZZZZZZZZZZZZZZZZZZZZZZZZZZZZZZZZZZZZZZZZZZZZZZZZZZZZZZZZZZZZZZZZZZZZZZZZZZZZZZZZZZZZZZZZZZZZZZZZZZZZ";
    assert!(rt; gives(alloc, b"GET", long, get_manifest(alloc, &long[24..])));
}

fn list_tags(alloc: Global, most: u32) -> Result<Route, NameFault> {
    Ok(Route::ListTags {
        name: repository(alloc)?,
        last: None,
        most,
    })
}

fn list_tags_behind(alloc: Global, last: &[u8], most: u32) -> Result<Route, NameFault> {
    Ok(Route::ListTags {
        name: repository(alloc)?,
        last: Some(Tag::read(alloc, last)?),
        most,
    })
}

#[test]
fn lists_of_tags(rt: HostRuntime) {
    let alloc = rt.alloc();
    let rows: [(&[u8], u32); 9] = [
        (b"/v2/library/a/tags/list", MOST_TAGS),
        (b"/v2/library/a/tags/list?", 1_000),
        (b"/v2/library/a/tags/list?n=0", 0),
        (b"/v2/library/a/tags/list?n=999", 999),
        (b"/v2/library/a/tags/list?n=1000", 1_000),
        (b"/v2/library/a/tags/list?n=18446744073709551616", 1_000),
        (b"/v2/library/a/tags/list?n=01", 1_000),
        (b"/v2/library/a/tags/list?n=%31%30&n=3", 10),
        (b"/v2/library/a/tags/list?last=a+b&n=2?n=3", 1_000),
    ];
    for (target, most) in rows {
        assert!(rt; gives(alloc, b"GET", target, list_tags(alloc, most)));
    }
    let behind = b"/v2/library/a/tags/list?n=2&last=v%31";
    assert!(rt; gives(alloc, b"GET", behind, list_tags_behind(alloc, b"v1", 2)));
}

fn show_project(alloc: Global) -> Result<Route, NameFault> {
    Ok(Route::ShowProject {
        name: library(alloc)?,
    })
}

fn put_rules(alloc: Global) -> Result<Route, NameFault> {
    Ok(Route::PutRules {
        name: library(alloc)?,
    })
}

fn put_project(alloc: Global, limit: Given<i64>, version: Given<u64>) -> Result<Route, NameFault> {
    Ok(Route::PutProject {
        name: library(alloc)?,
        limit,
        version,
    })
}

#[test]
fn projects(rt: HostRuntime) {
    let alloc = rt.alloc();
    assert!(rt;
        gives(
            alloc,
            b"GET",
            b"/harbor/projects/library",
            show_project(alloc)
        )
    );
    assert!(rt;
        gives(
            alloc,
            b"PUT",
            b"/harbor/projects/library/rules",
            put_rules(alloc)
        )
    );
    let absent = put_project(alloc, Given::Absent, Given::Absent);
    assert!(rt; gives(alloc, b"PUT", b"/harbor/projects/library", absent));
    let invalid: [&[u8]; 5] = [
        b"/harbor/projects/library?limit=-2&version=x",
        b"/harbor/projects/library?limit=-0&version=-1",
        b"/harbor/projects/library?limit=9223372036854775808&version=18446744073709551616",
        b"/harbor/projects/library?limit=&version=+1",
        b"/harbor/projects/library?version=%zz&limit=%31%",
    ];
    for target in invalid {
        assert!(rt;
            gives(
                alloc,
                b"PUT",
                target,
                put_project(alloc, Given::Invalid, Given::Invalid)
            )
        );
    }
}

#[test]
fn limits_and_versions(rt: HostRuntime) {
    let alloc = rt.alloc();
    let none = put_project(alloc, Given::Value(-1), Given::Value(0));
    assert!(rt;
        gives(
            alloc,
            b"PUT",
            b"/harbor/projects/library?limit=-1&version=0",
            none
        )
    );
    let escaped = put_project(alloc, Given::Value(-1), Given::Invalid);
    assert!(rt;
        gives(
            alloc,
            b"PUT",
            b"/harbor/projects/library?limit=%2D1&version",
            escaped
        )
    );
    let most = put_project(alloc, Given::Value(i64::MAX), Given::Value(u64::MAX));
    let target = b"/harbor/projects/library?limit=9223372036854775807&version=18446744073709551615";
    assert!(rt; gives(alloc, b"PUT", target, most));
}

fn collect(untagged: bool) -> Result<Route, NameFault> {
    Ok(Route::QueueJob {
        kind: Given::Value(WantedJob::Collect { untagged }),
    })
}

fn retain(project: Given<ProjectName>) -> Result<Route, NameFault> {
    Ok(Route::QueueJob {
        kind: Given::Value(WantedJob::Retain { project }),
    })
}

fn retain_library(alloc: Global) -> Result<Route, NameFault> {
    retain(Given::Value(library(alloc)?))
}

#[test]
fn jobs(rt: HostRuntime) {
    let alloc = rt.alloc();
    let rows: [(&[u8], bool); 5] = [
        (b"/harbor/jobs?kind=collect&untagged=true", true),
        (b"/harbor/jobs?untagged=tr%75e&kind=collect", true),
        (b"/harbor/jobs?kind=collect", false),
        (b"/harbor/jobs?kind=collect&untagged=True", false),
        (
            b"/harbor/jobs?kind=collect&untagged=false&untagged=true",
            false,
        ),
    ];
    for (target, untagged) in rows {
        assert!(rt; gives(alloc, b"POST", target, collect(untagged)));
    }
    let retained = b"/harbor/jobs?kind=retain&project=library";
    assert!(rt; gives(alloc, b"POST", retained, retain_library(alloc)));
    assert!(rt;
        gives(
            alloc,
            b"POST",
            b"/harbor/jobs?kind=retain",
            retain(Given::Absent)
        )
    );
    let invalid = b"/harbor/jobs?kind=retain&project=a/b";
    assert!(rt; gives(alloc, b"POST", invalid, retain(Given::Invalid)));
    assert!(rt;
        gives(
            alloc,
            b"POST",
            b"/harbor/jobs",
            Ok(Route::QueueJob {
                kind: Given::Absent
            })
        )
    );
    let other = b"/harbor/jobs?kind=Collect";
    assert!(rt;
        gives(
            alloc,
            b"POST",
            other,
            Ok(Route::QueueJob {
                kind: Given::Invalid
            })
        )
    );
}

// Paths that name nothing, whatever the method.
#[test]
fn unknown_paths(rt: HostRuntime) {
    let alloc = rt.alloc();
    let rows: [&[u8]; 30] = [
        b"",
        b"/",
        b"*",
        b"?",
        b"/v2",
        b"v2/",
        b"//v2/",
        b"/v2//",
        b"/V2/",
        b"/v1/",
        b"/v2/library",
        b"/v2/_catalog",
        b"/v2/library/a/tags",
        b"/v2/library/a/tags/list/",
        b"/v2/library/a/tags/list%2F",
        b"/v2/library/a/tags/lists",
        b"/v2/library/a/uploads/7",
        b"/v2/library/a/blobs",
        b"/v2/library/a/referrers/sha256:x",
        b"/v2/library/a/%62lobs/x",
        b"http://h/v2/",
        b"/harbor",
        b"/harbor/",
        b"/harbor/projects",
        b"/harbor/projects/",
        b"/harbor/projects//rules",
        b"/harbor/projects/a/rules/",
        b"/harbor/jobs/",
        b"/harbor/jobs/7/",
        b"/harbor/projects/\xff",
    ];
    for target in rows {
        assert!(rt; refuses(alloc, b"BREW", target, RouteFault::Unknown));
    }
}

// Methods that what the path names isn't served by. They are refused before a name is looked at.
#[test]
fn unknown_methods(rt: HostRuntime) {
    let alloc = rt.alloc();
    let rows: [(&[u8], &[u8]); 16] = [
        (b"HEAD", b"/v2/"),
        (b"get", b"/v2/"),
        (b"", b"/v2/"),
        (b"GET ", b"/v2/"),
        (b"POST", b"/v2/tags/list"),
        (b"GET", b"/v2/library/a/blobs/uploads/"),
        (b"DELETE", b"/v2/library/a/blobs/uploads/7"),
        (b"POST", b"/v2/library/a/blobs/uploads/7"),
        (b"DELETE", b"/v2/A/blobs/x"),
        (b"PATCH", b"/v2/library/a/manifests/latest"),
        (b"POST", b"/harbor/projects/A"),
        (b"GET", b"/harbor/projects/A/rules"),
        (b"GET", b"/harbor/jobs"),
        (b"PUT", b"/harbor/jobs"),
        (b"POST", b"/harbor/jobs/7"),
        (b"patch", b"/v2/library/a/blobs/uploads/7"),
    ];
    for (method, target) in rows {
        assert!(rt; refuses(alloc, method, target, RouteFault::MethodUnknown));
    }
}

// Names outside their grammar. They are refused before what stands behind them is looked at.
#[test]
fn invalid_names(rt: HostRuntime) {
    let alloc = rt.alloc();
    let rows: [(&[u8], &[u8]); 17] = [
        (b"GET", b"/v2/tags/list"),
        (b"GET", b"/v2//tags/list"),
        (b"GET", b"/v2/a/tags/list"),
        (b"GET", b"/v2/a//b/tags/list"),
        (b"GET", b"/v2/./a/tags/list"),
        (b"GET", b"/v2/a/../b/tags/list"),
        (b"GET", b"/v2/library%2Fa/tags/list"),
        (b"GET", b"/v2/Library/a/tags/list"),
        (b"GET", b"/v2/library/\xc3\xa9/tags/list"),
        (b"GET", b"/v2/library/\xff/tags/list"),
        (b"POST", b"/v2/blobs/uploads/"),
        (b"PUT", b"/v2/blobs/uploads/x?digest=x"),
        (b"GET", b"/v2/blobs/x"),
        (b"GET", b"/v2/manifests/-"),
        (b"GET", b"/harbor/projects/A"),
        (b"PUT", b"/harbor/projects/%61?limit=x"),
        (b"PUT", b"/harbor/projects/a..b/rules"),
    ];
    for (method, target) in rows {
        assert!(rt; refuses(alloc, method, target, RouteFault::NameInvalid));
    }
}

#[test]
fn invalid_tags_and_digests(rt: HostRuntime) {
    let alloc = rt.alloc();
    let tags: [&[u8]; 4] = [
        b"/v2/library/a/manifests/",
        b"/v2/library/a/manifests/.a",
        b"/v2/library/a/manifests/a%2E",
        b"/v2/library/a/manifests/ZZZZZZZZZZZZZZZZZZZZZZZZZZZZZZZZZZZZZZZZZZZZZZZZZZZZZZZZZZZZZZZZZZZZZZZZZZZZZZZZZZZZZZZZZZZZZZZZZZZZZZZZZZZZZZZZZZZZZZZZZZZZZZZZZ",
    ];
    for target in tags {
        assert!(rt; refuses(alloc, b"GET", target, RouteFault::TagInvalid));
    }
    let digests: [(&[u8], &[u8]); 13] = [
        (b"GET", b"/v2/library/a/blobs/"),
        (b"GET", b"/v2/library/a/manifests/a:b"),
        (b"GET", b"/v2/library/a/manifests/:"),
        // the ending of a blob
        (b"GET", b"/v2/library/a/blobs/uploads"),
        (
            b"GET",
            b"/v2/library/a/blobs/sha256:BA7816BF8F01CFEA414140DE5DAE2223B00361A396177A9CB410FF61F20015AD",
        ),
        (
            b"GET",
            b"/v2/library/a/blobs/sha256%3Aba7816bf8f01cfea414140de5dae2223b00361a396177a9cb410ff61f20015ad",
        ),
        // a blob of a repository whose name ends as an upload does
        (b"GET", b"/v2/library/blobs/uploads/x/blobs/sha256:x"),
        (b"POST", b"/v2/library/a/blobs/uploads/?digest"),
        (
            b"POST",
            b"/v2/library/a/blobs/uploads/?digest=&digest=sha256:ba7816bf8f01cfea414140de5dae2223b00361a396177a9cb410ff61f20015ad",
        ),
        // one bad escape leaves the others undecoded too
        (
            b"POST",
            b"/v2/library/a/blobs/uploads/?digest=sha256%3Aba7816bf8f01cfea414140de5dae2223b00361a396177a9cb410ff61f20015ad%zz",
        ),
        (
            b"POST",
            b"/v2/library/a/blobs/uploads/?mount=x&digest=sha256:ba7816bf8f01cfea414140de5dae2223b00361a396177a9cb410ff61f20015ad",
        ),
        (b"PUT", b"/v2/library/a/blobs/uploads/x"),
        (
            b"PUT",
            b"/v2/library/a/blobs/uploads/7?Digest=sha256:ba7816bf8f01cfea414140de5dae2223b00361a396177a9cb410ff61f20015ad",
        ),
    ];
    for (method, target) in digests {
        assert!(rt; refuses(alloc, method, target, RouteFault::DigestInvalid));
    }
}

// A piece so many times between two texts.
fn repeated(
    alloc: Global,
    front: &[u8],
    piece: &[u8],
    times: usize,
    end: &[u8],
) -> Result<Vec<u8>, AllocError> {
    let mut text = Vec::new(alloc);
    text.extend_from_slice(front)?;
    for _ in 0..times {
        text.extend_from_slice(piece)?;
    }
    text.extend_from_slice(end)?;
    Ok(text)
}

// What a GET of such a target is refused for.
fn refusal(alloc: Global, target: Result<Vec<u8>, AllocError>) -> Option<RouteFault> {
    match target {
        Ok(target) => match routed(alloc, b"GET", &target) {
            Ok(_) => None,
            Err(fault) => Some(fault),
        },
        Err(_) => Some(RouteFault::Memory),
    }
}

#[test]
fn longest_names(rt: HostRuntime) {
    let alloc = rt.alloc();
    let name = repeated(alloc, b"/v2/a/", b"b", 253, b"/tags/list");
    assert!(rt; refusal(alloc, name) == None);
    let name = repeated(alloc, b"/v2/a/", b"b", 254, b"/tags/list");
    assert!(rt; refusal(alloc, name) == Some(RouteFault::NameInvalid));
    let project = repeated(alloc, b"/harbor/projects/", b"b", 255, b"");
    assert!(rt; refusal(alloc, project) == None);
    let project = repeated(alloc, b"/harbor/projects/", b"b", 256, b"");
    assert!(rt; refusal(alloc, project) == Some(RouteFault::NameInvalid));
}

#[test]
fn longest_targets(rt: HostRuntime) {
    let alloc = rt.alloc();
    let parts = repeated(alloc, b"/v2/", b"a/", 8_000, b"tags/list");
    assert!(rt; refusal(alloc, parts) == Some(RouteFault::NameInvalid));
    let slashes = repeated(alloc, b"/v2/", b"/", 60_000, b"");
    assert!(rt; refusal(alloc, slashes) == Some(RouteFault::Unknown));
    let controls = repeated(alloc, b"/harbor/projects/", b"a/", 8_000, b"rules");
    assert!(rt; refusal(alloc, controls) == Some(RouteFault::Unknown));
    let pieces = repeated(alloc, b"/v2/library/a/tags/list?", b"&n", 30_000, b"&n=5");
    assert!(rt; refusal(alloc, pieces) == None);
    let escapes = repeated(alloc, b"/v2/library/a/tags/list?n=", b"%31", 20_000, b"");
    assert!(rt; refusal(alloc, escapes) == None);
}

fn is_copied(alloc: Global, made: Result<Route, RouteFault>) -> bool {
    match made {
        Ok(route) => match route.copy(alloc) {
            Ok(copy) => copy == route,
            Err(_) => false,
        },
        Err(_) => false,
    }
}

#[test]
fn copies_are_equal(rt: HostRuntime) {
    let alloc = rt.alloc();
    let rows: [(&[u8], &[u8]); 6] = [
        (b"GET", b"/v2/"),
        (b"PATCH", b"/v2/library/a/blobs/uploads/7"),
        (b"GET", b"/v2/library/a/manifests/latest"),
        (b"GET", b"/v2/library/a/tags/list?last=v1"),
        (b"PUT", b"/harbor/projects/library?limit=7"),
        (b"POST", b"/harbor/jobs?kind=retain&project=library"),
    ];
    for (method, target) in rows {
        assert!(rt; is_copied(alloc, routed(alloc, method, target)));
    }
}

#[test]
fn laws_hold() {
    one_route();
    registry_paths_are_read();
    control_paths_are_read();
}

#[test]
fn faults_as_text(rt: HostRuntime) -> Result<(), Fail> {
    let alloc = rt.alloc();
    let rows: [(RouteFault, &str); 6] = [
        (RouteFault::Unknown, "unknown path"),
        (RouteFault::MethodUnknown, "unknown method"),
        (RouteFault::NameInvalid, "not a name"),
        (RouteFault::TagInvalid, "not a tag"),
        (RouteFault::DigestInvalid, "not a digest"),
        (RouteFault::Memory, "out of memory"),
    ];
    for (fault, text) in rows {
        assert!(rt; format!(in alloc; "{fault}")?.as_str() == text);
    }
    Ok(())
}
