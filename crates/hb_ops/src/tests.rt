//! Errors, byte for byte, in the form of the OCI Distribution Specification 1.1 ("Error Codes").

use crate::{error, refused};
use hb_desk::{Answer, Refusal};
use hb_records::Listed;
use hb_text::{Digest, Text};
use std::alloc::Global;
use std::test::Fail;

fn says(text: &Option<Text>, bytes: &[u8]) -> bool {
    match text {
        Some(text) => text.bytes() == bytes,
        None => false,
    }
}

fn is(answer: &Answer, status: u16, retry: Option<u64>, body: &[u8]) -> bool {
    answer.status == status && answer.retry == retry && says(&answer.body, body)
}

// The answer to a refusal at the moment 100.
fn answer_to(alloc: Global, refusal: &Refusal) -> Result<Answer, Fail> {
    Ok(refused(alloc, refusal, 100)?)
}

#[test]
fn no_project(rt: HostRuntime) -> Result<(), Fail> {
    let answer = answer_to(rt.alloc(), &Refusal::NoProject)?;
    let body =
        b"{\"errors\":[{\"code\":\"NAME_UNKNOWN\",\"detail\":{},\"message\":\"name unknown\"}]}";
    assert!(rt; is(&answer, 404, None, body));
    assert!(rt; says(&answer.code, b"NAME_UNKNOWN"));
    assert!(rt; says(&answer.media, b"application/json"));
    Ok(())
}

#[test]
fn over_limit(rt: HostRuntime) -> Result<(), Fail> {
    let refusal = Refusal::OverLimit {
        used: 90,
        adds: 20,
        limit: 100,
    };
    let answer = answer_to(rt.alloc(), &refusal)?;
    let body =
        b"{\"errors\":[{\"code\":\"DENIED\",\"detail\":{\"adds\":20,\"limit\":100,\"used\":90},\"message\":\"denied\"}]}";
    assert!(rt; is(&answer, 403, None, body));
    Ok(())
}

#[test]
fn missing_ref(rt: HostRuntime) -> Result<(), Fail> {
    let digest = Digest([0xab; 32]);
    let answer = answer_to(rt.alloc(), &Refusal::MissingRef { digest })?;
    let body =
        b"{\"errors\":[{\"code\":\"MANIFEST_BLOB_UNKNOWN\",\"detail\":{\"digest\":\"sha256:abababababababababababababababababababababababababababababababab\"},\"message\":\"manifest blob unknown\"}]}";
    assert!(rt; is(&answer, 404, None, body));
    Ok(())
}

#[test]
fn collecting(rt: HostRuntime) -> Result<(), Fail> {
    let answer = answer_to(rt.alloc(), &Refusal::Collecting { until: 130 })?;
    let body =
        b"{\"errors\":[{\"code\":\"COLLECTING\",\"detail\":{\"until\":130},\"message\":\"collecting\"}]}";
    assert!(rt; is(&answer, 503, Some(30), body));
    let over = answer_to(rt.alloc(), &Refusal::Collecting { until: 99 })?;
    assert_eq!(rt; over.retry, Some(0));
    Ok(())
}

#[test]
fn busy(rt: HostRuntime) -> Result<(), Fail> {
    let answer = answer_to(rt.alloc(), &Refusal::Busy { upload: 7 })?;
    let body = b"{\"errors\":[{\"code\":\"BUSY\",\"detail\":{\"upload\":7},\"message\":\"busy\"}]}";
    assert!(rt; is(&answer, 503, Some(1), body));
    Ok(())
}

#[test]
fn raced(rt: HostRuntime) -> Result<(), Fail> {
    let answer = answer_to(rt.alloc(), &Refusal::Raced { placed: 5, gone: 6 })?;
    let body =
        b"{\"errors\":[{\"code\":\"RACED\",\"detail\":{\"gone\":6,\"placed\":5},\"message\":\"raced\"}]}";
    assert!(rt; is(&answer, 503, Some(1), body));
    Ok(())
}

#[test]
fn another_error(rt: HostRuntime) -> Result<(), Fail> {
    let alloc = rt.alloc();
    let answer = error(alloc, 405, b"UNSUPPORTED", Listed::new(alloc), None)?;
    let body =
        b"{\"errors\":[{\"code\":\"UNSUPPORTED\",\"detail\":{},\"message\":\"unsupported\"}]}";
    assert!(rt; is(&answer, 405, None, body));
    Ok(())
}
