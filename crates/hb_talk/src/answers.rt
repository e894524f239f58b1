//! What is answered to a request, and the errors that no event decides.
ghost use Rattle.std.specs.Prelude.{◌≡◌, ◌≢◌, ◌++◌, ◌∷◌, [], IfOk, codes, unwrap_or};
ghost use Rattle.hb_text.specs.Digests.{digest_of, digest_text};
ghost use Rattle.hb_records.specs.declared.puts.PutAsk.{PutAsk as Put};
ghost use Rattle.std.specs.declared.option.Option.{Option};
ghost use Rattle.hb_ops.specs.Errors.{digest_item, error_answer, number_item, plain};
ghost use Rattle.hb_talk.specs.Tasks.{base, blank, checked_answer, content, content_head, created, got_answer, location_of, manifest_error, octets, route_error, too_long, unsupported, wrong_digest};
ghost use Rattle.hb_upload.specs.Places.{Parcel};

use hb_desk::{Answer, DetailItem, DetailList, DetailValue};
use hb_manifest::ManifestFault;
use hb_ops::{Checked, Got, error, refused};
use hb_records::Listed;
use hb_routes::RouteFault;
use hb_text::{Digest, Memory, Name, Text};
use std::alloc::Global;

// The detail with this value alone.
fn detail_of(alloc: Global, name: &[u8], value: DetailValue) -> Result<DetailList, Memory>
    ensures { IfOk result (λ detail. detail ≡ record { name = name.now; value = value } ∷ []) }
{
    let mut detail = Listed::new(alloc);
    let name = Text::new(alloc, name)?;
    detail.push(DetailItem { name, value })?;
    Ok(detail)
}

/// 400 DIGEST_INVALID: the body has another digest than the one that was announced.
pub(crate) fn wrong_digest(alloc: Global, found: Digest) -> Result<Answer, Memory>
    ensures { IfOk result (λ a. a ≡ error_answer (wrong_digest found)) }
{
    let detail = detail_of(alloc, b"found", DetailValue::Digest(found))?;
    error(alloc, 400, b"DIGEST_INVALID", detail, None)
}

/// 404 UNSUPPORTED: nothing is built for the request yet.
pub(crate) fn unsupported(alloc: Global) -> Result<Answer, Memory>
    ensures { IfOk result (λ a. a ≡ error_answer unsupported) }
{
    error(alloc, 404, b"UNSUPPORTED", Listed::new(alloc), None)
}

/// 413 SIZE_INVALID: the body is too long.
pub(crate) fn too_long(alloc: Global) -> Result<Answer, Memory>
    ensures { IfOk result (λ a. a ≡ error_answer too_long) }
{
    error(alloc, 413, b"SIZE_INVALID", Listed::new(alloc), None)
}

/// HEAD_INVALID, with this status: the bytes are malformed, or their head is above its limits.
pub(crate) fn bad_head(alloc: Global, status: u16) -> Result<Answer, Memory>
    ensures { IfOk result (λ a. a ≡ error_answer (plain status (codes "HEAD_INVALID"))) }
{
    error(alloc, status, b"HEAD_INVALID", Listed::new(alloc), None)
}

/// Why a request has no route: 404 UNSUPPORTED for an unknown path, 405 UNSUPPORTED for another method, and 400 for what is
/// outside its grammar: NAME_INVALID, MANIFEST_INVALID of a tag, or DIGEST_INVALID.
pub(crate) fn no_route(alloc: Global, fault: RouteFault) -> Result<Answer, Memory>
    ensures { IfOk result (λ a. a ≡ error_answer (route_error fault)) }
{
    let (status, code): (u16, &[u8]) = match fault {
        RouteFault::MethodUnknown => (405, b"UNSUPPORTED"),
        RouteFault::NameInvalid => (400, b"NAME_INVALID"),
        RouteFault::TagInvalid => (400, b"MANIFEST_INVALID"),
        RouteFault::DigestInvalid => (400, b"DIGEST_INVALID"),
        RouteFault::Unknown | RouteFault::Memory => (404, b"UNSUPPORTED"),
    };
    error(alloc, status, code, Listed::new(alloc), None)
}

// The status alone. It takes no memory.
fn blank(alloc: Global, status: u16) -> Answer
    ensures { result ≡ blank status }
{
    Answer {
        status,
        code: None,
        detail: Listed::new(alloc),
        length: None,
        media: None,
        digest: None,
        link: None,
        location: None,
        range: None,
        retry: None,
        body: None,
    }
}

/// 200: this is a registry (OCI Distribution Specification 1.1, "Determining Support").
pub(crate) fn base(alloc: Global) -> Result<Answer, Memory>
    ensures { IfOk result (λ a. a ≡ base) }
{
    let mut answer = blank(alloc, 200);
    answer.media = Some(Text::new(alloc, b"application/json")?);
    answer.body = Some(Text::new(alloc, b"{}")?);
    Ok(answer)
}

/// 400 MANIFEST_INVALID: the body isn't a manifest. One that is too long is 413 SIZE_INVALID. Where memory was wanting for
/// it, it isn't answered.
pub(crate) fn bad_manifest(alloc: Global, fault: ManifestFault) -> Result<Answer, Memory>
    ensures { IfOk result (λ a. (fault ≢ ManifestFault.Memory) × (a ≡ error_answer (manifest_error fault))) }
{
    match fault {
        ManifestFault::BadDescriptor { place } => {
            let detail = detail_of(alloc, b"place", DetailValue::Number(u128::from(place)))?;
            error(alloc, 400, b"MANIFEST_INVALID", detail, None)
        }
        ManifestFault::TooLong => error(alloc, 413, b"SIZE_INVALID", Listed::new(alloc), None),
        ManifestFault::Memory => Err(Memory),
        ManifestFault::MediaUnknown
        | ManifestFault::NotJson
        | ManifestFault::NoSchema
        | ManifestFault::TooMany => {
            error(alloc, 400, b"MANIFEST_INVALID", Listed::new(alloc), None)
        }
    }
}

/// Where content stands, under `/blobs/` or `/manifests/`.
pub(crate) fn location(
    alloc: Global,
    name: &Name,
    path: &[u8],
    digest: &Digest,
) -> Result<Text, Memory>
    ensures { IfOk result (λ text. text ≡ codes "/v2/" ++ name.now ++ path.now ++ digest_text digest.now) }
{
    let mut text = Vec::from_slice(alloc, b"/v2/")?;
    text.extend_from_slice(name.bytes())?;
    text.extend_from_slice(path)?;
    text.extend_from_slice(&digest.write())?;
    Ok(Text::of(text))
}

/// 201: the content stands there. It takes no memory.
pub(crate) fn created(alloc: Global, location: Text, digest: Digest) -> Answer
    ensures { (b : Parcel) → location ≡ location_of b → b.digest ≡ digest → result ≡ created b }
{
    let mut answer = blank(alloc, 201);
    answer.length = Some(0);
    answer.digest = Some(digest);
    answer.location = Some(location);
    answer
}

// The type of content, of which a blob has none of its own.
fn media_or_octets(alloc: Global, media: Option<Text>) -> Result<Text, Memory>
    ensures { IfOk result (λ text. text ≡ unwrap_or media octets) }
{
    match media {
        Some(media) => Ok(media),
        None => Text::new(alloc, b"application/octet-stream"),
    }
}

// 200 with content.
fn content(
    alloc: Global,
    digest: Digest,
    media: Option<Text>,
    bytes: Text,
) -> Result<Answer, Memory>
    ensures { IfOk result (λ a. a ≡ content digest media bytes) }
{
    let mut answer = blank(alloc, 200);
    answer.media = Some(media_or_octets(alloc, media)?);
    answer.digest = Some(digest);
    answer.body = Some(bytes);
    Ok(answer)
}

/// What a get is answered.
pub(crate) fn got(alloc: Global, got: Got) -> Result<Answer, Memory>
    ensures { IfOk result (λ a. a ≡ got_answer got) }
{
    match got {
        Got::Content {
            digest,
            media,
            bytes,
        } => content(alloc, digest, media, bytes),
        Got::Refused { refusal, moment } => refused(alloc, &refusal, moment),
    }
}

// 200 for content of this size, without its bytes.
fn content_head(
    alloc: Global,
    digest: Digest,
    media: Option<Text>,
    size: u64,
) -> Result<Answer, Memory>
    ensures { IfOk result (λ a. a ≡ content_head digest media size) }
{
    let mut answer = blank(alloc, 200);
    answer.length = Some(size);
    answer.media = Some(media_or_octets(alloc, media)?);
    answer.digest = Some(digest);
    Ok(answer)
}

/// What a check is answered.
pub(crate) fn checked(alloc: Global, checked: Checked) -> Result<Answer, Memory>
    ensures { IfOk result (λ a. a ≡ checked_answer checked) }
{
    match checked {
        Checked::Content {
            digest,
            size,
            media,
        } => content_head(alloc, digest, media, size),
        Checked::Refused { refusal, moment } => refused(alloc, &refusal, moment),
    }
}
