//! What refusals and other errors are answered over HTTP.
ghost use Rattle.std.specs.Prelude.{◌≡◌, ◌++◌, [], ◌∷◌, ℕ, IfOk, OnOk, codes};
ghost use Rattle.hb_ops.specs.Errors.{digest_item, error_answer, error_of, number_item, over_limit_detail};

use crate::bodies::error_body;
use hb_desk::{Answer, DetailItem, DetailList, DetailValue, Refusal};
use hb_records::Listed;
use hb_text::{Digest, Memory, Text};
use std::alloc::Global;

/// The answer to an error: its status code, its code, its detail in the order in which it is written, and the seconds
/// after which to try again. The body has the code, the detail and a message, which is the code in words. It takes
/// memory; `Memory` comes only where that is wanting.
pub fn error(
    alloc: Global,
    status: u16,
    code: &[u8],
    detail: DetailList,
    retry: Option<u64>,
) -> Result<Answer, Memory>
    ensures { IfOk result (λ a. a ≡ error_answer (record { status = status; code = code.now; detail = detail; retry = retry })) }
{
    let body = error_body(alloc, code, detail.as_slice())?;
    let code = Text::new(alloc, code)?;
    let media = Text::new(alloc, b"application/json")?;
    Ok(Answer {
        status,
        code: Some(code),
        detail,
        length: None,
        media: Some(media),
        digest: None,
        link: None,
        location: None,
        range: None,
        retry,
        body: Some(Text::of(body)),
    })
}

// The status code of a refusal.
fn status_of(refusal: &Refusal) -> u16
    ensures { (t : ℕ) → result ≡ (error_of t refusal.now).status }
{
    match refusal {
        Refusal::OverLimit { .. } => 403,
        Refusal::NoProject
        | Refusal::NoRepo
        | Refusal::BlobUnknown
        | Refusal::UploadUnknown
        | Refusal::MissingRef { .. }
        | Refusal::MissingChild { .. }
        | Refusal::ManifestUnknown
        | Refusal::NotPlaced
        | Refusal::JobUnknown
        | Refusal::Referenced { .. }
        | Refusal::Young { .. }
        | Refusal::NotSent
        | Refusal::Tagged
        | Refusal::Unfinished
        | Refusal::JobDone
        | Refusal::Late { .. }
        | Refusal::Sent => 404,
        Refusal::Immutable { .. } | Refusal::HasParent { .. } | Refusal::Stale { .. } => 412,
        Refusal::OutOfOrder { .. } => 416,
        Refusal::Keeper | Refusal::Storage | Refusal::Spent => 500,
        Refusal::Busy { .. }
        | Refusal::Collecting { .. }
        | Refusal::Raced { .. }
        | Refusal::JobHeld { .. } => 503,
        Refusal::Memory => 507,
    }
}

// The error's code of a refusal.
fn code_of(refusal: &Refusal) -> &'static [u8]
    ensures { (t : ℕ) → result.now ≡ (error_of t refusal.now).code }
{
    match refusal {
        Refusal::Memory => b"MEMORY",
        Refusal::Keeper => b"KEEPER",
        Refusal::Storage => b"STORAGE",
        Refusal::Spent => b"SPENT",
        Refusal::NoProject | Refusal::NoRepo => b"NAME_UNKNOWN",
        Refusal::BlobUnknown => b"BLOB_UNKNOWN",
        Refusal::UploadUnknown | Refusal::NotPlaced => b"BLOB_UPLOAD_UNKNOWN",
        Refusal::OutOfOrder { .. } => b"BLOB_UPLOAD_INVALID",
        Refusal::MissingRef { .. } | Refusal::MissingChild { .. } => b"MANIFEST_BLOB_UNKNOWN",
        Refusal::Immutable { .. } | Refusal::HasParent { .. } | Refusal::Stale { .. } => {
            b"PRECONDITION"
        }
        Refusal::OverLimit { .. } => b"DENIED",
        Refusal::Busy { .. } | Refusal::JobHeld { .. } => b"BUSY",
        Refusal::Collecting { .. } => b"COLLECTING",
        Refusal::Raced { .. } => b"RACED",
        Refusal::ManifestUnknown => b"MANIFEST_UNKNOWN",
        // Only jobs meet those behind `JobUnknown`: no client's ask is refused by them.
        Refusal::JobUnknown
        | Refusal::Referenced { .. }
        | Refusal::Young { .. }
        | Refusal::NotSent
        | Refusal::Tagged
        | Refusal::Unfinished
        | Refusal::JobDone
        | Refusal::Late { .. }
        | Refusal::Sent => b"UNSUPPORTED",
    }
}

// The seconds after which to try again what was refused at this moment, which is in seconds.
fn retry_of(refusal: &Refusal, moment: u64) -> Option<u64>
    ensures { result ≡ (error_of moment refusal.now).retry }
{
    match refusal {
        Refusal::Busy { .. } | Refusal::Raced { .. } | Refusal::JobHeld { .. } => Some(1),
        Refusal::Collecting { until } => Some(until.saturating_sub(moment)),
        _ => None,
    }
}

// Adds a number to a detail.
fn add_number(
    alloc: Global,
    detail: &mut DetailList,
    name: &[u8],
    number: u128,
) -> Result<(), Memory>
    ensures { OnOk result (detail.new ≡ detail.old ++ number_item name.now number ∷ []) }
{
    let name = Text::new(alloc, name)?;
    detail.push(DetailItem {
        name,
        value: DetailValue::Number(number),
    })
}

// The detail with this number alone.
fn number_detail(alloc: Global, name: &[u8], number: u128) -> Result<DetailList, Memory>
    ensures { IfOk result (λ detail. detail ≡ number_item name.now number ∷ []) }
{
    let mut detail = Listed::new(alloc);
    add_number(alloc, &mut detail, name, number)?;
    Ok(detail)
}

// The detail with this digest alone.
fn digest_detail(alloc: Global, name: &[u8], digest: &Digest) -> Result<DetailList, Memory>
    ensures { IfOk result (λ detail. detail ≡ digest_item name.now digest.now ∷ []) }
{
    let mut detail = Listed::new(alloc);
    let name = Text::new(alloc, name)?;
    detail.push(DetailItem {
        name,
        value: DetailValue::Digest(*digest),
    })?;
    Ok(detail)
}

// The detail of a refusal over a limit, all in bytes.
fn over_limit_detail(alloc: Global, used: u128, adds: u64, limit: i64) -> Result<DetailList, Memory>
    ensures { IfOk result (λ detail. detail ≡ over_limit_detail used adds limit) }
{
    let mut detail = number_detail(alloc, b"adds", u128::from(adds))?;
    add_number(
        alloc,
        &mut detail,
        b"limit",
        u128::from(limit.unsigned_abs()),
    )?;
    add_number(alloc, &mut detail, b"used", used)?;
    Ok(detail)
}

// The detail of a race, by the numbers of entries.
fn raced_detail(alloc: Global, placed: u64, gone: u64) -> Result<DetailList, Memory>
    ensures { IfOk result (λ detail. detail ≡ number_item (codes "gone") gone ∷ number_item (codes "placed") placed ∷ []) }
{
    let mut detail = number_detail(alloc, b"gone", u128::from(gone))?;
    add_number(alloc, &mut detail, b"placed", u128::from(placed))?;
    Ok(detail)
}

// The detail of a refusal.
fn detail_of(alloc: Global, refusal: &Refusal) -> Result<DetailList, Memory>
    ensures { (t : ℕ) → IfOk result (λ detail. detail ≡ (error_of t refusal.now).detail) }
{
    match refusal {
        Refusal::Busy { upload } => number_detail(alloc, b"upload", u128::from(*upload)),
        Refusal::OutOfOrder { offset } => number_detail(alloc, b"offset", u128::from(*offset)),
        Refusal::MissingRef { digest } | Refusal::MissingChild { digest } => {
            digest_detail(alloc, b"digest", digest)
        }
        Refusal::Immutable { rule } => number_detail(alloc, b"rule", u128::from(*rule)),
        Refusal::HasParent { digest } => digest_detail(alloc, b"parent", digest),
        Refusal::OverLimit { used, adds, limit } => over_limit_detail(alloc, *used, *adds, *limit),
        Refusal::Collecting { until } => number_detail(alloc, b"until", u128::from(*until)),
        Refusal::Raced { placed, gone } => raced_detail(alloc, *placed, *gone),
        Refusal::Stale { version } => number_detail(alloc, b"version", u128::from(*version)),
        Refusal::JobHeld { job } => number_detail(alloc, b"job", u128::from(*job)),
        _ => Ok(Listed::new(alloc)),
    }
}

/// What a refusal of a desk is answered over HTTP, where the desk was asked at this moment, in seconds. It takes memory;
/// `Memory` comes only where that is wanting, and not because memory was wanting to the desk.
pub fn refused(alloc: Global, refusal: &Refusal, moment: u64) -> Result<Answer, Memory>
    ensures { IfOk result (λ a. a ≡ error_answer (error_of moment refusal.now)) }
{
    let detail = detail_of(alloc, refusal)?;
    error(
        alloc,
        status_of(refusal),
        code_of(refusal),
        detail,
        retry_of(refusal, moment),
    )
}
