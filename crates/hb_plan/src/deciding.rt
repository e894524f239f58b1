//! What is decided by rows that were looked up, for every tables that have them.
ghost use Rattle.std.specs.Prelude.{◌≡◌, ◌<◌, ◌+◌, ◌^◌, ℕ, Some, IsTrue, IfSome};
ghost use Rattle.std.specs.Option.{option_copied};
ghost use Rattle.hb_text.specs.Names.{project_of};
ghost use Rattle.hb_records.specs.declared.entries.EntryKind.TheVariants as entry;
ghost use Rattle.hb_rows.specs.Tables.{Tables, blob_at, upload_at};
ghost use Rattle.hb_model.specs.LegalBlobs.{allows};
ghost use Rattle.hb_model.specs.Words.{same_text, some_and};
ghost use Rattle.hb_desk.specs.Reply.{Reply, refuse, commits};
ghost use Rattle.hb_desk.specs.declared.told.Told.TheVariants as told;
ghost use Rattle.hb_plan.specs.Findings.{holding_of, parts_of, Decides};
ghost use Rattle.hb_plan.specs.Plans.{is_own, IsOwnAnyhow};
ghost use Rattle.hb_plan.specs.RowRefusals.{no_project_row, over_limit_of, stored_size as size_that_counts};
ghost use Rattle.hb_plan.specs.RowReplies.{parts_over, seal_over, seal_manifest_over, settle_over, put_over};

use crate::planned::{Holding, Parts};
use hb_desk::Refusal;
use hb_records::{Blob, Placement, Project, PutAsk, Upload};
use hb_text::{Digest, Name};

// Whether a limit allows so many bytes beside those that are used. -1 allows any number.
fn allows_more(limit: i64, used: u128, adds: u64) -> bool
    ensures { result ≡ allows limit (used + adds) }
{
    if limit < 0 {
        return limit == -1;
    }
    let limit = limit as u128;
    used <= limit && u128::from(adds) <= limit - used
}

// Whether what is used has room for so many bytes more in its type.
pub(crate) fn has_room(row: &Project, adds: u64) -> bool
    ensures { IsTrue result → row.now.used + adds < 2 ^ 128 }
{
    row.used <= u128::MAX - u128::from(adds)
}

// The refusal where the project would use more than its limit.
fn over_limit(held: &Holding, size: u64) -> Option<Refusal>
    ensures is { result ≡ over_limit_of held.now.pair size held.now.project }
    ensures own { IfSome result (λ refusal. (n : ℕ) → IsTrue (is_own n refusal)) }
{
    let Some(row) = &held.project else {
        return None;
    };
    if held.pair.is_some() || size == 0 || allows_more(row.limit, row.used, size) {
        return None;
    }
    Some(Refusal::OverLimit {
        used: row.used,
        adds: size,
        limit: row.limit,
    })
}

fn stored_size(blob: &Option<Blob>, placement: &Placement) -> u64
    ensures { result ≡ size_that_counts blob.now placement.now }
{
    match blob {
        Some(row) => row.size,
        None => placement.size,
    }
}

// Whether an upload may be sealed.
pub(crate) fn seals(
    upload: u64,
    row: &Upload,
    held: &Holding,
    digest: &Digest,
    size: u64,
) -> Result<(), Refusal>
    ensures decides { (r : Tables) → holding_of r (project_of row.now.name) digest.now ≡ held.now
        → Decides (seal_over r upload digest.now size (Some row.now)) (λ _. commits r.audit told.Done (entry.UploadEnded 0 upload)) result }
    ensures own { IsOwnAnyhow result }
{
    match over_limit(held, size) {
        Some(refusal) => Err(refusal),
        None => Ok(()),
    }
}

// Whether an upload is one of the repository.
fn is_of(row: &Option<Upload>, name: &Name) -> bool
    ensures { result ≡ some_and (λ row. same_text name.now row.name) row.now }
{
    match row {
        Some(row) => name.cmp(&row.name).is_eq(),
        None => false,
    }
}

// Whether a manifest has its parts, and fits the limit.
fn is_whole(put: &PutAsk, parts: &Parts, size: u64) -> Result<(), Refusal>
    ensures decides { (r : Tables) (reply : Reply) → parts_of r (project_of put.now.name) put.now ≡ parts.now
        → Decides (parts_over r put.now size reply) (λ _. reply) result }
    ensures own { IsOwnAnyhow result }
{
    if let Some(digest) = parts.missing_ref {
        return Err(Refusal::MissingRef { digest });
    }
    if let Some(digest) = parts.missing_child {
        return Err(Refusal::MissingChild { digest });
    }
    match over_limit(&parts.held, size) {
        Some(refusal) => Err(refusal),
        None => Ok(()),
    }
}

// Whether the upload of a manifest may be sealed.
pub(crate) fn seals_manifest(
    upload: u64,
    row: &Option<Upload>,
    put: &PutAsk,
    parts: &Parts,
) -> Result<(), Refusal>
    ensures decides { (r : Tables) → upload_at r upload ≡ row.now → parts_of r (project_of put.now.name) put.now ≡ parts.now
        → Decides (seal_manifest_over r upload put.now) (λ _. commits r.audit told.Done (entry.UploadEnded 0 upload)) result }
    ensures own { IsOwnAnyhow result }
{
    if !is_of(row, &put.name) {
        return Err(Refusal::UploadUnknown);
    }
    is_whole(put, parts, put.size)
}

// The size with which a project may get what was placed.
pub(crate) fn settles(
    name: &Name,
    digest: &Digest,
    held: &Holding,
    blob: &Option<Blob>,
    placement: Option<&Placement>,
) -> Result<u64, Refusal>
    ensures decides { (r : Tables) → holding_of r (project_of name.now) digest.now ≡ held.now → blob_at r digest.now ≡ blob.now
        → Decides (refuse (no_project_row r (project_of name.now)) (settle_over r name.now digest.now (option_copied placement.entry))) (λ size. commits r.audit told.Done (entry.Associated (project_of name.now) digest.now size)) result }
    ensures own { IsOwnAnyhow result }
{
    if held.project.is_none() {
        return Err(Refusal::NoProject);
    }
    let Some(placement) = placement else {
        return Err(Refusal::NotPlaced);
    };
    let size = stored_size(blob, placement);
    match over_limit(held, size) {
        Some(refusal) => Err(refusal),
        None => Ok(size),
    }
}

// The size with which a manifest may be put that was placed.
pub(crate) fn puts(
    put: &PutAsk,
    parts: &Parts,
    blob: &Option<Blob>,
    placement: Option<&Placement>,
) -> Result<u64, Refusal>
    ensures decides { (r : Tables) → parts_of r (project_of put.now.name) put.now ≡ parts.now → blob_at r put.now.digest ≡ blob.now
        → Decides (refuse (no_project_row r (project_of put.now.name)) (put_over r put.now (option_copied placement.entry))) (λ size. commits r.audit told.Done (entry.ArtifactPut put.now.name put.now.digest size put.now.media put.now.refs put.now.children put.now.tag)) result }
    ensures own { IsOwnAnyhow result }
{
    if parts.held.project.is_none() {
        return Err(Refusal::NoProject);
    }
    let Some(placement) = placement else {
        return Err(Refusal::NotPlaced);
    };
    let size = stored_size(blob, placement);
    match is_whole(put, parts, size) {
        Ok(()) => Ok(size),
        Err(refusal) => Err(refusal),
    }
}
