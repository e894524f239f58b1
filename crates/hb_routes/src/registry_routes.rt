//! What is asked of what paths under `/v2/` name.
ghost use Rattle.std.specs.Prelude.{◌≡◌, ℕ, List};
ghost use Rattle.hb_routes.specs.Answers.{Gives};
ghost use Rattle.hb_routes.specs.Resources.Resource.{Base, Tags, Uploads, Upload, Blob, Manifest};
ghost use Rattle.hb_routes.specs.Routes.{IsServed};

use crate::faults::RouteFault;
use crate::methods::Method;
use crate::queries::value_of;
use crate::routes::Route;
use crate::values::{
    digest_in, giver_in, last_in, most_in, read_digest, read_id, read_name, read_reference,
};
use std::alloc::Global;

/// What a method asks of the front of the API (OCI Distribution Specification, end-1).
pub fn base(method: Method) -> Result<Route, RouteFault>
    ensures { (query : List ℕ) → Gives (IsServed Base method query) result }
{
    match method {
        Method::Get => Ok(Route::Base),
        _ => Err(RouteFault::MethodUnknown),
    }
}

/// What a method asks of a repository's tags (OCI Distribution Specification, "Listing Tags").
pub fn tags(alloc: Global, method: Method, name: &[u8], query: &[u8]) -> Result<Route, RouteFault>
    ensures { Gives (IsServed (Tags name.now) method query.now) result }
{
    match method {
        Method::Get => {
            let name = read_name(alloc, name)?;
            let last = last_in(alloc, query)?;
            let most = most_in(alloc, query)?;
            Ok(Route::ListTags { name, last, most })
        }
        _ => Err(RouteFault::MethodUnknown),
    }
}

/// What a method asks of a repository's uploads: to mount a blob, to push one whole, or to begin an
/// upload (OCI Distribution Specification, "Pushing blobs").
pub fn uploads(
    alloc: Global,
    method: Method,
    name: &[u8],
    query: &[u8],
) -> Result<Route, RouteFault>
    ensures { Gives (IsServed (Uploads name.now) method query.now) result }
{
    match method {
        Method::Post => {
            let name = read_name(alloc, name)?;
            if let Some(mount) = value_of(alloc, query, b"mount")? {
                let digest = read_digest(&mount)?;
                let giver = giver_in(alloc, query)?;
                return Ok(Route::MountBlob {
                    name,
                    digest,
                    giver,
                });
            }
            match value_of(alloc, query, b"digest")? {
                Some(digest) => Ok(Route::PushBlob {
                    name,
                    digest: read_digest(&digest)?,
                }),
                None => Ok(Route::BeginUpload { name }),
            }
        }
        _ => Err(RouteFault::MethodUnknown),
    }
}

/// What a method asks of one upload (OCI Distribution Specification, "Pushing a blob in chunks").
pub fn upload(
    alloc: Global,
    method: Method,
    name: &[u8],
    id: &[u8],
    query: &[u8],
) -> Result<Route, RouteFault>
    ensures { Gives (IsServed (Upload name.now id.now) method query.now) result }
{
    match method {
        Method::Get => {
            let name = read_name(alloc, name)?;
            Ok(Route::ShowUpload {
                name,
                upload: read_id(id),
            })
        }
        Method::Patch => {
            let name = read_name(alloc, name)?;
            Ok(Route::GrowUpload {
                name,
                upload: read_id(id),
            })
        }
        Method::Put => {
            let name = read_name(alloc, name)?;
            let digest = digest_in(alloc, query)?;
            Ok(Route::FinishUpload {
                name,
                upload: read_id(id),
                digest,
            })
        }
        _ => Err(RouteFault::MethodUnknown),
    }
}

/// What a method asks of a blob (OCI Distribution Specification, "Pulling blobs").
pub fn blob(alloc: Global, method: Method, name: &[u8], digest: &[u8]) -> Result<Route, RouteFault>
    ensures { (query : List ℕ) → Gives (IsServed (Blob name.now digest.now) method query) result }
{
    match method {
        Method::Get => {
            let name = read_name(alloc, name)?;
            Ok(Route::GetBlob {
                name,
                digest: read_digest(digest)?,
            })
        }
        Method::Head => {
            let name = read_name(alloc, name)?;
            Ok(Route::HeadBlob {
                name,
                digest: read_digest(digest)?,
            })
        }
        _ => Err(RouteFault::MethodUnknown),
    }
}

/// What a method asks of a manifest, named by a tag or a digest.
pub fn manifest(
    alloc: Global,
    method: Method,
    name: &[u8],
    reference: &[u8],
) -> Result<Route, RouteFault>
    ensures { (query : List ℕ) → Gives (IsServed (Manifest name.now reference.now) method query) result }
{
    match method {
        Method::Put => {
            let name = read_name(alloc, name)?;
            Ok(Route::PutManifest {
                name,
                reference: read_reference(alloc, reference)?,
            })
        }
        Method::Get => {
            let name = read_name(alloc, name)?;
            Ok(Route::GetManifest {
                name,
                reference: read_reference(alloc, reference)?,
            })
        }
        Method::Head => {
            let name = read_name(alloc, name)?;
            Ok(Route::HeadManifest {
                name,
                reference: read_reference(alloc, reference)?,
            })
        }
        Method::Delete => {
            let name = read_name(alloc, name)?;
            Ok(Route::DeleteManifest {
                name,
                reference: read_reference(alloc, reference)?,
            })
        }
        _ => Err(RouteFault::MethodUnknown),
    }
}
