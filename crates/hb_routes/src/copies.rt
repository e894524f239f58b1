//! Copies of routes.
ghost use Rattle.std.specs.Prelude.{◌≡◌, IfOk};

use crate::routes::{Given, Route, WantedJob};
use hb_text::{Duplicate, Memory};
use std::alloc::Global;

impl<T: Duplicate> Duplicate for Given<T> {
    fn copy(&self, alloc: Global) -> Result<Given<T>, Memory> {
        match self {
            Given::Absent => Ok(Given::Absent),
            Given::Invalid => Ok(Given::Invalid),
            Given::Value(value) => Ok(Given::Value(value.copy(alloc)?)),
        }
    }
}

impl Duplicate for WantedJob {
    fn copy(&self, alloc: Global) -> Result<WantedJob, Memory> {
        match self {
            WantedJob::Collect { untagged } => Ok(WantedJob::Collect {
                untagged: *untagged,
            }),
            WantedJob::Retain { project } => Ok(WantedJob::Retain {
                project: project.copy(alloc)?,
            }),
        }
    }
}

fn copy_of<T: Duplicate>(value: &Option<T>, alloc: Global) -> Result<Option<T>, Memory>
    ensures { IfOk result (λ made. made ≡ value.now) }
{
    match value {
        Some(value) => Ok(Some(value.copy(alloc)?)),
        None => Ok(None),
    }
}

impl Duplicate for Route {
    fn copy(&self, alloc: Global) -> Result<Route, Memory> {
        match self {
            Route::Base => Ok(Route::Base),
            Route::GetBlob { name, digest } => Ok(Route::GetBlob {
                name: name.copy(alloc)?,
                digest: *digest,
            }),
            Route::HeadBlob { name, digest } => Ok(Route::HeadBlob {
                name: name.copy(alloc)?,
                digest: *digest,
            }),
            Route::BeginUpload { name } => Ok(Route::BeginUpload {
                name: name.copy(alloc)?,
            }),
            Route::PushBlob { name, digest } => Ok(Route::PushBlob {
                name: name.copy(alloc)?,
                digest: *digest,
            }),
            Route::MountBlob {
                name,
                digest,
                giver,
            } => Ok(Route::MountBlob {
                name: name.copy(alloc)?,
                digest: *digest,
                giver: copy_of(giver, alloc)?,
            }),
            Route::GrowUpload { name, upload } => Ok(Route::GrowUpload {
                name: name.copy(alloc)?,
                upload: *upload,
            }),
            Route::FinishUpload {
                name,
                upload,
                digest,
            } => Ok(Route::FinishUpload {
                name: name.copy(alloc)?,
                upload: *upload,
                digest: *digest,
            }),
            Route::ShowUpload { name, upload } => Ok(Route::ShowUpload {
                name: name.copy(alloc)?,
                upload: *upload,
            }),
            Route::PutManifest { name, reference } => Ok(Route::PutManifest {
                name: name.copy(alloc)?,
                reference: reference.copy(alloc)?,
            }),
            Route::GetManifest { name, reference } => Ok(Route::GetManifest {
                name: name.copy(alloc)?,
                reference: reference.copy(alloc)?,
            }),
            Route::HeadManifest { name, reference } => Ok(Route::HeadManifest {
                name: name.copy(alloc)?,
                reference: reference.copy(alloc)?,
            }),
            Route::DeleteManifest { name, reference } => Ok(Route::DeleteManifest {
                name: name.copy(alloc)?,
                reference: reference.copy(alloc)?,
            }),
            Route::ListTags { name, last, most } => Ok(Route::ListTags {
                name: name.copy(alloc)?,
                last: copy_of(last, alloc)?,
                most: *most,
            }),
            Route::PutProject {
                name,
                limit,
                version,
            } => Ok(Route::PutProject {
                name: name.copy(alloc)?,
                limit: *limit,
                version: *version,
            }),
            Route::ShowProject { name } => Ok(Route::ShowProject {
                name: name.copy(alloc)?,
            }),
            Route::PutRules { name } => Ok(Route::PutRules {
                name: name.copy(alloc)?,
            }),
            Route::QueueJob { kind } => Ok(Route::QueueJob {
                kind: kind.copy(alloc)?,
            }),
            Route::ShowJob { job } => Ok(Route::ShowJob { job: *job }),
        }
    }
}
