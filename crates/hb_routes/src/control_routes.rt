//! What is asked of what paths under `/harbor/` name.
ghost use Rattle.std.specs.Prelude.{◌≡◌, ℕ, List, IfOk, codes};
ghost use Rattle.hb_routes.specs.Answers.{Gives};
ghost use Rattle.hb_routes.specs.Resources.Resource.{Project, Rules, Jobs, Job};
ghost use Rattle.hb_routes.specs.Cuts.{is_same};
ghost use Rattle.hb_routes.specs.Queries.{value_or_empty};
ghost use Rattle.hb_routes.specs.Routes.{IsServed, IsWanted};

use crate::faults::RouteFault;
use crate::methods::Method;
use crate::queries::value_of;
use crate::routes::{Given, Route, WantedJob};
use crate::values::{limit_in, project_in, read_id, read_project, version_in};
use hb_text::Memory;
use std::alloc::Global;

/// What a method asks of a project.
pub fn project(
    alloc: Global,
    method: Method,
    name: &[u8],
    query: &[u8],
) -> Result<Route, RouteFault>
    ensures { Gives (IsServed (Project name.now) method query.now) result }
{
    match method {
        Method::Get => Ok(Route::ShowProject {
            name: read_project(alloc, name)?,
        }),
        Method::Put => {
            let name = read_project(alloc, name)?;
            let limit = limit_in(alloc, query)?;
            let version = version_in(alloc, query)?;
            Ok(Route::PutProject {
                name,
                limit,
                version,
            })
        }
        _ => Err(RouteFault::MethodUnknown),
    }
}

/// What a method asks of a project's rules.
pub fn rules(alloc: Global, method: Method, name: &[u8]) -> Result<Route, RouteFault>
    ensures { (query : List ℕ) → Gives (IsServed (Rules name.now) method query) result }
{
    match method {
        Method::Put => Ok(Route::PutRules {
            name: read_project(alloc, name)?,
        }),
        _ => Err(RouteFault::MethodUnknown),
    }
}

fn is_untagged(alloc: Global, query: &[u8]) -> Result<bool, Memory>
    ensures { IfOk result (λ untagged. untagged ≡ is_same (value_or_empty (codes "untagged") query.now) (codes "true")) }
{
    match value_of(alloc, query, b"untagged")? {
        Some(text) => Ok(text.as_slice() == b"true".as_slice()),
        None => Ok(false),
    }
}

fn wanted_job(alloc: Global, query: &[u8]) -> Result<Given<WantedJob>, Memory>
    ensures { IfOk result (IsWanted query.now) }
{
    let Some(kind) = value_of(alloc, query, b"kind")? else {
        return Ok(Given::Absent);
    };
    if kind.as_slice() == b"collect".as_slice() {
        let untagged = is_untagged(alloc, query)?;
        return Ok(Given::Value(WantedJob::Collect { untagged }));
    }
    if kind.as_slice() == b"retain".as_slice() {
        let project = project_in(alloc, query)?;
        return Ok(Given::Value(WantedJob::Retain { project }));
    }
    Ok(Given::Invalid)
}

/// What a method asks of the list of jobs.
pub fn jobs(alloc: Global, method: Method, query: &[u8]) -> Result<Route, RouteFault>
    ensures { Gives (IsServed Jobs method query.now) result }
{
    match method {
        Method::Post => Ok(Route::QueueJob {
            kind: wanted_job(alloc, query)?,
        }),
        _ => Err(RouteFault::MethodUnknown),
    }
}

/// What a method asks of one job.
pub fn job(method: Method, id: &[u8]) -> Result<Route, RouteFault>
    ensures { (query : List ℕ) → Gives (IsServed (Job id.now) method query) result }
{
    match method {
        Method::Get => Ok(Route::ShowJob { job: read_id(id) }),
        _ => Err(RouteFault::MethodUnknown),
    }
}
