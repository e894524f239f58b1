ghost use Rattle.std.specs.Prelude.{◌≡◌, ◌≢◌, Ok, Err, IfOk, IfErr};
ghost use Rattle.hb_routes.specs.Answers.{Gives};
ghost use Rattle.hb_routes.specs.Routes.{IsServed, IsRouted};
ghost use Rattle.hb_routes.specs.Meanings.{meaning_of};

use crate::control_paths::{Control, control_matcher, control_resource};
use crate::control_routes::{job, jobs, project, rules};
use crate::faults::RouteFault;
use crate::methods::{Method, method_of};
use crate::queries::cut;
use crate::registry_paths::registry_resource;
use crate::registry_routes::{base, blob, manifest, tags, upload, uploads};
use crate::resources::Resource;
use crate::routes::Route;
use hb_text::Memory;
use matchit::{InsertError, Router as Matcher};
use std::alloc::Global;
use std::marker::Model;

/// Reads the targets of requests. One router serves any number of them.
#[derive(Drop)]
pub struct Router {
    controls: Matcher<Control>,
}

impl Model for Router {
    ghost use Rattle.std.specs.Prelude.{◌≡◌};
    ghost use Rattle.hb_routes.specs.ControlRows.{control_rows};

    ghost Value = { Unit {0} };

    ghost view = { λ router. tt };

    ghost invariant = { λ router. router.controls ≡ control_rows };
}

// What a method asks of a resource.
fn serve(
    alloc: Global,
    resource: Resource<'_>,
    method: Method,
    query: &[u8],
) -> Result<Route, RouteFault>
    ensures { Gives (IsServed (meaning_of resource.entry) method query.now) result }
{
    match resource {
        Resource::Base => base(method),
        Resource::Tags { name } => tags(alloc, method, name, query),
        Resource::Uploads { name } => uploads(alloc, method, name, query),
        Resource::Upload { name, id } => upload(alloc, method, name, id, query),
        Resource::Blob { name, digest } => blob(alloc, method, name, digest),
        Resource::Manifest { name, reference } => manifest(alloc, method, name, reference),
        Resource::Project { name } => project(alloc, method, name, query),
        Resource::Rules { name } => rules(alloc, method, name),
        Resource::Jobs => jobs(alloc, method, query),
        Resource::Job { id } => job(method, id),
    }
}

impl Router {
    /// A router. All routers read alike. It answers `Memory` for want of memory alone.
    pub fn new(alloc: Global) -> Result<Router, Memory> {
        match control_matcher(alloc) {
            Ok(controls) => Ok(Router { controls }),
            Err(InsertError::OutOfMemory) => Err(Memory),
            Err(_) => unreachable!(),
        }
    }

    /// The route of a request: what its method asks of what the path of its target names.
    ///
    /// Of several refusals the first in the order of [`RouteFault`] is given: an unknown path, a method that
    /// what the path names isn't served by, a name outside its grammar, and then a tag or a digest. Methods
    /// compare as bytes (RFC 9110, section 9.1). `Memory` may come in place of any answer.
    pub fn route(&self, alloc: Global, method: &[u8], target: &[u8]) -> Result<Route, RouteFault>
        ensures ok { IfOk result (λ route. IsRouted method.now target.now (Ok route)) }
        ensures err { IfErr result (λ fault. fault ≢ RouteFault.Memory → IsRouted method.now target.now (Err fault)) }
    {
        let (path, query) = cut(target, b'?');
        let resource = match path.strip_prefix(b"/v2/") {
            Some(text) => registry_resource(text),
            None => control_resource(&self.controls, path),
        };
        match resource {
            Some(resource) => serve(alloc, resource, method_of(method), query),
            None => Err(RouteFault::Unknown),
        }
    }
}
