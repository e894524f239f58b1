//! What a request wants, by its method and its target, and how long its body may be.
ghost use Rattle.std.specs.Prelude.{◌≡◌, ◌≢◌, IfOk};
ghost use Rattle.hb_talk.specs.Comings.{tells_too_long};
ghost use Rattle.hb_talk.specs.Wanting.{Asks, wanted_of};

use hb_http::Head;
use hb_routes::{Route, RouteFault, Router};
use hb_text::{Digest, Memory, Name, Reference};
use std::alloc::Global;

/// The most bytes of data of a body: 4 MiB.
pub(crate) const MAX_BODY: u64 = 4_194_304;

/// What a request wants (OCI Distribution Specification 1.1, "Endpoints").
#[derive(Drop)]
pub(crate) enum Wanted {
    /// To know whether this is a registry.
    Base,
    PushBlob { name: Name, digest: Digest },
    GetBlob { name: Name, digest: Digest },
    /// Whether a blob is there.
    HeadBlob { name: Name, digest: Digest },
    PutManifest { name: Name, reference: Reference },
    GetManifest { name: Name, reference: Reference },
    /// Whether a manifest is there.
    HeadManifest { name: Name, reference: Reference },
    /// What isn't built yet.
    Unbuilt,
    /// What has no route.
    Unrouted { fault: RouteFault },
}

// What a route wants.
fn of_route(route: Route) -> Wanted
    ensures { result ≡ wanted_of route }
{
    match route {
        Route::Base => Wanted::Base,
        Route::PushBlob { name, digest } => Wanted::PushBlob { name, digest },
        Route::GetBlob { name, digest } => Wanted::GetBlob { name, digest },
        Route::HeadBlob { name, digest } => Wanted::HeadBlob { name, digest },
        Route::PutManifest { name, reference } => Wanted::PutManifest { name, reference },
        Route::GetManifest { name, reference } => Wanted::GetManifest { name, reference },
        Route::HeadManifest { name, reference } => Wanted::HeadManifest { name, reference },
        _ => Wanted::Unbuilt,
    }
}

// A request without a route. Want of memory is no answer.
fn unrouted(fault: RouteFault) -> Result<Wanted, Memory>
    ensures { IfOk result (λ w. (w ≡ Wanted.Unrouted fault) × (fault ≢ RouteFault.Memory)) }
{
    match fault {
        RouteFault::Memory => Err(Memory),
        _ => Ok(Wanted::Unrouted { fault }),
    }
}

/// What method and target want.
pub(crate) fn wants(alloc: Global, router: &Router, head: &Head) -> Result<Wanted, Memory>
    ensures { IfOk result (Asks head.now.method head.now.target) }
{
    match router.route(alloc, head.method.bytes(), head.target.bytes()) {
        Ok(route) => Ok(of_route(route)),
        Err(fault) => unrouted(fault),
    }
}

/// Whether the length that is told of a body, where one is, is above [`MAX_BODY`].
pub(crate) fn is_too_long(length: Option<u64>) -> bool
    ensures { result ≡ tells_too_long length }
{
    match length {
        Some(length) => length > MAX_BODY,
        None => false,
    }
}
