//! The routes of a registry: what the method and the target of a request ask for.
//!
//! - [`Router`] reads them: [`Router::route`] gives a [`Route`], or a [`RouteFault`] where there is none.
//! - [`Route`] has a variant for each thing that a request can ask for, with names, tags and digests that
//!   were read already. [`Given`] is a control value that may be absent or outside its grammar.
//! - [`laws`]: what holds of the definitions. A request has one route or one refusal, and a path that is
//!   written for a resource names that resource.
//! - `specs/Routes`: the table of routes. `specs/Resources`: what paths name. `specs/Queries`: the values
//!   of a query. `specs/Values`: which texts stand for which values.
//! - `specs/LastParts`, `specs/ControlRows`, `specs/Readings`, `specs/Meanings`: what the private functions say.
//!
//! Paths under `/v2/` are those of the OCI Distribution Specification 1.1 ("Endpoints"). The target is cut
//! at its first `?`. The path isn't percent-decoded, and of the query the values alone are.
#![tactic(auto)]

mod control_paths;
mod control_routes;
mod copies;
mod faults;
pub mod laws;
mod methods;
mod queries;
mod registry_paths;
mod registry_routes;
mod resources;
mod router;
mod routes;
#[cfg(test)]
mod tests;
mod values;

pub use faults::RouteFault;
pub use router::Router;
pub use routes::{Given, MOST_TAGS, Route, WantedJob};
