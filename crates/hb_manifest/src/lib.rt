//! What a client sends as a manifest, read: an image or an index (OCI Image Specification 1.1; Docker,
//! "Image Manifest Version 2, Schema 2").
//!
//! - [`read_manifest`] gives the digests that a manifest names, or the first refusal that applies, in the
//!   order of [`ManifestFault`]. Nothing that it reads is followed: whether the digests are there is asked
//!   above.
//! - [`Manifest`]: its media type, the digests it refers to, the manifests in it, and what it is about.
//! - [`laws`]: what holds of the definitions.
//! - `specs/Forms`: the manifest that bytes are, as a function of the bytes and the Content-Type alone.
//!   `specs/Json`, `specs/MediaTypes`, `specs/Descriptors`, `specs/Lists`: its parts.
#![tactic(auto)]

mod descriptors;
mod json;
pub mod laws;
mod lists;
mod manifests;
mod media;
mod parts;
mod reading;
#[cfg(test)]
mod tests;

pub use manifests::{DigestList, Manifest, ManifestFault};
pub use reading::read_manifest;

/// The most bytes of a manifest.
pub const MAX_MANIFEST: usize = 4_194_304;

/// The most descriptors of a manifest: an image's config and its layers, an index's manifests.
pub const MAX_DESCRIPTORS: usize = 1_000;

/// The largest `size` of a descriptor, in bytes.
pub const MAX_BLOB: u64 = 1 << 36;
