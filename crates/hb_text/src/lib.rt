//! The texts of a registry: digests, names of repositories and projects, tags, and numbers.
//!
//! Each text is read by a call that answers `Ok` exactly on the texts of its grammar, want of memory
//! aside, and gives its bytes back as they were read. The grammars are those of the OCI Distribution
//! Specification 1.1 ("Pulling manifests"), and of its digests those with SHA-256 alone.
//!
//! - [`Digest`] and [`Hash`]: SHA-256 of bytes, at once or piece by piece, and its text. They take no memory.
//! - [`Name`], [`ProjectName`], [`Tag`], [`Reference`]: what a client names.
//! - [`Text`]: bytes of any sort.
//! - [`read_number`]: decimal digits.
//!
//! Texts are ordered by their bytes and digests by theirs: [`keys_are_in_total_order`] has the laws.
#![tactic(auto)]

mod digests;
mod names;
mod numbers;
mod orders;
mod references;
mod tags;
#[cfg(test)]
mod tests;
mod texts;

pub use digests::{Digest, Hash};
pub use hb_base::{Duplicate, Memory};
pub use names::{LONGEST_NAME, Name, NameFault, ProjectName};
pub use numbers::read_number;
pub use orders::keys_are_in_total_order;
pub use references::Reference;
pub use tags::{LONGEST_TAG, Tag};
pub use texts::Text;
