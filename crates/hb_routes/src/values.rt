//! Texts read as values.
ghost use Rattle.std.specs.Prelude.{◌≡◌, ◌≢◌, IfOk, IsOkAnd, option_map, nat_eq, codes};
ghost use Rattle.std.specs.List.{list_any};
ghost use Rattle.std.specs.Cow.{cow_slice_items};
ghost use Rattle.hb_text.specs.Digests.{IsDigest};
ghost use Rattle.hb_text.specs.Numbers.{IsNumber};
ghost use Rattle.hb_routes.specs.Queries.{value_of, value_or_empty};
ghost use Rattle.hb_routes.specs.Values.{StandsForName, StandsForProject, StandsForTag, StandsForDigest, StandsForLimit, IsValueOf, IsTaken, IsGiven, IsMost, has_colon};
ghost use Rattle.hb_routes.specs.Readings.{IsReading, IsReferenceReading};

use crate::faults::RouteFault;
use crate::queries::value_of;
use crate::routes::{Given, MOST_TAGS};
use hb_text::{Digest, Memory, Name, NameFault, ProjectName, Reference, Tag, read_number};
use std::alloc::Global;

/// The repository that a text names: else `NameInvalid`.
pub fn read_name(alloc: Global, text: &[u8]) -> Result<Name, RouteFault>
    ensures { IsReading StandsForName RouteFault.NameInvalid text.now result }
{
    match Name::read(alloc, text) {
        Ok(name) => Ok(name),
        Err(NameFault::Invalid) => Err(RouteFault::NameInvalid),
        Err(NameFault::Memory) => Err(RouteFault::Memory),
    }
}

/// The project that a text names: else `NameInvalid`.
pub fn read_project(alloc: Global, text: &[u8]) -> Result<ProjectName, RouteFault>
    ensures { IsReading StandsForProject RouteFault.NameInvalid text.now result }
{
    match ProjectName::read(alloc, text) {
        Ok(name) => Ok(name),
        Err(NameFault::Invalid) => Err(RouteFault::NameInvalid),
        Err(NameFault::Memory) => Err(RouteFault::Memory),
    }
}

/// The tag that a text spells: else `TagInvalid`.
pub fn read_tag(alloc: Global, text: &[u8]) -> Result<Tag, RouteFault>
    ensures { IsReading StandsForTag RouteFault.TagInvalid text.now result }
{
    match Tag::read(alloc, text) {
        Ok(tag) => Ok(tag),
        Err(NameFault::Invalid) => Err(RouteFault::TagInvalid),
        Err(NameFault::Memory) => Err(RouteFault::Memory),
    }
}

// A digest that was read. Contracts see the bytes of a digest as a list, and here that it has 32 of them.
fn as_read(digest: Digest) -> Result<Digest, RouteFault>
    ensures { IsOkAnd result (λ same. (same ≡ digest) × IsDigest same) }
{
    Ok(digest)
}

/// The digest that a text spells: else `DigestInvalid`.
pub fn read_digest(text: &[u8]) -> Result<Digest, RouteFault>
    ensures { IsReading StandsForDigest RouteFault.DigestInvalid text.now result }
{
    match Digest::read(text) {
        Some(digest) => as_read(digest),
        None => Err(RouteFault::DigestInvalid),
    }
}

fn has_colon(text: &[u8]) -> bool
    ensures { result ≡ has_colon text.now }
{
    text.iter().any(|byte| b':' == *byte)
}

/// A digest where the text has a colon, and else a tag.
pub fn read_reference(alloc: Global, text: &[u8]) -> Result<Reference, RouteFault>
    ensures { IsReferenceReading text.now result }
{
    if has_colon(text) {
        Ok(Reference::Digest(read_digest(text)?))
    } else {
        Ok(Reference::Tag(read_tag(alloc, text)?))
    }
}

/// The number of an upload or a job.
pub fn read_id(text: &[u8]) -> Option<u64>
    ensures { IsValueOf IsNumber text.now result }
{
    read_number(text)
}

fn read_limit(text: &[u8]) -> Option<i64>
    ensures { IsValueOf StandsForLimit text.now result }
{
    if text == b"-1".as_slice() {
        return Some(-1);
    }
    match read_number(text) {
        Some(number) => if number <= i64::MAX as u64 {
            Some(number as i64)
        } else {
            None
        },
        None => None,
    }
}

/// The digest that ends an upload. An absent one is no digest.
pub fn digest_in(alloc: Global, query: &[u8]) -> Result<Digest, RouteFault>
    ensures { IsReading StandsForDigest RouteFault.DigestInvalid (value_or_empty (codes "digest") query.now) result }
{
    match value_of(alloc, query, b"digest")? {
        Some(text) => read_digest(&text),
        None => Err(RouteFault::DigestInvalid),
    }
}

/// The repository to mount from, where the query names one.
pub fn giver_in(alloc: Global, query: &[u8]) -> Result<Option<Name>, Memory>
    ensures { IfOk result (IsTaken StandsForName (value_of (codes "from") query.now)) }
{
    let Some(text) = value_of(alloc, query, b"from")? else {
        return Ok(None);
    };
    match Name::read(alloc, &text) {
        Ok(name) => Ok(Some(name)),
        Err(NameFault::Invalid) => Ok(None),
        Err(NameFault::Memory) => Err(Memory),
    }
}

/// The tag that a list begins behind, where the query names one.
pub fn last_in(alloc: Global, query: &[u8]) -> Result<Option<Tag>, Memory>
    ensures { IfOk result (IsTaken StandsForTag (value_of (codes "last") query.now)) }
{
    let Some(text) = value_of(alloc, query, b"last")? else {
        return Ok(None);
    };
    match Tag::read(alloc, &text) {
        Ok(tag) => Ok(Some(tag)),
        Err(NameFault::Invalid) => Ok(None),
        Err(NameFault::Memory) => Err(Memory),
    }
}

/// How many tags a list has at most.
pub fn most_in(alloc: Global, query: &[u8]) -> Result<u32, Memory>
    ensures { IfOk result (IsMost (value_of (codes "n") query.now)) }
{
    let Some(text) = value_of(alloc, query, b"n")? else {
        return Ok(MOST_TAGS);
    };
    match read_number(&text) {
        Some(number) => if number < MOST_TAGS as u64 {
            Ok(number as u32)
        } else {
            Ok(MOST_TAGS)
        },
        None => Ok(MOST_TAGS),
    }
}

/// The limit that the query gives, in bytes: -1 for none.
pub fn limit_in(alloc: Global, query: &[u8]) -> Result<Given<i64>, Memory>
    ensures { IfOk result (IsGiven StandsForLimit (value_of (codes "limit") query.now)) }
{
    let Some(text) = value_of(alloc, query, b"limit")? else {
        return Ok(Given::Absent);
    };
    match read_limit(&text) {
        Some(limit) => Ok(Given::Value(limit)),
        None => Ok(Given::Invalid),
    }
}

/// The version of a project that the query gives.
pub fn version_in(alloc: Global, query: &[u8]) -> Result<Given<u64>, Memory>
    ensures { IfOk result (IsGiven IsNumber (value_of (codes "version") query.now)) }
{
    let Some(text) = value_of(alloc, query, b"version")? else {
        return Ok(Given::Absent);
    };
    match read_number(&text) {
        Some(version) => Ok(Given::Value(version)),
        None => Ok(Given::Invalid),
    }
}

/// The project that the query gives.
pub fn project_in(alloc: Global, query: &[u8]) -> Result<Given<ProjectName>, Memory>
    ensures { IfOk result (IsGiven StandsForProject (value_of (codes "project") query.now)) }
{
    let Some(text) = value_of(alloc, query, b"project")? else {
        return Ok(Given::Absent);
    };
    match ProjectName::read(alloc, &text) {
        Ok(name) => Ok(Given::Value(name)),
        Err(NameFault::Invalid) => Ok(Given::Invalid),
        Err(NameFault::Memory) => Err(Memory),
    }
}
