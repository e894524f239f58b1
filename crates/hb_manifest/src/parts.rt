//! What a manifest lists, and the digests in it.
ghost use Rattle.std.specs.Prelude.{◌≡◌, ◌++◌, [], ◌∷◌, List, map, length, filter_map, IfOk, OnOk, IfSome, IfNone, Some, None};
ghost use Rattle.serde_json.specs.View.{view};
ghost use Rattle.hb_text.specs.declared.digests.Digest.{Digest};
ghost use Rattle.hb_manifest.specs.Descriptors.{descriptor};
ghost use Rattle.hb_manifest.specs.Lists.{each_once};
ghost use Rattle.hb_manifest.specs.Forms.{listed, bad_place, checked, needed, refs, children};
ghost use Rattle.hb_manifest.specs.Parts.{all_of, kind_in};

use crate::MAX_DESCRIPTORS;
use crate::descriptors::descriptor;
use crate::json::{list_at, object_at};
use crate::lists::add_once;
use crate::manifests::{DigestList, ManifestFault};
use crate::media::{Kind, is_nondistributable};
use hb_base::{Listed, Memory};
use serde_json::Value;
use std::alloc::Global;

/// What a manifest lists, in the order of its descriptors.
#[derive(Clone, Copy)]
pub(crate) enum Parts<'a> {
    /// An image's.
    Image {
        config: &'a Value,
        layers: &'a [Value],
    },
    /// An index's.
    Index {
        manifests: &'a [Value],
    },
}

/// What an object lists as a manifest of this kind. `None` where what holds it isn't there.
pub(crate) fn parts_of<'a>(kind: Kind, object: &'a Value) -> Option<Parts<'a>>
    ensures some { IfSome result (λ parts. (kind_in parts ≡ kind) × (listed kind (view object.now) ≡ Some (all_of parts))) }
    ensures none { IfNone result (listed kind (view object.now) ≡ None) }
{
    match kind {
        Kind::Image => Some(Parts::Image {
            config: object_at(object, "config")?,
            layers: list_at(object, "layers")?,
        }),
        Kind::Index => Some(Parts::Index {
            manifests: list_at(object, "manifests")?,
        }),
    }
}

/// The place of the first that is no descriptor.
fn bad_place(items: &[Value]) -> Option<usize>
    ensures { result ≡ bad_place (map view items.now) }
{
    'items: for (place, item) in items.iter().enumerate() {
        if descriptor(item).is_none() {
            return Some(place);
        }
    }
    None
}

/// `TooMany` above [`MAX_DESCRIPTORS`], and `BadDescriptor` at the first that is none.
pub(crate) fn check(parts: Parts) -> Result<(), ManifestFault>
    ensures { result ≡ checked (all_of parts.entry) }
{
    match parts {
        Parts::Image { config, layers } => {
            if layers.len() >= MAX_DESCRIPTORS {
                return Err(ManifestFault::TooMany);
            }
            if descriptor(config).is_none() {
                return Err(ManifestFault::BadDescriptor { place: 0 });
            }
            match bad_place(layers) {
                Some(place) => Err(ManifestFault::BadDescriptor {
                    place: place as u32 + 1,
                }),
                None => Ok(()),
            }
        }
        Parts::Index { manifests } => {
            if manifests.len() > MAX_DESCRIPTORS {
                return Err(ManifestFault::TooMany);
            }
            match bad_place(manifests) {
                Some(place) => Err(ManifestFault::BadDescriptor {
                    place: place as u32,
                }),
                None => Ok(()),
            }
        }
    }
}

/// Adds the digest of a descriptor.
fn add_descriptor(list: &mut DigestList, value: &Value) -> Result<(), Memory>
    ensures { OnOk result ((all : List Digest) → list.old ≡ each_once all → list.new ≡ each_once (all ++ filter_map descriptor (view value.now ∷ []))) }
{
    match descriptor(value) {
        Some(digest) => add_once(list, digest),
        None => Ok(()),
    }
}

/// The digests of an image's config, and of its layers but for those that may not be distributed.
fn needed_digests(alloc: Global, config: &Value, layers: &[Value]) -> Result<DigestList, Memory>
    ensures { IfOk result (λ made. made ≡ each_once (filter_map descriptor (needed (view config.now ∷ map view layers.now)))) }
{
    let mut made = Listed::new(alloc);
    add_descriptor(&mut made, config)?;
    'layers: for layer in layers {
        if !is_nondistributable(layer) {
            add_descriptor(&mut made, layer)?;
        }
    }
    Ok(made)
}

/// The digests of these descriptors.
fn digests(alloc: Global, manifests: &[Value]) -> Result<DigestList, Memory>
    ensures { IfOk result (λ made. made ≡ each_once (filter_map descriptor (map view manifests.now))) }
{
    let mut made = Listed::new(alloc);
    'manifests: for manifest in manifests {
        add_descriptor(&mut made, manifest)?;
    }
    Ok(made)
}

/// The digests that the manifest refers to.
pub(crate) fn refs(alloc: Global, parts: Parts) -> Result<DigestList, Memory>
    ensures { IfOk result (λ made. made ≡ refs (kind_in parts.entry) (all_of parts.entry)) }
{
    match parts {
        Parts::Image { config, layers } => needed_digests(alloc, config, layers),
        Parts::Index { manifests: _ } => Ok(Listed::new(alloc)),
    }
}

/// The digests of the manifests in it.
pub(crate) fn children(alloc: Global, parts: Parts) -> Result<DigestList, Memory>
    ensures { IfOk result (λ made. made ≡ children (kind_in parts.entry) (all_of parts.entry)) }
{
    match parts {
        Parts::Image {
            config: _,
            layers: _,
        } => Ok(Listed::new(alloc)),
        Parts::Index { manifests } => digests(alloc, manifests),
    }
}
