ghost use Rattle.std.specs.Prelude.{◌≡◌, ◌≢◌, Ok, Err, IfOk, IfErr, option_copied};
ghost use Rattle.serde_json.specs.View.{view};
ghost use Rattle.hb_manifest.specs.Forms.{manifest_form, object_form, has_schema, subject};

use crate::MAX_MANIFEST;
use crate::descriptors::descriptor;
use crate::json::{object_of, whole_at};
use crate::manifests::{Manifest, ManifestFault};
use crate::media::{kind_of, media_type};
use crate::parts::{check, children, parts_of, refs};
use hb_text::{Digest, Text};
use serde_json::Value;
use std::alloc::Global;

/// Whether `schemaVersion` is the integer 2.
fn has_schema(object: &Value) -> bool
    ensures { result ≡ has_schema (view object.now) }
{
    match whole_at(object, "schemaVersion") {
        Some(version) => version == 2,
        None => false,
    }
}

/// The digest of the manifest that this one is about.
fn subject_of(object: &Value) -> Option<Digest>
    ensures { result ≡ subject (view object.now) }
{
    descriptor(object.get("subject")?)
}

/// A JSON object as a manifest, beside a Content-Type or without one.
fn read_object(
    alloc: Global,
    header: Option<&[u8]>,
    object: &Value,
) -> Result<Manifest, ManifestFault>
    ensures ok { IfOk result (λ m. object_form (option_copied header.entry) (view object.now) ≡ Ok m) }
    ensures err { IfErr result (λ e. e ≢ ManifestFault.Memory → object_form (option_copied header.entry) (view object.now) ≡ Err e) }
{
    let Some(media) = media_type(header, object) else {
        return Err(ManifestFault::MediaUnknown);
    };
    let Some(kind) = kind_of(media) else {
        return Err(ManifestFault::MediaUnknown);
    };
    if !has_schema(object) {
        return Err(ManifestFault::NoSchema);
    }
    let Some(parts) = parts_of(kind, object) else {
        return Err(ManifestFault::NoSchema);
    };
    check(parts)?;
    Ok(Manifest {
        media: Text::new(alloc, media)?,
        refs: refs(alloc, parts)?,
        children: children(alloc, parts)?,
        subject: subject_of(object),
    })
}

/// Reads a manifest as a client sends it: the value of its Content-Type header, where there is one, and
/// its bytes.
///
/// The media type is the Content-Type without its parameters (RFC 9110, section 8.3.1), and without one
/// the manifest's own `mediaType`. It is one of
/// `application/vnd.oci.image.manifest.v1+json` and
/// `application/vnd.docker.distribution.manifest.v2+json`, an image, or
/// `application/vnd.oci.image.index.v1+json` and
/// `application/vnd.docker.distribution.manifest.list.v2+json`, an index.
///
/// Where several refusals apply, the first in this order comes:
/// - `TooLong`: more than [`MAX_MANIFEST`] bytes;
/// - `NotJson`: no UTF-8, no JSON (RFC 8259), or no object. At most 127 arrays and objects stand in one
///   another, and of members with one name the last counts;
/// - `MediaUnknown`: another media type, or none;
/// - `NoSchema`: `schemaVersion` isn't the integer 2 (`2.0` isn't), or there is no object `config` or no
///   array `layers` in an image, or no array `manifests` in an index;
/// - `TooMany`: more than [`MAX_DESCRIPTORS`](crate::MAX_DESCRIPTORS) descriptors, an image's config among
///   them;
/// - `BadDescriptor`: the first that is no descriptor (OCI Image Specification 1.1, "OCI Content
///   Descriptors"), by its place from 0, an image's config first. A descriptor is an object with a `digest`
///   that is the text of a [`Digest`], and a `size` that is an integer from 0 to
///   [`MAX_BLOB`](crate::MAX_BLOB).
///
/// `Memory` may come wherever memory is wanting. A `subject` that is no descriptor is ignored, and so is
/// every member that isn't named here.
pub fn read_manifest(
    alloc: Global,
    media: Option<&[u8]>,
    bytes: &[u8],
) -> Result<Manifest, ManifestFault>
    ensures ok { IfOk result (λ m. manifest_form (option_copied media.entry) bytes.now ≡ Ok m) }
    ensures err { IfErr result (λ e. e ≢ ManifestFault.Memory → manifest_form (option_copied media.entry) bytes.now ≡ Err e) }
{
    if bytes.len() > MAX_MANIFEST {
        return Err(ManifestFault::TooLong);
    }
    let object = object_of(alloc, bytes)?;
    read_object(alloc, media, &object)
}
