//! Media types of manifests and layers, as `specs/MediaTypes` has them.
ghost use Rattle.std.specs.Prelude.{◌≡◌, ◌==◌, option_copied};
ghost use Rattle.std.specs.List.{before_first, position_or_len, prefix_len, suffix_len};
ghost use Rattle.serde_json.specs.View.{view};
ghost use Rattle.hb_manifest.specs.MediaTypes.{is_blank, without_front, without_back, essence, media_type, kind_of, is_among, nondistributable_types, is_nondistributable};

use crate::json::text_at;
use serde_json::Value;

const OCI_IMAGE: &[u8] = b"application/vnd.oci.image.manifest.v1+json";

const DOCKER_IMAGE: &[u8] = b"application/vnd.docker.distribution.manifest.v2+json";

const OCI_INDEX: &[u8] = b"application/vnd.oci.image.index.v1+json";

const DOCKER_INDEX: &[u8] = b"application/vnd.docker.distribution.manifest.list.v2+json";

const OCI_LAYER: &[u8] = b"application/vnd.oci.image.layer.nondistributable.v1.tar";

const OCI_LAYER_GZIP: &[u8] = b"application/vnd.oci.image.layer.nondistributable.v1.tar+gzip";

const OCI_LAYER_ZSTD: &[u8] = b"application/vnd.oci.image.layer.nondistributable.v1.tar+zstd";

const DOCKER_LAYER: &[u8] = b"application/vnd.docker.image.rootfs.foreign.diff.tar.gzip";

/// What a manifest describes.
#[derive(Clone, Copy, Debug, PartialEq, Eq)]
pub(crate) enum Kind {
    /// One image.
    Image,
    /// Several manifests, as one for each platform.
    Index,
}

/// A space or a tab.
fn is_blank(byte: u8) -> bool
    ensures { result ≡ is_blank byte }
{
    byte == b' ' || byte == b'\t'
}

/// How many blanks stand in front.
fn blanks_in_front(text: &[u8]) -> usize
    ensures { result ≡ prefix_len is_blank text.now }
{
    text.iter().take_while(|byte| is_blank(**byte)).count()
}

/// How many blanks stand behind.
fn blanks_behind(text: &[u8]) -> usize
    ensures { result ≡ suffix_len is_blank text.now }
{
    text.iter()
        .rev()
        .take_while(|byte| is_blank(**byte))
        .count()
}

/// The place of the first `;`, or the length of the text where there is none.
fn parameters_start(text: &[u8]) -> usize
    ensures { result ≡ position_or_len (λ b. b == 59) text.now }
{
    for (place, byte) in text.iter().enumerate() {
        if *byte == b';' {
            return place;
        }
    }
    text.len()
}

/// What stands before the parameters.
fn before_parameters(header: &[u8]) -> &[u8]
    ensures { result.now ≡ before_first (λ b. b == 59) header.now }
{
    &header[..parameters_start(header)]
}

/// The text without the blanks in front.
fn without_front(text: &[u8]) -> &[u8]
    ensures { result.now ≡ without_front text.now }
{
    &text[blanks_in_front(text)..]
}

/// The text without the blanks behind.
fn without_back(text: &[u8]) -> &[u8]
    ensures { result.now ≡ without_back text.now }
{
    &text[..text.len() - blanks_behind(text)]
}

/// A Content-Type without its parameters, and without the blanks around it.
fn essence(header: &[u8]) -> &[u8]
    ensures { result.now ≡ essence header.now }
{
    without_back(without_front(before_parameters(header)))
}

/// The media type of a manifest: what the Content-Type says, and without one its own `mediaType`.
pub(crate) fn media_type<'a>(header: Option<&'a [u8]>, value: &'a Value) -> Option<&'a [u8]>
    ensures { option_copied result ≡ media_type (option_copied header.entry) (view value.now) }
{
    match header {
        Some(header) => Some(essence(header)),
        None => text_at(value, "mediaType"),
    }
}

/// What a manifest of this media type describes.
pub(crate) fn kind_of(media: &[u8]) -> Option<Kind>
    ensures { result ≡ kind_of media.now }
{
    if media == OCI_IMAGE || media == DOCKER_IMAGE {
        Some(Kind::Image)
    } else if media == OCI_INDEX || media == DOCKER_INDEX {
        Some(Kind::Index)
    } else {
        None
    }
}

/// Whether a layer of this media type may not be distributed.
fn is_nondistributable_type(media: &[u8]) -> bool
    ensures { result ≡ is_among nondistributable_types media.now }
{
    media == OCI_LAYER
        || media == OCI_LAYER_GZIP
        || media == OCI_LAYER_ZSTD
        || media == DOCKER_LAYER
}

/// Whether a layer says that it may not be distributed.
pub(crate) fn is_nondistributable(layer: &Value) -> bool
    ensures { result ≡ is_nondistributable (view layer.now) }
{
    match text_at(layer, "mediaType") {
        Some(media) => is_nondistributable_type(media),
        None => false,
    }
}
