//! Content descriptors, as `specs/Descriptors` has them.
ghost use Rattle.std.specs.Prelude.{◌≡◌};
ghost use Rattle.hb_text.specs.Digests.{IsDigest};
ghost use Rattle.serde_json.specs.View.{view};
ghost use Rattle.hb_manifest.specs.Descriptors.{digest_in, has_size, descriptor};

use crate::MAX_BLOB;
use crate::json::{text_at, whole_at};
use hb_text::Digest;
use serde_json::Value;

/// The same digest. Its type says that it has 32 bytes, and callers take that from here.
fn known(digest: Digest) -> Digest
    ensures same { result ≡ digest }
    ensures whole { IsDigest digest }
{
    digest
}

/// The digest that a text names.
fn digest_in(text: &[u8]) -> Option<Digest>
    ensures { result ≡ digest_in text.now }
{
    let digest = Digest::read(text)?;
    Some(known(digest))
}

/// Whether there is a `size` of at most [`MAX_BLOB`].
fn has_size(value: &Value) -> bool
    ensures { result ≡ has_size (view value.now) }
{
    match whole_at(value, "size") {
        Some(size) => size <= MAX_BLOB,
        None => false,
    }
}

/// The digest that a descriptor names. `None` for what is no descriptor.
pub(crate) fn descriptor(value: &Value) -> Option<Digest>
    ensures { result ≡ descriptor (view value.now) }
{
    if has_size(value) {
        digest_in(text_at(value, "digest")?)
    } else {
        None
    }
}
