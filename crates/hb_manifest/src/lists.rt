//! Digests, each once, as `specs/Lists` has them.
ghost use Rattle.std.specs.Prelude.{◌≡◌, ◌++◌, [], ◌∷◌, List, OnOk};
ghost use Rattle.std.specs.List.{list_any};
ghost use Rattle.hb_text.specs.declared.digests.Digest.{Digest};
ghost use Rattle.hb_manifest.specs.Lists.{each_once, same_digest};

use crate::manifests::DigestList;
use hb_base::Memory;
use hb_text::Digest;

fn has(digests: &[Digest], digest: Digest) -> bool
    ensures { result ≡ list_any (same_digest digest) digests.now }
{
    digests.iter().any(|other| digest.0 == other.0)
}

/// Adds a digest at the end, where it isn't in the list yet. It looks through all of them, which are at most
/// [`MAX_DESCRIPTORS`](crate::MAX_DESCRIPTORS).
pub(crate) fn add_once(list: &mut DigestList, digest: Digest) -> Result<(), Memory>
    ensures { OnOk result ((all : List Digest) → list.old ≡ each_once all → list.new ≡ each_once (all ++ digest ∷ [])) }
{
    if has(list.as_slice(), digest) {
        return Ok(());
    }
    list.push(digest)
}
