//! Paths under `/v2/`, read from their ends.
ghost use Rattle.std.specs.Prelude.{◌≡◌, ◌++◌, ◌∷◌, [], ℕ, List, false, Option, IfSome, IfNone, option_map, nat_eq, codes};
ghost use Rattle.std.specs.List.{list_any};
ghost use Rattle.hb_routes.specs.LastParts.{AreOf, IsLastPart};
ghost use Rattle.hb_routes.specs.Resources.{by_ending, registry_resource};
ghost use Rattle.hb_routes.specs.Meanings.{meaning_of};

use crate::resources::Resource;

// What stands before the last slash, and the part behind it.
fn cut_last(text: &[u8]) -> Option<(&[u8], &[u8])>
    ensures some { IfSome result (λ cut. (text.now ≡ cut.0.now ++ 47 ∷ cut.1.now) × (list_any (nat_eq 47) cut.1.now ≡ false)) }
    ensures none { IfNone result (list_any (nat_eq 47) text.now ≡ false) }
{
    for place in (0..text.len()).rev() {
        if text[place] == b'/' {
            return Some((&text[..place], &text[place + 1..]));
        }
    }
    None
}

// The last part, and what stands before its slash: nothing where it has none.
fn last_part(text: &[u8]) -> (&[u8], &[u8])
    ensures { IsLastPart text.now result.0.now result.1.now }
{
    match cut_last(text) {
        Some((front, last)) => (front, last),
        None => (&text[..0], text),
    }
}

// What a path names that ends with `uploads` and this last part, by what stands before both.
fn upload_of<'a>(front: &'a [u8], last: &'a [u8]) -> Option<Resource<'a>>
    ensures { (before : List (List ℕ)) → AreOf before front.now → option_map meaning_of result ≡ by_ending (before ++ codes "uploads" ∷ last.now ∷ []) }
{
    let (name, kind) = last_part(front);
    if kind != b"blobs".as_slice() {
        return None;
    }
    if last.is_empty() {
        Some(Resource::Uploads { name })
    } else {
        Some(Resource::Upload { name, id: last })
    }
}

// What a path names by its last two parts, and by what stands before both.
fn resource_at<'a>(front: &'a [u8], kind: &'a [u8], last: &'a [u8]) -> Option<Resource<'a>>
    ensures { (before : List (List ℕ)) → AreOf before front.now → option_map meaning_of result ≡ by_ending (before ++ kind.now ∷ last.now ∷ []) }
{
    if kind == b"uploads".as_slice() {
        upload_of(front, last)
    } else if kind == b"blobs".as_slice() {
        Some(Resource::Blob {
            name: front,
            digest: last,
        })
    } else if kind == b"manifests".as_slice() {
        Some(Resource::Manifest {
            name: front,
            reference: last,
        })
    } else if kind == b"tags".as_slice() && last == b"list".as_slice() {
        Some(Resource::Tags { name: front })
    } else {
        None
    }
}

/// What a path names, by its text behind `/v2/`.
pub fn registry_resource(text: &[u8]) -> Option<Resource<'_>>
    ensures { option_map meaning_of result ≡ registry_resource text.now }
{
    if text.is_empty() {
        return Some(Resource::Base);
    }
    let Some((rest, last)) = cut_last(text) else {
        return None;
    };
    let (front, kind) = last_part(rest);
    resource_at(front, kind, last)
}
