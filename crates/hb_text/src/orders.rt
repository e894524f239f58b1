ghost use Rattle.std.specs.Prelude.{◌≡◌};
ghost use Rattle.hb_text.specs.Orders.{text_cmp, digest_cmp, IsKeyOrder};

use crate::digests::Digest;
use crate::names::{Name, ProjectName};
use crate::tags::Tag;
use crate::texts::Text;

/// Keys of tables are in total order, and only equal keys tie: texts, names and tags by their bytes,
/// and digests by theirs. It does nothing, and its contract is these laws.
pub fn keys_are_in_total_order()
    ensures texts { IsKeyOrder text_cmp }
    ensures digests { IsKeyOrder digest_cmp }

    // the order of each type is one of the two
    ensures by_text { ⟦<Text as Ord>⟧.cmp ≡ text_cmp }
    ensures by_name { ⟦<Name as Ord>⟧.cmp ≡ text_cmp }
    ensures by_project { ⟦<ProjectName as Ord>⟧.cmp ≡ text_cmp }
    ensures by_tag { ⟦<Tag as Ord>⟧.cmp ≡ text_cmp }
    ensures by_digest { ⟦<Digest as Ord>⟧.cmp ≡ digest_cmp }
{}
