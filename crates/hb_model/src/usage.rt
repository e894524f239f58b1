//! What a project uses, counted afresh.
ghost use Rattle.std.specs.Prelude.{◌≡◌};
ghost use Rattle.hb_model.specs.Presence.{usage};
ghost use Rattle.hb_model.specs.Seen.{seen};

use hb_rows::Rows;
use hb_text::ProjectName;

/// The bytes that a project uses, counted afresh over its pairs of a project and a digest: the sum of the sizes of
/// its distinct digests, 0 for a project that isn't there. It takes no memory. The sizes have 64 bits, so their
/// sum over all pairs has at most 128.
pub fn usage_of(rows: &Rows, project: &ProjectName) -> u128
    ensures { result ≡ usage (seen rows.now) project.now }
{
    let mut used: u128 = 0;
    for pair in rows.pairs() {
        if project.cmp(&pair.project).is_eq() {
            used += u128::from(pair.size);
        }
    }
    used
}
