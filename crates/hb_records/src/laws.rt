//! The laws of the definitions that stand here. Each function does nothing: its contract is the law.

ghost use Rattle.std.specs.Prelude.{◌≡◌, ◌↔◌, ◌^◌, ℕ, List, [], ◌∷◌, Some, None, true, false, codes, IsTrue};
ghost use Rattle.std.specs.Ordering.{nat_cmp};
ghost use Rattle.hb_text.specs.Orders.{IsKeyOrder};
ghost use Rattle.hb_records.specs.Orders.{named_digest_cmp, named_tag_cmp, job_digest_cmp, job_tag_cmp};
ghost use Rattle.hb_records.specs.Keys.{key_cmp};
ghost use Rattle.hb_records.specs.Patterns.{Part, Matches, matches};
ghost use Rattle.hb_records.specs.Patterns.Part.{Literal, Any};
ghost use Rattle.hb_records.specs.PatternTexts.{parts_of, matches_text};
ghost use Rattle.hb_records.specs.Retention.{keeps};
ghost use Rattle.hb_records.specs.Examples.{tag_pushed, five_tags, rule_by, no_rules};
ghost use Rattle.hb_records.specs.declared.rules.Template.TheVariants.{PushedLatest, PulledLatest, PushedDays, PulledDays};
ghost use Rattle.hb_records.specs.declared.entries.TheConstants.{MAX_ENTRIES, MAX_MOMENT, WINDOW};
ghost use Rattle.hb_records.specs.declared.pages.TheConstants.{MOST_ROWS};
ghost use Rattle.hb_records.specs.declared.rules.TheConstants.{MOST_RULES};

use crate::keys::Key;

/// The keys of each table are in total order, and only equal keys tie.
pub fn keys_are_in_total_order()
    ensures numbers { IsKeyOrder nat_cmp }
    ensures named_digests { IsKeyOrder named_digest_cmp }
    ensures named_tags { IsKeyOrder named_tag_cmp }
    ensures job_digests { IsKeyOrder job_digest_cmp }
    ensures job_tags { IsKeyOrder job_tag_cmp }
{}

/// The comparison of keys is the order that the definitions speak of, over all tables.
pub fn keys_compare_as_defined()
    ensures { (a b : Key) → ⟦<Key as Ord>⟧.cmp a b ≡ key_cmp a b }
{}

/// The test of a pattern, which tries each cut, tells on which whole texts the relation holds.
pub fn patterns_match_whole_texts()
    ensures { (parts : List Part) (s : List ℕ) → IsTrue (matches parts s) ↔ Matches parts s }
{}

/// What patterns match, by example. A star stops at a slash, two don't, braces are one of their texts, and
/// the whole text has to match. Three stars, an empty text, and braces that are open or have an empty
/// choice are no pattern.
pub fn patterns_by_example()
    ensures star { matches_text (codes "v*") (codes "v1.2") ≡ true }
    ensures star_at_slash { matches_text (codes "a*") (codes "a/b") ≡ false }
    ensures two_stars { matches_text (codes "a**") (codes "a/b") ≡ true }
    ensures mark { matches_text (codes "v?") (codes "v") ≡ false }
    ensures braces { matches_text (codes "{dev,rc}-*") (codes "rc-1") ≡ true }
    ensures whole { matches_text (codes "v1") (codes "v10") ≡ false }
    ensures parts { parts_of (codes "v**") ≡ Some (Literal 118 ∷ Any ∷ []) }
    ensures empty { parts_of [] ≡ None }
    ensures three_stars { parts_of (codes "***") ≡ None }
    ensures open_braces { parts_of (codes "{a") ≡ None }
    ensures empty_choice { parts_of (codes "{a,}") ≡ None }
    ensures no_pattern { matches_text (codes "{") (codes "{") ≡ false }
{}

/// Which of five tags are kept, by example: the latest two, those of a day and no second more, none that
/// was never pulled where pulls count, and all where no rule looks at them.
pub fn retention_by_example()
    ensures second_latest { keeps (rule_by (PushedLatest 2)) five_tags 1000010 (tag_pushed 4) ≡ true }
    ensures third_latest { keeps (rule_by (PushedLatest 2)) five_tags 1000010 (tag_pushed 3) ≡ false }
    ensures within_a_day { keeps (rule_by (PushedDays 1)) five_tags 1086401 (tag_pushed 1) ≡ true }
    ensures past_a_day { keeps (rule_by (PushedDays 1)) five_tags 1086402 (tag_pushed 1) ≡ false }
    ensures never_pulled { keeps (rule_by (PulledDays 100)) five_tags 1000010 (tag_pushed 5) ≡ false }
    ensures lesser_tag { keeps (rule_by (PulledLatest 1)) five_tags 1000010 (tag_pushed 1) ≡ true }
    ensures no_rule { keeps no_rules five_tags 1000010 (tag_pushed 1) ≡ true }
{}

/// The limits: the last moment, which is the last second of the year 9998; the most entries of an audit; the window of a grace, in
/// seconds; the most rows of a page; and the most rules of a project, of each sort.
pub fn limits()
    ensures moment { MAX_MOMENT ≡ 253370764799 }
    ensures entries { MAX_ENTRIES ≡ 2 ^ 62 }
    ensures window { WINDOW ≡ 7200 }
    ensures rows { MOST_ROWS ≡ 256 }
    ensures rules { MOST_RULES ≡ 15 }
{}
