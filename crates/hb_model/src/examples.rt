//! What the definitions make of worked logs. Each function does nothing: its contract says what clients
//! see, what the rows are, and what may go, at the moments that matter.

ghost use Rattle.std.specs.Prelude.{◌≡◌, ◌+◌, ◌||◌, pos, negsuc, ℕ, List, [], ◌∷◌, length, map, take, Some, None, true, false, codes};
ghost use Rattle.std.specs.List.{filter};
ghost use Rattle.hb_records.specs.declared.jobs.Phase.TheVariants as phase;
ghost use Rattle.hb_records.specs.declared.jobs.TagVerdict.TheVariants as turn;
ghost use Rattle.hb_records.specs.declared.jobs.Verdict.TheVariants as verdict;
ghost use Rattle.hb_records.specs.declared.records.Status.TheVariants as status;
ghost use Rattle.hb_records.specs.Retention.{keeps};
ghost use Rattle.hb_records.specs.declared.entries.EntryKind.TheVariants.{ProjectMade, LimitSet, RulesSet, UploadBegun, UploadGrown, UploadEnded, Associated, Touched, Unassociated, ArtifactDropped, TagDropped, Pulled, JobQueued, JobClaimed, GcMarked, Taking, Collected, GcSkipped, Adopted, GcDone, RetainBegun, RetainTurn, RetainDone};
ghost use Rattle.hb_records.specs.declared.jobs.JobKind.TheVariants.{Collect, Retain};
ghost use Rattle.hb_rows.specs.Tables.{blob_at};
ghost use Rattle.hb_model.specs.Effects.{rows_of};
ghost use Rattle.hb_model.specs.Seen.{seen};
ghost use Rattle.hb_model.specs.Words.{last_kind};
ghost use Rattle.hb_model.specs.Registry.{pair_in, tag_in, project_in};
ghost use Rattle.hb_model.specs.Replay.{replay, size_of};
ghost use Rattle.hb_model.specs.Moves.{takes_digest, collects, moves};
ghost use Rattle.hb_model.specs.Presence.{present, collecting, usage, needed};
ghost use Rattle.hb_model.specs.Grace.{idle_pair, is_owned, eligible, eligible_but_collecting};
ghost use Rattle.hb_model.specs.LegalBlobs.{fits_limit};
ghost use Rattle.hb_model.specs.LegalArtifacts.{is_immutable_in, may_set_tag, tags_mutable, has_parent, has_tag};
ghost use Rattle.hb_model.specs.Snapshots.{snapshot_of, left_out, unretained, turn_of};
ghost use Rattle.hb_model.specs.History.{Legal, History};
ghost use Rattle.hb_model.specs.LegalExamples.{MayFollow, MayNotFollow, fifteen_rules, sixteen_rules};
ghost use Rattle.hb_model.specs.ExampleNames.{library, other, repo_a, repo_x, v1, all, image_type, braces, image, other_image, index, abc, letter};
ghost use Rattle.hb_model.specs.ExampleColumns.{project_columns, blob_columns, upload_columns, job_columns, candidate_columns, snap_columns, pair_columns, artifact_columns, tag_columns};
ghost use Rattle.hb_store.specs.MemStores.{empty_contents};
ghost use Rattle.hb_model.specs.Sound.{IsSound};
ghost use Rattle.hb_model.specs.Whole.{IsWhole, no_notes};
ghost use Rattle.hb_model.specs.ExampleLogs.{at, opened, audit_of, after, entry, image_entry, index_entry};
ghost use Rattle.hb_model.specs.BatchExamples.{BatchesMakeRows, rows_by_batches, two_of_four_kept};
ghost use Rattle.hb_model.specs.MountExamples.{blob_mounted, unknown_mounted};
ghost use Rattle.hb_model.specs.QuotaExamples.{limit_reached, limit_passed, layer_listed_twice};
ghost use Rattle.hb_model.specs.ImmutabilityExamples.{tag_immutable, index_dropped_first};
ghost use Rattle.hb_model.specs.CollectExamples.{abc_pushed, blob_out_of_window, blob_named_in_window, blob_pushed_after_mark, removal_failed, removal_awaited, collection_stopped, push_raced};
ghost use Rattle.hb_model.specs.RetainExamples.{keep_two, two_of_five_kept, tag_of, tag_item};
ghost use Rattle.hb_model.specs.UploadExamples.{upload_left, content_adopted};
ghost use Rattle.hb_model.specs.TagExamples.{image_put_again, tag_dropped, tag_kept};

/// What every event keeps holds of the start: the entry that makes `library`, nothing to remember, and a store
/// that holds nothing.
pub fn a_new_registry_is_whole()
    ensures whole { IsWhole (rows_of (audit_of (at 0 (opened ∷ [])))) no_notes empty_contents 0 }
    ensures sound { IsSound (replay (audit_of (at 0 (opened ∷ [])))) empty_contents }
{}

/// It doesn't hold where a project has content that the store hasn't.
pub fn a_registry_without_its_content_is_not_whole()
    ensures whole { ¬ (IsWhole (rows_of (audit_of abc_pushed)) no_notes empty_contents 1000000) }
    ensures sound { ¬ (IsSound (replay (audit_of abc_pushed)) empty_contents) }
{}

/// A mounted blob counts in both projects. Before it is mounted the project hasn't got it, and from then on
/// a manifest of the project can name it.
pub fn a_mounted_blob_counts_in_both_projects()
    ensures unknown { pair_in (replay (after 13 blob_mounted)) library abc ≡ None }
    ensures of_giver { pair_in (replay (after 13 blob_mounted)) other abc ≡ Some (record { project = other; digest = abc; size = 3 }) }
    ensures mounted { pair_in (replay (after 14 blob_mounted)) library abc ≡ Some (record { project = library; digest = abc; size = 3 }) }
    ensures used_before { usage (replay (after 13 blob_mounted)) library ≡ 2 }
    ensures used_mounted { usage (replay (after 14 blob_mounted)) library ≡ 5 }
    ensures used_with_manifest { usage (replay (audit_of blob_mounted)) library ≡ 405 }
    ensures used_by_giver { usage (replay (audit_of blob_mounted)) other ≡ 5 }
    ensures stored { (replay (audit_of blob_mounted)).stored ≡ record { digest = braces; size = 2 } ∷ record { digest = image; size = 400 } ∷ record { digest = abc; size = 3 } ∷ [] }
    ensures tag { (replay (audit_of blob_mounted)).tags ≡ record { name = repo_a; tag = v1; digest = image; put = 17; pushed = 0 } ∷ [] }
    ensures projects { map project_columns (rows_of (audit_of blob_mounted)).projects ≡ (library, negsuc 0, 405, 17) ∷ (other, negsuc 0, 5, 8) ∷ [] }
    ensures seen { seen (rows_of (audit_of blob_mounted)) ≡ replay (audit_of blob_mounted) }
{}

/// A mount of what the giver hasn't got begins an upload, whose id is its entry's number.
pub fn a_mount_of_unknown_content_begins_an_upload()
    ensures unknown { (replay (audit_of unknown_mounted)).uploads ≡ record { id = 18; name = repo_a; offset = 0 } ∷ [] }
    ensures used { usage (replay (audit_of unknown_mounted)) library ≡ 405 }
{}

/// A limit may be reached and not passed. What the project has already may be pushed again, and counts once.
pub fn a_limit_may_be_reached()
    ensures limit { project_in (replay (after 6 limit_reached)) library ≡ Some (record { name = library; limit = pos 3; rules = record { immutes = []; retains = [] } }) }
    ensures first { fits_limit (after 3 limit_reached) library abc 3 ≡ true }
    ensures used { usage (replay (after 6 limit_reached)) library ≡ 3 }
    ensures refused { fits_limit (after 6 limit_reached) library braces 2 ≡ false }
    ensures again { fits_limit (after 8 limit_reached) library abc 3 ≡ true }
    ensures used_again { usage (replay (audit_of limit_reached)) library ≡ 3 }
    ensures row { map project_columns (rows_of (audit_of limit_reached)).projects ≡ (library, pos 3, 3, 5) ∷ [] }
    ensures seen { seen (rows_of (audit_of limit_reached)) ≡ replay (audit_of limit_reached) }
{}

/// A limit may fall below what is used. Then only what adds nothing may come.
pub fn a_limit_may_fall_below_what_is_used()
    ensures used { usage (replay (after 11 limit_passed)) library ≡ 3 }
    ensures mounted { fits_limit (after 11 limit_passed) library abc 3 ≡ true }
    ensures refused { fits_limit (after 13 limit_passed) library letter 1 ≡ false }
    ensures nothing_added { fits_limit (after 13 limit_passed) library letter 0 ≡ true }
    ensures used_still { usage (replay (audit_of limit_passed)) library ≡ 3 }
    ensures row { map project_columns (rows_of (audit_of limit_passed)).projects ≡ (library, pos 1, 3, 11) ∷ [] }
{}

/// A blob counts once, however often a manifest lists it, and the manifest counts too, whatever its length.
pub fn a_layer_counts_once(size: u64)
    ensures refs { map (λ x. x.refs) (replay (audit_of (layer_listed_twice size))).artifacts ≡ (braces ∷ abc ∷ []) ∷ [] }
    ensures needed { needed (replay (audit_of (layer_listed_twice size))) library ≡ image ∷ braces ∷ abc ∷ [] }
    ensures used { usage (replay (audit_of (layer_listed_twice size))) library ≡ 5 + size }
{}

/// An immutable tag keeps its manifest: the same one may be put again, another one not, and neither the tag
/// nor the manifest may be dropped.
pub fn an_immutable_tag_keeps_its_manifest()
    ensures immutable { is_immutable_in (replay (after 16 tag_immutable)) repo_a v1 ≡ true }
    ensures other_tag { is_immutable_in (replay (after 16 tag_immutable)) repo_a all ≡ false }
    ensures free { may_set_tag (replay (after 7 tag_immutable)) repo_a image (Some v1) ≡ true }
    ensures same { may_set_tag (replay (after 10 tag_immutable)) repo_a image (Some v1) ≡ true }
    ensures moved { may_set_tag (replay (after 15 tag_immutable)) repo_a other_image (Some v1) ≡ false }
    ensures kept { tags_mutable (replay (audit_of tag_immutable)) repo_a image ≡ false }
    ensures tag { (replay (audit_of tag_immutable)).tags ≡ record { name = repo_a; tag = v1; digest = image; put = 11; pushed = 0 } ∷ [] }
    ensures used { usage (replay (audit_of tag_immutable)) library ≡ 405 }
    ensures seen { seen (rows_of (audit_of tag_immutable)) ≡ replay (audit_of tag_immutable) }
{}

/// An index keeps the manifests that it lists. A manifest that goes takes its tags with it, and leaves the
/// blobs to the project.
pub fn an_index_keeps_its_manifests()
    ensures listed { has_parent (replay (after 10 index_dropped_first)) repo_a image ≡ true }
    ensures index { has_parent (replay (after 10 index_dropped_first)) repo_a index ≡ false }
    ensures tags_before { map tag_columns (replay (after 10 index_dropped_first)).tags ≡ (all, index, 10, 0) ∷ (v1, image, 7, 0) ∷ [] }
    ensures free { has_parent (replay (after 11 index_dropped_first)) repo_a image ≡ false }
    ensures tags { map tag_columns (replay (after 11 index_dropped_first)).tags ≡ (v1, image, 7, 0) ∷ [] }
    ensures no_tag { (replay (audit_of index_dropped_first)).tags ≡ [] }
    ensures no_artifact { (replay (audit_of index_dropped_first)).artifacts ≡ [] }
    ensures pairs { map pair_columns (replay (audit_of index_dropped_first)).pairs ≡ (library, braces, 2) ∷ (library, image, 400) ∷ (library, index, 300) ∷ [] }
    ensures used { usage (replay (audit_of index_dropped_first)) library ≡ 702 }
    ensures seen { seen (rows_of (audit_of index_dropped_first)) ≡ replay (audit_of index_dropped_first) }
{}

/// A blob is safe for 7,200 seconds after its push. The first collection from then on takes it from its
/// project, marks it and removes it.
pub fn a_blob_is_collected_after_its_window()
    ensures safe { idle_pair (after 6 blob_out_of_window) library abc 1007199 ≡ false }
    ensures none_marked { eligible (after 6 blob_out_of_window) abc 1007199 ≡ false }
    ensures no_candidate { (rows_of (after 8 blob_out_of_window)).candidates ≡ [] }
    ensures owned { eligible (after 10 blob_out_of_window) abc 1007200 ≡ false }
    ensures free { idle_pair (after 10 blob_out_of_window) library abc 1007200 ≡ true }
    ensures used_before { usage (replay (after 10 blob_out_of_window)) library ≡ 3 }
    ensures used_after { usage (replay (after 11 blob_out_of_window)) library ≡ 0 }
    ensures may_go { eligible (after 11 blob_out_of_window) abc 1007200 ≡ true }
    ensures too_early { eligible (after 11 blob_out_of_window) abc 1007199 ≡ false }
    ensures present { present (after 12 blob_out_of_window) abc ≡ true }
    ensures marked { map blob_columns (rows_of (after 12 blob_out_of_window)).blobs ≡ (abc, status.Delete, 12, 1000000, 0) ∷ [] }
    ensures absent { present (after 13 blob_out_of_window) abc ≡ false }
    ensures collecting { collecting (after 13 blob_out_of_window) abc 1007200 ≡ true }
    ensures taken { map blob_columns (rows_of (after 13 blob_out_of_window)).blobs ≡ (abc, status.Deleting, 13, 1000000, 1014400) ∷ [] }
    ensures collected { collecting (after 14 blob_out_of_window) abc 1007200 ≡ false }
    ensures candidates { map candidate_columns (rows_of (audit_of blob_out_of_window)).candidates ≡ (9, abc, 3, 12, verdict.Collected) ∷ [] }
    ensures gone { (replay (audit_of blob_out_of_window)).stored ≡ [] }
    ensures jobs { map job_columns (rows_of (audit_of blob_out_of_window)).jobs ≡ (5, phase.Finished, 6, 8) ∷ (9, phase.Finished, 10, 15) ∷ [] }
    ensures seen { seen (rows_of (audit_of blob_out_of_window)) ≡ replay (audit_of blob_out_of_window) }
{}

/// A request for the head of a blob names it: its window begins anew, and neither collection marks it.
pub fn a_named_blob_is_kept()
    ensures touched { map blob_columns (rows_of (after 5 blob_named_in_window)).blobs ≡ (abc, status.Idle, 5, 1000001, 0) ∷ [] }
    ensures early { idle_pair (after 7 blob_named_in_window) library abc 1007199 ≡ false }
    ensures in_window { idle_pair (after 11 blob_named_in_window) library abc 1007200 ≡ false }
    ensures out_of_window { idle_pair (after 11 blob_named_in_window) library abc 1007201 ≡ true }
    ensures none_marked { (rows_of (audit_of blob_named_in_window)).candidates ≡ [] }
    ensures jobs { map job_columns (rows_of (audit_of blob_named_in_window)).jobs ≡ (6, phase.Finished, 7, 9) ∷ (10, phase.Finished, 11, 13) ∷ [] }
    ensures stored { (replay (audit_of blob_named_in_window)).stored ≡ record { digest = abc; size = 3 } ∷ [] }
    ensures present { present (audit_of blob_named_in_window) abc ≡ true }
    ensures used { usage (replay (audit_of blob_named_in_window)) library ≡ 3 }
{}

/// A blob that is pushed after it was marked stays: the candidate was touched, and a manifest can name it.
pub fn a_blob_that_is_pushed_after_its_mark_is_kept()
    ensures marked { present (after 8 blob_pushed_after_mark) abc ≡ true }
    ensures not_collecting { collecting (after 8 blob_pushed_after_mark) abc 1007200 ≡ false }
    ensures unowned { is_owned (replay (after 8 blob_pushed_after_mark)) abc ≡ false }
    ensures owned { is_owned (replay (after 11 blob_pushed_after_mark)) abc ≡ true }
    ensures idle { blob_at (rows_of (after 11 blob_pushed_after_mark)) abc ≡ Some (record { digest = abc; size = 3; status = status.Idle; version = 11; touched = 1007200; bar = 0 }) }
    ensures candidates { map candidate_columns (rows_of (after 13 blob_pushed_after_mark)).candidates ≡ (5, abc, 3, 8, verdict.Touched) ∷ [] }
    ensures present { present (audit_of blob_pushed_after_mark) abc ≡ true }
    ensures needed { needed (replay (audit_of blob_pushed_after_mark)) library ≡ image ∷ braces ∷ abc ∷ [] }
    ensures used { usage (replay (audit_of blob_pushed_after_mark)) library ≡ 405 }
    ensures seen { seen (rows_of (audit_of blob_pushed_after_mark)) ≡ replay (audit_of blob_pushed_after_mark) }
{}

/// A removal that failed may still take effect up to its bar, so the content can't be pushed before.
pub fn a_failed_removal_bars_a_push()
    ensures candidates { map candidate_columns (rows_of (audit_of removal_failed)).candidates ≡ (5, abc, 3, 8, verdict.Failed) ∷ [] }
    ensures failed { map blob_columns (rows_of (after 11 removal_failed)).blobs ≡ (abc, status.DeleteFailed, 10, 1000000, 1014400) ∷ [] }
    ensures absent { present (after 11 removal_failed) abc ≡ false }
    ensures barred { collecting (after 12 removal_failed) abc 1014399 ≡ true }
    ensures over { collecting (after 13 removal_failed) abc 1014400 ≡ false }
    ensures may_not_go { eligible (after 13 removal_failed) abc 1014399 ≡ false }
    ensures but_for_the_bar { eligible_but_collecting (after 13 removal_failed) abc 1014399 ≡ true }
    ensures may_go { eligible (after 13 removal_failed) abc 1014400 ≡ true }
    ensures pushed { map blob_columns (rows_of (audit_of removal_failed)).blobs ≡ (abc, status.Idle, 16, 1014400, 0) ∷ [] }
    ensures present { present (audit_of removal_failed) abc ≡ true }
    ensures used { usage (replay (audit_of removal_failed)) library ≡ 3 }
    ensures seen { seen (rows_of (audit_of removal_failed)) ≡ replay (audit_of removal_failed) }
{}

/// A collection that comes before the bar marks nothing, and counts the blob as barred.
pub fn a_removal_that_may_still_come_bars_a_mark()
    ensures may_not_go { eligible (after 13 removal_awaited) abc 1014399 ≡ false }
    ensures but_for_the_bar { eligible_but_collecting (after 13 removal_awaited) abc 1014399 ≡ true }
    ensures blob { map blob_columns (rows_of (audit_of removal_awaited)).blobs ≡ (abc, status.DeleteFailed, 10, 1000000, 1014400) ∷ [] }
    ensures counts { map (λ row. row.barred) (rows_of (audit_of removal_awaited)).jobs ≡ 0 ∷ 1 ∷ [] }
    ensures candidates { map candidate_columns (rows_of (audit_of removal_awaited)).candidates ≡ (5, abc, 3, 8, verdict.Failed) ∷ [] }
{}

/// A removal whose outcome nobody knows bars a push up to its bar. From then on the blob may be marked
/// again: it keeps its bar and isn't present, and is removed.
pub fn a_removal_of_unknown_outcome_is_barred()
    ensures swept { map job_columns (rows_of (after 10 collection_stopped)).jobs ≡ (5, phase.Sweeping, 10, 10) ∷ [] }
    ensures failed { map blob_columns (rows_of (after 12 collection_stopped)).blobs ≡ (abc, status.DeleteFailed, 11, 1000000, 1014400) ∷ [] }
    ensures barred { collecting (after 13 collection_stopped) abc 1014399 ≡ true }
    ensures absent { present (after 13 collection_stopped) abc ≡ false }
    ensures may_go { eligible (after 16 collection_stopped) abc 1014400 ≡ true }
    ensures marked_again { map blob_columns (rows_of (after 17 collection_stopped)).blobs ≡ (abc, status.Delete, 17, 1000000, 1014400) ∷ [] }
    ensures absent_still { present (after 17 collection_stopped) abc ≡ false }
    ensures taken { map blob_columns (rows_of (after 18 collection_stopped)).blobs ≡ (abc, status.Deleting, 18, 1000000, 1021600) ∷ [] }
    ensures candidates { map candidate_columns (rows_of (audit_of collection_stopped)).candidates ≡ (5, abc, 3, 8, verdict.Barred) ∷ (15, abc, 3, 17, verdict.Collected) ∷ [] }
    ensures gone { (replay (audit_of collection_stopped)).stored ≡ [] }
    ensures seen { seen (rows_of (audit_of collection_stopped)) ≡ replay (audit_of collection_stopped) }
{}

/// A push whose content a collection removed before it was associated is raced: the last entry that took the
/// content or removed it is behind its placing.
pub fn a_push_may_be_raced()
    ensures placed { length (after 3 push_raced) ≡ 3 }
    ensures present { present (after 10 push_raced) abc ≡ true }
    ensures absent { present (audit_of push_raced) abc ≡ false }
    ensures not_collecting { collecting (audit_of push_raced) abc 1007200 ≡ false }
    ensures gone { last_kind (λ kind. takes_digest abc kind || collects abc kind) (audit_of push_raced) ≡ last_kind (collects abc) (after 12 push_raced) }
    ensures number { map (λ e. e.number) (take 1 (after 12 push_raced)) ≡ 12 ∷ [] }
    ensures candidates { map candidate_columns (rows_of (audit_of push_raced)).candidates ≡ (7, abc, 3, 10, verdict.Collected) ∷ [] }
    ensures used { usage (replay (audit_of push_raced)) library ≡ 0 }
{}

/// Of five tags the two that were pushed last are kept. Of the others one is immutable, one was put again
/// since the snapshot, and one is dropped.
pub fn retention_gives_each_tag_its_turn()
    ensures snapshot { snapshot_of (replay (after 22 two_of_five_kept)) library ≡ map tag_item (1 ∷ 2 ∷ 3 ∷ 4 ∷ 5 ∷ []) }
    ensures kept { map (keeps keep_two (map tag_item (1 ∷ 2 ∷ 3 ∷ 4 ∷ 5 ∷ [])) 1000010) (map tag_item (1 ∷ 2 ∷ 3 ∷ 4 ∷ 5 ∷ [])) ≡ false ∷ false ∷ false ∷ true ∷ true ∷ [] }
    ensures left_out { left_out (replay (after 22 two_of_five_kept)) library 1000010 ≡ map tag_item (1 ∷ 2 ∷ 3 ∷ []) }
    ensures unretained { unretained (after 29 two_of_five_kept) 21 ≡ map tag_item (1 ∷ 2 ∷ 3 ∷ []) }
    ensures begun { map snap_columns (rows_of (after 23 two_of_five_kept)).snaps ≡ (tag_of 1, 8, turn.Pending) ∷ (tag_of 2, 11, turn.Pending) ∷ (tag_of 3, 14, turn.Pending) ∷ (tag_of 4, 17, turn.Kept) ∷ (tag_of 5, 20, turn.Kept) ∷ [] }
    ensures first { turn_of (replay (after 26 two_of_five_kept)) (tag_item 1) (tag_in (replay (after 26 two_of_five_kept)) repo_a (tag_of 1)) ≡ turn.Immutable }
    ensures second { turn_of (replay (after 27 two_of_five_kept)) (tag_item 2) (tag_in (replay (after 27 two_of_five_kept)) repo_a (tag_of 2)) ≡ turn.Changed }
    ensures third { turn_of (replay (after 29 two_of_five_kept)) (tag_item 3) (tag_in (replay (after 29 two_of_five_kept)) repo_a (tag_of 3)) ≡ turn.Dropped }
    ensures verdicts { map (λ row. row.verdict) (rows_of (audit_of two_of_five_kept)).snaps ≡ turn.Immutable ∷ turn.Changed ∷ turn.Dropped ∷ turn.Kept ∷ turn.Kept ∷ [] }
    ensures tags { map tag_columns (replay (audit_of two_of_five_kept)).tags ≡ (tag_of 1, image, 8, 1000001) ∷ (tag_of 2, image, 26, 1000010) ∷ (tag_of 4, image, 17, 1000004) ∷ (tag_of 5, image, 20, 1000005) ∷ [] }
    ensures artifacts { map artifact_columns (replay (audit_of two_of_five_kept)).artifacts ≡ (image, 1000010, 0) ∷ [] }
    ensures jobs { map job_columns (rows_of (audit_of two_of_five_kept)).jobs ≡ (21, phase.Finished, 29, 31) ∷ [] }
    ensures seen { seen (rows_of (audit_of two_of_five_kept)) ≡ replay (audit_of two_of_five_kept) }
{}

/// An upload keeps how many bytes arrived, and goes with a collection once it is out of the window.
pub fn an_upload_that_is_left_goes()
    ensures grown { (replay (after 4 upload_left)).uploads ≡ record { id = 2; name = repo_a; offset = 3 } ∷ [] }
    ensures row { map upload_columns (rows_of (after 4 upload_left)).uploads ≡ (2, 3, 1000000, 4) ∷ [] }
    ensures ended { (replay (audit_of upload_left)).uploads ≡ [] }
    ensures seen { seen (rows_of (audit_of upload_left)) ≡ replay (audit_of upload_left) }
{}

/// Content that the store has without a row is adopted, is safe for a window, and goes then.
pub fn adopted_content_is_safe_for_a_window()
    ensures adopted { map blob_columns (rows_of (after 8 content_adopted)).blobs ≡ (abc, status.Idle, 7, 1000000, 0) ∷ [] }
    ensures present { present (after 8 content_adopted) abc ≡ true }
    ensures size { size_of (after 8 content_adopted) abc ≡ Some 3 }
    ensures unowned { (replay (after 8 content_adopted)).pairs ≡ [] }
    ensures safe { eligible (after 8 content_adopted) abc 1007199 ≡ false }
    ensures may_go { eligible (after 10 content_adopted) abc 1007200 ≡ true }
    ensures gone { (replay (audit_of content_adopted)).stored ≡ [] }
    ensures seen { seen (rows_of (audit_of content_adopted)) ≡ replay (audit_of content_adopted) }
{}

/// A manifest that is put again is kept: only the moment of its push moves. It names what it refers to, whose
/// window begins anew.
pub fn a_manifest_that_is_put_again_is_kept()
    ensures kept { (replay (audit_of image_put_again)).artifacts ≡ record { name = repo_a; digest = image; size = 400; media = image_type; refs = braces ∷ []; children = []; pushed = 1000007; pulled = 1000005 } ∷ [] }
    ensures version { map (λ row. row.version) (rows_of (audit_of image_put_again)).artifacts ≡ 11 ∷ [] }
    ensures tags { map tag_columns (replay (audit_of image_put_again)).tags ≡ (all, image, 11, 1000007) ∷ (v1, image, 7, 1000000) ∷ [] }
    ensures touched { map blob_columns (rows_of (audit_of image_put_again)).blobs ≡ (braces, status.Idle, 11, 1000007, 0) ∷ (image, status.Idle, 11, 1000007, 0) ∷ [] }
    ensures in_window { idle_pair (audit_of image_put_again) library braces 1007206 ≡ false }
    ensures out_of_window { idle_pair (audit_of image_put_again) library braces 1007207 ≡ true }
    ensures used { usage (replay (audit_of image_put_again)) library ≡ 402 }
    ensures seen { seen (rows_of (audit_of image_put_again)) ≡ replay (audit_of image_put_again) }
{}

/// A manifest is pulled, and stays when its tag goes. A collection of untagged manifests drops it, and takes
/// it and what it named from the project.
pub fn an_untagged_manifest_goes()
    ensures pulled { map artifact_columns (replay (after 8 tag_dropped)).artifacts ≡ (image, 1000000, 1000005) ∷ [] }
    ensures tagged { has_tag (replay (after 8 tag_dropped)) repo_a image ≡ true }
    ensures untagged { has_tag (replay (after 9 tag_dropped)) repo_a image ≡ false }
    ensures kept { map (λ x. x.digest) (replay (after 9 tag_dropped)).artifacts ≡ image ∷ [] }
    ensures needed { needed (replay (after 9 tag_dropped)) library ≡ image ∷ braces ∷ [] }
    ensures used { usage (replay (after 12 tag_dropped)) library ≡ 402 }
    ensures unneeded { needed (replay (after 12 tag_dropped)) library ≡ [] }
    ensures unused { usage (replay (audit_of tag_dropped)) library ≡ 0 }
    ensures marked { map blob_columns (rows_of (audit_of tag_dropped)).blobs ≡ (braces, status.Delete, 15, 1000000, 0) ∷ (image, status.Delete, 15, 1000000, 0) ∷ [] }
    ensures seen { seen (rows_of (audit_of tag_dropped)) ≡ replay (audit_of tag_dropped) }
{}

/// Each entry of the worked logs is legal after those before it.
pub fn the_worked_logs_are_legal()
    ensures mounted { History (audit_of unknown_mounted) }
    ensures limit { History (audit_of limit_passed) }
    ensures layer { History (audit_of (layer_listed_twice 400)) }
    ensures tag { History (audit_of tag_immutable) }
    ensures index { History (audit_of index_dropped_first) }
    ensures collected { History (audit_of blob_out_of_window) }
    ensures named { History (audit_of blob_named_in_window) }
    ensures after_mark { History (audit_of blob_pushed_after_mark) }
    ensures failed { History (audit_of removal_failed) }
    ensures awaited { History (audit_of removal_awaited) }
    ensures stopped { History (audit_of collection_stopped) }
    ensures raced { History (audit_of push_raced) }
    ensures retained { History (audit_of two_of_five_kept) }
    ensures shortly_retained { History (audit_of two_of_four_kept) }
    ensures uploaded { History (audit_of upload_left) }
    ensures adopted { History (audit_of content_adopted) }
    ensures untagged { History (audit_of tag_dropped) }
    ensures put_again { History (audit_of image_put_again) }
    ensures tagged { History (audit_of tag_kept) }
{}

/// The changes of each entry's batch make its effect, entry by entry. Retention is shown on a shorter log, and
/// by the rows that its entries change.
pub fn the_batches_of_the_worked_logs_make_their_rows()
    ensures mounted { BatchesMakeRows (audit_of unknown_mounted) }
    ensures limit { BatchesMakeRows (audit_of limit_passed) }
    ensures tag { BatchesMakeRows (audit_of tag_immutable) }
    ensures index { BatchesMakeRows (audit_of index_dropped_first) }
    ensures collected { BatchesMakeRows (audit_of blob_out_of_window) }
    ensures named { BatchesMakeRows (audit_of blob_named_in_window) }
    ensures after_mark { BatchesMakeRows (audit_of blob_pushed_after_mark) }
    ensures failed { BatchesMakeRows (audit_of removal_failed) }
    ensures awaited { BatchesMakeRows (audit_of removal_awaited) }
    ensures stopped { BatchesMakeRows (audit_of collection_stopped) }
    ensures raced { BatchesMakeRows (audit_of push_raced) }
    ensures uploaded { BatchesMakeRows (audit_of upload_left) }
    ensures adopted { BatchesMakeRows (audit_of content_adopted) }
    ensures put_again { BatchesMakeRows (audit_of image_put_again) }
    ensures untagged { BatchesMakeRows (audit_of tag_dropped) }
    ensures begun_by_batches { map job_columns (rows_by_batches (after 10 two_of_four_kept)).jobs ≡ (8, phase.Turning, 9, 10) ∷ [] }
    ensures begun { map job_columns (rows_of (after 10 two_of_four_kept)).jobs ≡ (8, phase.Turning, 9, 10) ∷ [] }
    ensures snaps_by_batches { map snap_columns (rows_by_batches (audit_of two_of_four_kept)).snaps ≡ (tag_of 1, 4, turn.Immutable) ∷ (tag_of 2, 5, turn.Dropped) ∷ (tag_of 3, 6, turn.Kept) ∷ (tag_of 4, 7, turn.Kept) ∷ [] }
    ensures snaps { map snap_columns (rows_of (audit_of two_of_four_kept)).snaps ≡ (tag_of 1, 4, turn.Immutable) ∷ (tag_of 2, 5, turn.Dropped) ∷ (tag_of 3, 6, turn.Kept) ∷ (tag_of 4, 7, turn.Kept) ∷ [] }
    ensures tags_by_batches { map (λ row. row.tag) (rows_by_batches (audit_of two_of_four_kept)).tags ≡ map tag_of (1 ∷ 3 ∷ 4 ∷ []) }
    ensures tags { map (λ row. row.tag) (rows_of (audit_of two_of_four_kept)).tags ≡ map tag_of (1 ∷ 3 ∷ 4 ∷ []) }
    ensures jobs_by_batches { map job_columns (rows_by_batches (audit_of two_of_four_kept)).jobs ≡ (8, phase.Finished, 9, 13) ∷ [] }
    ensures jobs { map job_columns (rows_of (audit_of two_of_four_kept)).jobs ≡ (8, phase.Finished, 9, 13) ∷ [] }
{}

/// Which entries move a digest: those that store it or name it, that mark it, take it or remove it, and that
/// leave it after a removal that failed or came too late. One that leaves it because it was touched doesn't.
pub fn which_entries_move_a_digest()
    ensures collected { map (λ e. e.number) (filter (λ e. moves abc e.kind) (audit_of blob_out_of_window)) ≡ 14 ∷ 13 ∷ 12 ∷ 4 ∷ [] }
    ensures named { map (λ e. e.number) (filter (λ e. moves abc e.kind) (audit_of blob_named_in_window)) ≡ 5 ∷ 4 ∷ [] }
    ensures touched { map (λ e. e.number) (filter (λ e. moves abc e.kind) (audit_of blob_pushed_after_mark)) ≡ 19 ∷ 11 ∷ 8 ∷ 4 ∷ [] }
    ensures failed { map (λ e. e.number) (filter (λ e. moves abc e.kind) (audit_of removal_failed)) ≡ 16 ∷ 10 ∷ 9 ∷ 8 ∷ 4 ∷ [] }
    ensures barred { map (λ e. e.number) (filter (λ e. moves abc e.kind) (audit_of collection_stopped)) ≡ 19 ∷ 18 ∷ 17 ∷ 11 ∷ 9 ∷ 8 ∷ 4 ∷ [] }
    ensures adopted { map (λ e. e.number) (filter (λ e. moves abc e.kind) (audit_of content_adopted)) ≡ 13 ∷ 12 ∷ 11 ∷ 7 ∷ [] }
{}

/// The first entry makes `library` without a limit. Entries are numbered, and moments never fall.
pub fn audits_begin_with_the_library_and_are_numbered()
    ensures first { Legal [] (entry 1 0 (ProjectMade library (negsuc 0))) }
    ensures other_project { ¬ (Legal [] (entry 1 0 (ProjectMade other (negsuc 0)))) }
    ensures with_limit { ¬ (Legal [] (entry 1 0 (ProjectMade library (pos 3)))) }
    ensures other_kind { ¬ (Legal [] (entry 1 0 (JobQueued (Collect false)))) }
    ensures misnumbered { ¬ (Legal (after 1 blob_mounted) (entry 3 0 (ProjectMade other (negsuc 0)))) }
    ensures in_the_past { ¬ (Legal (after 4 blob_out_of_window) (entry 5 999999 (JobQueued (Collect false)))) }
{}

/// A project is made once. It is there before it gets a limit or rules, at most fifteen of each sort.
pub fn which_entries_of_projects_are_legal()
    ensures made { MayFollow 1 blob_mounted 0 (ProjectMade other (negsuc 0)) }
    ensures made_again { MayNotFollow 2 blob_mounted 0 (ProjectMade other (pos 3)) }
    ensures limit_set { MayFollow 10 limit_passed 0 (LimitSet library (pos 1)) }
    ensures limit_of_unknown { MayNotFollow 10 limit_passed 0 (LimitSet other (pos 1)) }
    ensures rules_set { MayFollow 1 two_of_five_kept 0 (RulesSet library keep_two) }
    ensures rules_of_unknown { MayNotFollow 1 two_of_five_kept 0 (RulesSet other keep_two) }
    ensures fifteen { MayFollow 1 two_of_five_kept 0 (RulesSet library fifteen_rules) }
    ensures sixteen { MayNotFollow 1 two_of_five_kept 0 (RulesSet library sixteen_rules) }
{}

/// An upload begins in a project that is there. It doesn't shrink, and has at most 2^36 bytes. A client ends
/// it at any time, and a collection once it is out of the window.
pub fn which_entries_of_uploads_are_legal()
    ensures begun { MayFollow 1 upload_left 1000000 (UploadBegun repo_a) }
    ensures begun_in_unknown { MayNotFollow 1 upload_left 1000000 (UploadBegun repo_x) }
    ensures grown { MayFollow 3 upload_left 1000000 (UploadGrown 2 3) }
    ensures shrunk { MayNotFollow 4 upload_left 1000000 (UploadGrown 2 2) }
    ensures full { MayFollow 4 upload_left 1000000 (UploadGrown 2 68719476736) }
    ensures too_large { MayNotFollow 4 upload_left 1000000 (UploadGrown 2 68719476737) }
    ensures grown_unknown { MayNotFollow 4 upload_left 1000000 (UploadGrown 3 3) }
    ensures ended { MayFollow 4 upload_left 1000000 (UploadEnded 0 2) }
    ensures ended_again { MayNotFollow 3 blob_out_of_window 1000000 (UploadEnded 0 2) }
    ensures expired { MayFollow 7 upload_left 1007200 (UploadEnded 5 2) }
    ensures young { MayNotFollow 7 upload_left 1007199 (UploadEnded 5 2) }
    ensures without_job { MayNotFollow 4 upload_left 1007200 (UploadEnded 5 2) }
{}

/// Content comes to a project that is there, within its limit, with the size that it has where it is present,
/// and not while a removal may still take effect. It is touched where the project has it. A collection takes
/// it from the project out of the window where no manifest needs it, and adopts what has no row.
pub fn which_entries_of_content_are_legal()
    ensures associated { MayFollow 3 blob_out_of_window 1000000 (Associated library abc 3) }
    ensures to_unknown { MayNotFollow 3 blob_out_of_window 1000000 (Associated other abc 3) }
    ensures over_limit { MayNotFollow 6 limit_reached 0 (Associated library braces 2) }
    ensures adds_nothing { MayFollow 9 limit_reached 0 (Associated library abc 3) }
    ensures other_size { MayNotFollow 4 blob_out_of_window 1000000 (Associated library abc 4) }
    ensures collecting { MayNotFollow 13 removal_failed 1014399 (Associated library abc 3) }
    ensures at_the_bar { MayFollow 15 removal_failed 1014400 (Associated library abc 3) }
    ensures touched { MayFollow 4 blob_named_in_window 1000001 (Touched library abc) }
    ensures touched_unknown { MayNotFollow 3 blob_named_in_window 1000001 (Touched library abc) }
    ensures unassociated { MayFollow 10 blob_out_of_window 1007200 (Unassociated 9 library abc) }
    ensures young { MayNotFollow 6 blob_out_of_window 1007199 (Unassociated 5 library abc) }
    ensures by_client { MayNotFollow 10 blob_out_of_window 1007200 (Unassociated 0 library abc) }
    ensures needed { MayNotFollow 11 tag_dropped 1007200 (Unassociated 10 library braces) }
    ensures adopted { MayFollow 6 content_adopted 1000000 (Adopted 4 abc 3) }
    ensures stored { MayNotFollow 7 content_adopted 1000000 (Adopted 4 abc 3) }
{}

/// A manifest is put where the project has what it refers to and its repository the manifests that it lists,
/// and under a tag that it may have. It is dropped where no index lists it and no tag of it is immutable, and
/// by a collection where it has no tag and is out of the window. A tag that is dropped is mutable, and a
/// manifest that is pulled is there.
pub fn which_entries_of_manifests_are_legal()
    ensures put { MayFollow 16 blob_mounted 0 (image_entry repo_a image (braces ∷ abc ∷ []) v1) }
    ensures unknown_reference { MayNotFollow 13 blob_mounted 0 (image_entry repo_a image (braces ∷ abc ∷ []) v1) }
    ensures listed { MayFollow 9 index_dropped_first 0 (index_entry repo_a index (image ∷ []) all) }
    ensures unknown_child { MayNotFollow 6 index_dropped_first 0 (index_entry repo_a index (image ∷ []) all) }
    ensures over_limit { MayNotFollow 12 limit_passed 0 (image_entry repo_a image (abc ∷ []) v1) }
    ensures same_again { MayFollow 10 tag_immutable 0 (image_entry repo_a image (braces ∷ []) v1) }
    ensures immutable_moved { MayNotFollow 15 tag_immutable 0 (image_entry repo_a other_image (braces ∷ abc ∷ []) v1) }
    ensures dropped { MayFollow 10 index_dropped_first 0 (ArtifactDropped 0 repo_a index) }
    ensures with_parent { MayNotFollow 10 index_dropped_first 0 (ArtifactDropped 0 repo_a image) }
    ensures immutable_dropped { MayNotFollow 16 tag_immutable 0 (ArtifactDropped 0 repo_a image) }
    ensures untagged { MayFollow 11 tag_dropped 1007200 (ArtifactDropped 10 repo_a image) }
    ensures young { MayNotFollow 11 tag_dropped 1007199 (ArtifactDropped 10 repo_a image) }
    ensures tagged { MayNotFollow 9 tag_kept 1007200 (ArtifactDropped 8 repo_a image) }
    ensures tag_dropped { MayFollow 8 tag_dropped 1000005 (TagDropped repo_a v1) }
    ensures tag_gone { MayNotFollow 9 tag_dropped 1000005 (TagDropped repo_a v1) }
    ensures tag_immutable { MayNotFollow 16 tag_immutable 0 (TagDropped repo_a v1) }
    ensures pulled { MayFollow 7 tag_dropped 1000005 (Pulled repo_a image) }
    ensures pulled_unknown { MayNotFollow 12 tag_dropped 1007200 (Pulled repo_a image) }
{}

/// One job of a kind and project is unfinished at a time, and it may be claimed until it is finished.
pub fn which_entries_of_jobs_are_legal()
    ensures queued { MayFollow 4 blob_out_of_window 1007199 (JobQueued (Collect false)) }
    ensures unfinished { MayNotFollow 5 blob_out_of_window 1007199 (JobQueued (Collect true)) }
    ensures beside { MayFollow 5 blob_out_of_window 1007199 (JobQueued (Retain library)) }
    ensures for_unknown { MayNotFollow 5 blob_out_of_window 1007199 (JobQueued (Retain other)) }
    ensures retain_unfinished { MayNotFollow 23 two_of_five_kept 1000010 (JobQueued (Retain library)) }
    ensures claimed { MayFollow 5 blob_out_of_window 1007199 (JobClaimed 5) }
    ensures claimed_again { MayFollow 9 collection_stopped 1007300 (JobClaimed 5) }
    ensures finished { MayNotFollow 8 blob_out_of_window 1007199 (JobClaimed 5) }
    ensures unknown { MayNotFollow 5 blob_out_of_window 1007199 (JobClaimed 4) }
{}

/// A collection marks exactly what may go, once, and takes what nothing moved since its mark.
pub fn which_marks_and_takings_are_legal()
    ensures marked { MayFollow 11 blob_out_of_window 1007200 (GcMarked 9 (abc ∷ []) [] (Some abc) true) }
    ensures left_out { MayNotFollow 11 blob_out_of_window 1007200 (GcMarked 9 [] [] (Some abc) true) }
    ensures owned { MayNotFollow 6 blob_out_of_window 1007199 (GcMarked 5 (abc ∷ []) [] (Some abc) true) }
    ensures more_to_come { MayNotFollow 11 blob_out_of_window 1007200 (GcMarked 9 (abc ∷ []) [] (Some abc) false) }
    ensures marked_to_the_end { MayNotFollow 12 blob_out_of_window 1007200 (GcMarked 9 [] [] (Some abc) true) }
    ensures barred { MayFollow 13 removal_awaited 1014399 (GcMarked 12 [] (abc ∷ []) (Some abc) true) }
    ensures barred_left_out { MayNotFollow 13 removal_awaited 1014399 (GcMarked 12 [] [] (Some abc) true) }
    ensures barred_marked { MayNotFollow 13 removal_awaited 1014399 (GcMarked 12 (abc ∷ []) [] (Some abc) true) }
    ensures taken { MayFollow 12 blob_out_of_window 1007200 (Taking 9 abc) }
    ensures unmarked { MayNotFollow 11 blob_out_of_window 1007200 (Taking 9 abc) }
    ensures pushed_since { MayNotFollow 11 blob_pushed_after_mark 1007200 (Taking 5 abc) }
    ensures taken_twice { MayNotFollow 13 blob_out_of_window 1007200 (Taking 9 abc) }
{}

/// Content that was taken is collected, or its removal failed. The removal came too late where another claim
/// or the bar did. A candidate that was moved since its mark was touched. A collection is done when each
/// candidate has its verdict.
pub fn which_verdicts_are_legal()
    ensures collected { MayFollow 13 blob_out_of_window 1007200 (Collected 9 abc) }
    ensures not_taken { MayNotFollow 12 blob_out_of_window 1007200 (Collected 9 abc) }
    ensures after_failure { MayNotFollow 10 removal_failed 1007200 (Collected 5 abc) }
    ensures touched { MayFollow 11 blob_pushed_after_mark 1007200 (GcSkipped 5 abc verdict.Touched) }
    ensures untouched { MayNotFollow 12 blob_out_of_window 1007200 (GcSkipped 9 abc verdict.Touched) }
    ensures failed { MayFollow 9 removal_failed 1007200 (GcSkipped 5 abc verdict.Failed) }
    ensures failed_untaken { MayNotFollow 8 removal_failed 1007200 (GcSkipped 5 abc verdict.Failed) }
    ensures barred_by_claim { MayFollow 10 collection_stopped 1007300 (GcSkipped 5 abc verdict.Barred) }
    ensures barred_by_time { MayFollow 9 collection_stopped 1014400 (GcSkipped 5 abc verdict.Barred) }
    ensures not_barred { MayNotFollow 9 collection_stopped 1014399 (GcSkipped 5 abc verdict.Barred) }
    ensures pending { MayNotFollow 9 collection_stopped 1014400 (GcSkipped 5 abc verdict.Pending) }
    ensures done { MayFollow 14 blob_out_of_window 1007200 (GcDone 9) }
    ensures undecided { MayNotFollow 13 blob_out_of_window 1007200 (GcDone 9) }
    ensures not_marked { MayNotFollow 11 blob_out_of_window 1007200 (GcDone 9) }
{}

/// A retention job begins once. Each tag that the rules leave out has one turn, with the verdict that it has
/// then, and when all had theirs the job is done.
pub fn which_entries_of_retention_are_legal()
    ensures begun { MayFollow 22 two_of_five_kept 1000010 (RetainBegun 21) }
    ensures unclaimed { MayNotFollow 21 two_of_five_kept 1000010 (RetainBegun 21) }
    ensures begun_again { MayNotFollow 23 two_of_five_kept 1000010 (RetainBegun 21) }
    ensures immutable { MayFollow 26 two_of_five_kept 1000010 (RetainTurn 21 repo_a (tag_of 1) turn.Immutable) }
    ensures immutable_dropped { MayNotFollow 26 two_of_five_kept 1000010 (RetainTurn 21 repo_a (tag_of 1) turn.Dropped) }
    ensures second_turn { MayNotFollow 27 two_of_five_kept 1000010 (RetainTurn 21 repo_a (tag_of 1) turn.Immutable) }
    ensures changed { MayFollow 27 two_of_five_kept 1000010 (RetainTurn 21 repo_a (tag_of 2) turn.Changed) }
    ensures put_again_dropped { MayNotFollow 27 two_of_five_kept 1000010 (RetainTurn 21 repo_a (tag_of 2) turn.Dropped) }
    ensures dropped { MayFollow 29 two_of_five_kept 1000010 (RetainTurn 21 repo_a (tag_of 3) turn.Dropped) }
    ensures kept_dropped { MayNotFollow 29 two_of_five_kept 1000010 (RetainTurn 21 repo_a (tag_of 4) turn.Dropped) }
    ensures done { MayFollow 30 two_of_five_kept 1000010 (RetainDone 21) }
    ensures turn_left_out { MayNotFollow 29 two_of_five_kept 1000010 (RetainDone 21) }
    ensures not_begun { MayNotFollow 22 two_of_five_kept 1000010 (RetainDone 21) }
{}
