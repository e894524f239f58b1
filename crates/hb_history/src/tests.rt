//! Calls of the laws.

use crate::artifacts::{children_of_indexes_are_there, tags_name_artifacts};
use crate::grace::what_is_named_has_its_grace;
use crate::presence::{
    a_touch_meets_an_idle_row, the_row_tells_what_is_present, what_a_project_has_is_idle,
    what_a_project_has_is_present,
};
use crate::soundness::{
    content_that_is_held_may_be_named, sizes_of_artifacts_are_those_stored,
    sizes_of_pairs_are_those_stored, whole_registries_are_sound,
};
use crate::usage::{additions_stay_within_the_limit, what_is_used_is_the_recount};
use crate::versions::versions_never_come_back;
use std::test::Fail;

// These do nothing: what they say is proved.
#[test]
fn laws(_rt: HostRuntime) -> Result<(), Fail> {
    what_is_used_is_the_recount();
    additions_stay_within_the_limit();
    the_row_tells_what_is_present();
    what_a_project_has_is_present();
    what_a_project_has_is_idle();
    a_touch_meets_an_idle_row();
    versions_never_come_back();
    what_is_named_has_its_grace();
    sizes_of_pairs_are_those_stored();
    sizes_of_artifacts_are_those_stored();
    whole_registries_are_sound();
    content_that_is_held_may_be_named();
    children_of_indexes_are_there();
    tags_name_artifacts();
    Ok(())
}
