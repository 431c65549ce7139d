//! What holds of each run of the cache, whatever happens.
#![tactic(auto)]

mod laws;

pub use laws::{
    aims_are_named, bodies_stay_measured, chains_of_waits_end, columns_are_filters,
    deliveries_come_once, denials_keep_soundness, dooms_are_a_barrier, endings_are_known,
    evictions_come_last, exchanges_are_asked_anew, exchanges_are_somebodys,
    faultless_entries_are_owed, few_are_live, few_are_open, few_give_way, fronts_begin,
    given_bytes_are_there, groups_grow, lists_are_in_order, losses_are_held, numbers_are_given_out,
    numbers_stay_small, one_body_is_read, one_exchange_brings_it, one_has_the_turn,
    one_head_is_shown, one_is_current, openings_are_counted, other_keys_stay, owed_is_owed,
    owners_stay_known, parts_have_bytes, passed_wait_for_current, places_are_known,
    readers_are_bound, readers_are_served, requests_stay_within_limits, runs_are_sound,
    runs_read_whole, some_go_on, stores_begin_again, stores_begin_sound, stores_keep_what_came,
    survivors_go_on, truncated_is_a_prefix, what_is_not_spoken_of_stays, who_leaves_goes,
    who_polls_is_answered, who_rests_rests_on, whole_is_whole, writers_are_alone,
};
