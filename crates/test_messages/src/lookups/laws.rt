//! The laws are functions that do nothing.

use seg_lookup::{
    answers_are_complete, answers_are_short, answers_are_wanted, answers_rise,
    queries_start_at_a_core, rosters_have_their_cores,
};

#[test]
fn laws_return(_rt: HostRuntime) {
    rosters_have_their_cores();
    queries_start_at_a_core();
    answers_are_short();
    answers_are_wanted();
    answers_rise();
    answers_are_complete();
}
