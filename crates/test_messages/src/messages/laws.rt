//! The laws are functions that do nothing.

use seg_check::{
    check_refusals_are_exact, digests_have_32_bytes, keyed_verdicts_are_exact,
    segments_expire_with_a_hop,
};

#[test]
fn laws_return(_rt: HostRuntime) {
    check_refusals_are_exact();
    digests_have_32_bytes();
    keyed_verdicts_are_exact();
    segments_expire_with_a_hop();
}
