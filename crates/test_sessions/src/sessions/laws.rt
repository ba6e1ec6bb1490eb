//! The laws are functions that do nothing.

use session_core::laws::{any_cut, lasting_fault, one_decoding, some_decoding};

#[test]
fn laws_return(_rt: HostRuntime) {
    one_decoding();
    some_decoding();
    lasting_fault();
    any_cut();
}
