//! The id and the expiry of a path segment, and the check that it is accepted.
//!
//! To the layer above, the id and the expiry are functions of the segment alone, and a check
//! returns exactly the first refusal, also that of several segments (`check_all`). The caller
//! supplies a `Verifier`, which decides whether a signature is good.
#![tactic(auto)]

mod checking;
mod digest;
mod error;
mod expiring;
mod keyed;
mod laws;
mod verifier;

pub use checking::{check, check_all};
pub use digest::seg_id;
pub use error::CheckError;
pub use expiring::expiry;
pub use keyed::{Keyed, MOST_KEY, keyed_signature};
pub use laws::{
    check_refusals_are_exact, digests_have_32_bytes, keyed_verdicts_are_exact,
    segments_expire_with_a_hop,
};
pub use verifier::{TrustAll, Verifier};
