//! ISD-AS numbers of SCION: an isolation domain (ISD) and an autonomous system (AS) in it, as 64
//! bits and as a text. The numbers and the canonical texts are those of
//! draft-dekater-scion-controlplane; the grammar that is read is more lenient.
//!
//! To the layer above, `parse` reads the grammar of the texts and nothing else, and `Display`
//! writes the one canonical text, which `parse` reads back. `IsdAs::to_u64` and `IsdAs::from_u64`
//! are inverse to each other, and `covers` matches a pattern whose parts may be wildcards.
#![tactic(auto)]

mod error;
mod number;
mod reading;
mod wildcard;
mod writing;

pub use error::IaError;
pub use number::IsdAs;
pub use reading::parse;
pub use wildcard::covers;
