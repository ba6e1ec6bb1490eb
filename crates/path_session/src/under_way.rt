//! Commands that a service has taken and not answered yet.

use hub_claims::{HubClaim, HubName};
use reply_codes::Refusal;

/// A command that a service over a hub has taken and not answered yet, or a message that will be
/// refused.
#[derive(Drop)]
pub struct HubUnderWay<N: HubName> {
    /// The moment at which the segments of a registration were checked, in half seconds since 1970.
    /// It is `None` where the clock was not asked.
    pub(crate) moment: Option<u64>,
    /// The claim on the answer to the command, or why its message is refused.
    pub(crate) handed: Result<HubClaim<N>, Refusal>,
}
