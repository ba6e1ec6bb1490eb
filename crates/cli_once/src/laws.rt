//! Laws of the replies of a session. Each law is the contract of a function that does nothing.

ghost use Rattle.cli_once.specs.SessionLaws.{OnlyReplies, WholeSession};

use std::io::Read;

/// Where memory is not refused, messages have one list of replies.
pub fn only_replies()
    ensures { OnlyReplies }
{}

/// Where memory is not refused, a session of a reader that ends well has written the replies to its
/// input, and nothing else.
pub fn whole_session<R: Read>()
    ensures { WholeSession R.remaining }
{}
