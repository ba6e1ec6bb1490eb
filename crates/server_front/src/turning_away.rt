//! Peers for which there is no seat.

ghost use Rattle.std.specs.Prelude.{◌≡◌};
ghost use Rattle.reply_codes.specs.Codes.{reader_code};

use paced_stream::AcceptedStream;
use reply_codes::Refusal;
use session_core::Code;

/// Refuses a peer where no seat is free.
pub fn turn_away(stream: &AcceptedStream) {
    stream.refuse(no_seat());
}

/// The code by which a peer without a seat is refused.
fn no_seat() -> Code
    ensures { result.0 ≡ reader_code }
{
    Refusal::NoReader.code()
}
