//! The codes of other crates' refusals.

ghost use Rattle.std.specs.Prelude.{◌≡◌};
ghost use Rattle.reply_codes.specs.Codes.{wire_code, seg_code, check_code, lookup_code, submit_code};

use group_core::SubmitError;
use pw_wire::WireError;
use seg_check::CheckError;
use seg_core::SegError;
use seg_lookup::LookupError;

/// The code where memory was refused.
pub(crate) const NO_MEMORY: u8 = 0x01;

/// The code of a message that is refused when it is read.
pub(crate) fn seg_code(error: SegError) -> u8
    ensures { result ≡ seg_code error }
{
    match error {
        SegError::NoMemory => NO_MEMORY,
        SegError::Wire(error) => wire_code(error),
        SegError::KindOfField => 0x22,
        SegError::RepeatedMessage => 0x23,
        SegError::MissingField => 0x24,
        SegError::Range => 0x25,
        SegError::Chain => 0x26,
        SegError::Loop => 0x27,
        SegError::Entries => 0x28,
        SegError::BadType => 0x29,
        SegError::TooLarge => 0x2a,
    }
}

fn wire_code(error: WireError) -> u8
    ensures { result ≡ wire_code error }
{
    match error {
        WireError::Truncated => 0x11,
        WireError::LongVarint => 0x12,
        WireError::BadField => 0x13,
        WireError::GroupWire => 0x14,
        WireError::BadWire => 0x15,
    }
}

/// The code of why a segment is not accepted.
pub(crate) fn check_code(error: CheckError) -> u8
    ensures { result ≡ check_code error }
{
    match error {
        CheckError::BadSignature(_) => 0x31,
        CheckError::Expired => 0x32,
    }
}

/// The code of a lookup that asks for no segments.
pub(crate) fn lookup_code(error: LookupError) -> u8
    ensures { result ≡ lookup_code error }
{
    match error {
        LookupError::NullDestination => 0x41,
        LookupError::IsdOnlyWildcard => 0x42,
        LookupError::NoCore => 0x43,
    }
}

/// The code of why a command is not accepted.
pub(crate) fn submit_code(error: SubmitError) -> u8
    ensures { result ≡ submit_code error }
{
    match error {
        SubmitError::Busy => 0x51,
        SubmitError::Full => 0x52,
        SubmitError::TooLarge => 0x53,
        SubmitError::Stopped => 0x54,
        SubmitError::Exhausted => 0x55,
        SubmitError::NoMemory => NO_MEMORY,
        SubmitError::OldStore => 0x57,
    }
}
