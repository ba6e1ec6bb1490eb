ghost use Rattle.std.specs.Prelude.{Some};
ghost use Rattle.isd_as.specs.IaError.{message_of};

use std::error::Error;
use std::fmt;

/// Why a text is not an ISD-AS number.
#[derive(Clone, Copy, Debug, PartialEq, Eq)]
pub enum IaError {
    /// The text is outside the grammar.
    BadText = 1,
    /// The text is in the grammar, but its ISD is above 65,535 or its decimal AS above
    /// 4,294,967,295.
    TooLarge = 2,
}

impl fmt::Display for IaError {
    ghost output = { λ e. Some (message_of e) };

    fn fmt<W: fmt::Write>(&self, f: &mut fmt::Formatter<W>) -> fmt::Result {
        f.write_str(match self {
            IaError::BadText => "not an ISD-AS text",
            IaError::TooLarge => "a number of the ISD-AS text is too large",
        })
    }
}

impl Error for IaError {}
