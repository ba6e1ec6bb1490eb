ghost use Rattle.std.specs.Prelude.{◌≡◌, ℕ, ◌+◌, ◌*◌, ◌^◌, ◌<◌, ◌↔◌, IsTrue, IfOk, IfSome, IfNone, IsErrOf};
ghost use Rattle.std.specs.Str.Parse.{IsNumeral};
ghost use Rattle.isd_as.specs.declared.number.IsdAs.{IsdAs};
ghost use Rattle.isd_as.specs.Reading.{ReadsIsdAs, ReadsAsNumber};
ghost use Rattle.isd_as.specs.Text.{AreHexGroups, IsHexGroup, IsInGrammar, IsIsdAsText, IsTooLargeText, isd_as_text};

use crate::error::IaError;
use crate::number::IsdAs;

/// Parses the text of an ISD-AS number.
///
/// The grammar is lenient: one or more decimal digits, a dash, and then either one or more decimal
/// digits or three groups of 1 to 4 hexadecimal digits of either case, joined by colons. A run of
/// decimal digits may be of any length, and leading zeros do not matter.
pub fn parse(text: &str) -> Result<IsdAs, IaError>
    ensures ok { IfOk result (IsIsdAsText text.now) }
    ensures only { (ia : IsdAs) → IsIsdAsText text.now ia → result ≡ Ok ia }
    ensures canonical { (ia : IsdAs) → ia.isd < 2 ^ 16 → text.now ≡ isd_as_text ia → result ≡ Ok ia }

    // The grammar is checked first: a text outside the grammar is `BadText`, however large its
    // numbers are.
    ensures bad_text { IsErrOf result IaError.BadText ↔ (¬ IsInGrammar text.now) }
    ensures too_large { IsErrOf result IaError.TooLarge ↔ IsTooLargeText text.now }
{
    read(text)
}

fn read(text: &str) -> Result<IsdAs, IaError>
    ensures { ReadsIsdAs text.now result }
{
    let Some((front, back)) = text.split_once('-') else {
        return Err(IaError::BadText);
    };
    if !is_decimal(front) {
        return Err(IaError::BadText);
    }
    let asn = read_as(back)?;
    match front.parse::<u16>() {
        Ok(isd) => Ok(IsdAs::new(isd, asn)),
        Err(_) => Err(IaError::TooLarge),
    }
}

// The AS after the dash.
fn read_as(text: &str) -> Result<u64, IaError>
    ensures reads { ReadsAsNumber text.now result }
    ensures range { IfOk result (λ n. n < 2 ^ 48) }
{
    if is_decimal(text) {
        return match text.parse::<u32>() {
            Ok(asn) => Ok(u64::from(asn)),
            Err(_) => Err(IaError::TooLarge),
        };
    }
    match hex_groups(text) {
        Some((high, middle, low)) => Ok(joined(high, middle, low)),
        None => Err(IaError::BadText),
    }
}

// Three groups of hexadecimal digits, the highest first.
fn hex_groups(text: &str) -> Option<(u16, u16, u16)>
    ensures found { IfSome result (λ groups. AreHexGroups text.now groups.0 groups.1 groups.2) }
    ensures none { IfNone result ((high middle low : ℕ) → ¬ AreHexGroups text.now high middle low) }
{
    let (first, rest) = text.split_once(':')?;
    let (second, third) = rest.split_once(':')?;
    Some((hex_group(first)?, hex_group(second)?, hex_group(third)?))
}

fn hex_group(text: &str) -> Option<u16>
    ensures found { IfSome result (IsHexGroup text.now) }
    ensures none { IfNone result ((n : ℕ) → ¬ IsHexGroup text.now n) }
{
    if text.len() <= 4 && text.bytes().all(|b| b.is_ascii_hexdigit()) {
        u16::from_str_radix(text, 16).ok()
    } else {
        None
    }
}

fn is_decimal(text: &str) -> bool
    ensures { IsTrue result ↔ IsNumeral 10 text.now }
{
    !text.is_empty() && text.bytes().all(|b| b.is_ascii_digit())
}

fn joined(high: u16, middle: u16, low: u16) -> u64
    ensures { result ≡ high * 2 ^ 32 + middle * 2 ^ 16 + low }
{
    (u64::from(high) << 32) + (u64::from(middle) << 16) + u64::from(low)
}
