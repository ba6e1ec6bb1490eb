//! Whether a segment is accepted, and whether the segments of a registration are.

ghost use Rattle.std.specs.Prelude.{◌≡◌, ◌↔◌, [], IsOk};
ghost use Rattle.std.specs.Result.{result_err};
ghost use Rattle.seg_core.specs.Encoding.{IsSegment};
ghost use Rattle.seg_check.specs.Checking.{IsAccepted, first_bad, check_refusal, first_refusal};

use crate::error::CheckError;
use crate::expiring::expiry;
use crate::verifier::Verifier;
use seg_core::{SegType, Segment};

/// The most pieces that a signature covers: the segment's information, and two for each of 63
/// earlier entries.
const MOST_PIECES: usize = 127;

/// Checks that the signature of each entry is good and that the segment expires later than `now`,
/// which is in half seconds since 1970. The error is the first check that fails, entry by entry and
/// then the expiry. The call takes no memory.
#[tactic(auto, unfolding(crate::specs::Checking::check_refusal))]
pub fn check<V: Verifier>(segment: &Segment, verifier: &V, now: u64) -> Result<(), CheckError>
    ensures refusal { result_err result ≡ check_refusal (V.verifies verifier.now) now segment.now }
    ensures accepted { IsOk result ↔ IsAccepted (V.verifies verifier.now) now segment.now }
{
    if let Some(at) = first_bad(segment, verifier) {
        return Err(CheckError::BadSignature(at));
    }
    if expiry(segment) <= now {
        return Err(CheckError::Expired);
    }
    Ok(())
}

/// Checks segments in their order, at a moment in half seconds since 1970. The error is the refusal
/// of the first segment that is not accepted.
pub fn check_all<V: Verifier>(
    segments: &[(SegType, Segment)],
    verifier: &V,
    now: u64,
) -> Result<(), CheckError>
    ensures { result_err result ≡ first_refusal (V.verifies verifier.now) now segments.now }
{
    for row in segments {
        check(&row.1, verifier, now)?;
    }
    Ok(())
}

/// The index of the first entry whose signature is not good, counted from 0.
fn first_bad<V: Verifier>(segment: &Segment, verifier: &V) -> Option<usize>
    ensures first { result ≡ first_bad (V.verifies verifier.now) segment.now.info segment.now.entries }
    ensures whole { IsSegment segment.now }
{
    let entries = segment.entries();
    let mut pieces: [&[u8]; MOST_PIECES] = [segment.segment_info(); MOST_PIECES];
    for at in 0..entries.len() {
        let entry = &entries[at];
        if !verifier.verify(
            entry.ia,
            entry.signed(),
            entry.signature(),
            &pieces[..2 * at + 1],
        ) {
            return Some(at);
        }
        if at + 1 < entries.len() {
            pieces[2 * at + 1] = entry.signed();
            pieces[2 * at + 2] = entry.signature();
        }
    }
    None
}
