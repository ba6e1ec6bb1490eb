//! The id of a segment.

ghost use Rattle.std.specs.Prelude.{◌≡◌};
ghost use Rattle.seg_core.specs.Digest.{segment_digest};

use seg_core::Segment;

/// The id of a segment, by which two segments of the same path have the same key: SHA-256 (FIPS
/// 180-4) over 12 bytes for each entry in order, its ISD-AS, ingress and egress, big-endian. The
/// segment has kept the digest since it was read.
pub fn seg_id(segment: &Segment) -> [u8; 32]
    ensures { result ≡ segment_digest segment.now }
{
    *segment.digest()
}
