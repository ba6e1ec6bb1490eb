//! The digest of a path.

ghost use Rattle.std.specs.Prelude.{◌≡◌};
ghost use Rattle.std.specs.List.{flat_map};
ghost use Rattle.sha2.specs.Sha256.{sha256};
ghost use Rattle.seg_core.specs.EntryView.{entry_view, entry_views};
ghost use Rattle.seg_core.specs.Digest.{hop_bytes};

use crate::entry::Entry;
use sha2::{Digest, Sha256};

/// The number of bytes of one hop in a digest.
const HOP_BYTES: usize = 12;

/// SHA-256 (FIPS 180-4) over 12 bytes for each entry, in order.
pub(crate) fn digest_of(entries: &[Entry]) -> [u8; 32]
    ensures { result ≡ sha256 (flat_map hop_bytes (entry_views entries.now)) }
{
    let mut hasher = Sha256::new();
    for entry in entries {
        hasher.update(&hop_bytes(entry));
    }
    hasher.finalize()
}

/// The ISD-AS (8 bytes), the ingress (2) and the egress (2) of an entry, big-endian.
fn hop_bytes(entry: &Entry) -> [u8; HOP_BYTES]
    ensures { result ≡ hop_bytes (entry_view entry.now) }
{
    let [a, b, c, d, e, f, g, h] = entry.ia.to_u64().to_be_bytes();
    let [i, j] = entry.ingress.to_be_bytes();
    let [k, l] = entry.egress.to_be_bytes();
    [a, b, c, d, e, f, g, h, i, j, k, l]
}
