//! Verifiers, which decide whether a signature is good.

ghost use Rattle.std.specs.Prelude.{◌≡◌, ℕ, List, Bool, true};
ghost use Rattle.isd_as.specs.IsdAs.{isd_as_number};
ghost use Rattle.seg_check.specs.Signatures.{referred_pieces};

use isd_as::IsdAs;

/// Decides whether the signatures of a segment's entries are good.
pub trait Verifier {
    /// The verifier's answers, by an ISD-AS, signed bytes, a signature and associated pieces.
    ghost verifies: { Self → ℕ → List ℕ → List ℕ → List (List ℕ) → Bool };

    /// Whether the signature of the AS over the signed bytes and the associated pieces is good. The
    /// pieces are those that the signature of an entry covers beside its own bytes: the segment's
    /// information, then, for each earlier entry in order, the signed bytes and the signature.
    fn verify(&self, ia: IsdAs, signed: &[u8], signature: &[u8], associated: &[&[u8]]) -> bool
        ensures { result ≡ verifies self.now (isd_as_number ia) signed.now signature.now (referred_pieces associated.now) };
}

/// A verifier by which every signature is good.
#[derive(Drop)]
pub struct TrustAll;

impl Verifier for TrustAll {
    ghost use Rattle.std.specs.Prelude.{true};

    ghost verifies = { λ _ _ _ _ _. true };

    fn verify(&self, _ia: IsdAs, _signed: &[u8], _signature: &[u8], _associated: &[&[u8]]) -> bool {
        true
    }
}
