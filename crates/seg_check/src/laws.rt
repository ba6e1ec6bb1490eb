//! Laws of the definitions that the crate's contracts cite. Each law is the contract of a function
//! that does nothing, so that the law is proved with the crate.

ghost use Rattle.std.specs.Prelude.{◌≡◌, ◌↔◌, ◌<◌, ◌≤◌, ◌^◌, ℕ, List, length, All, Some, None, IsTrue};
ghost use Rattle.std.specs.List.{Any};
ghost use Rattle.pw_wire.specs.Decoding.{IsBytes};
ghost use Rattle.seg_core.specs.SegmentView.{EntryView, SegmentView};
ghost use Rattle.seg_core.specs.Encoding.{IsSegment};
ghost use Rattle.seg_core.specs.Digest.{hop_bytes, segment_digest};
ghost use Rattle.seg_check.specs.Expiry.{hop_expiry, expiry_of};
ghost use Rattle.seg_check.specs.Signatures.{Verdicts};
ghost use Rattle.seg_check.specs.Checking.{IsAccepted, HasFirstBad, HasExpired, check_refusal};
ghost use Rattle.seg_check.specs.Keyed.{keyed_signature, keyed_verdicts};
ghost use Rattle.seg_check.specs.declared.error.CheckError.TheVariants.{BadSignature, Expired};

/// A hop has 12 bytes, and a digest has 32.
pub fn digests_have_32_bytes()
    ensures hop { (e : EntryView) → length (hop_bytes e) ≡ 12 }
    ensures digest { (s : SegmentView) → length (segment_digest s) ≡ 32 }
    ensures bytes { (s : SegmentView) → IsBytes (segment_digest s) }
{}

/// A whole segment expires with the first of its hop entries: no hop entry expires before the
/// segment, and one expires with it. The moment has at most 34 bits.
pub fn segments_expire_with_a_hop()
    ensures none_before { (s : SegmentView) → IsSegment s → All (λ e. expiry_of s ≤ hop_expiry s.timestamp e) s.entries }
    ensures one_then { (s : SegmentView) → IsSegment s → Any (λ e. hop_expiry s.timestamp e ≡ expiry_of s) s.entries }
    ensures fits { (s : SegmentView) → IsSegment s → expiry_of s < 2 ^ 34 }
{}

/// The first refusal is exactly what the definitions give, and a whole segment has none exactly
/// when it is accepted.
pub fn check_refusals_are_exact()
    ensures accepted { (verifies : Verdicts) (now : ℕ) (s : SegmentView) → IsSegment s → (check_refusal verifies now s ≡ None) ↔ IsAccepted verifies now s }
    ensures bad_signature { (verifies : Verdicts) (now at : ℕ) (s : SegmentView)
        → (check_refusal verifies now s ≡ Some (BadSignature at)) ↔ HasFirstBad verifies s.info s.entries at }
    ensures expired { (verifies : Verdicts) (now : ℕ) (s : SegmentView) → (check_refusal verifies now s ≡ Some Expired) ↔ HasExpired verifies now s }
{}

/// By a key of the test profile one signature is good, and no other.
pub fn keyed_verdicts_are_exact()
    ensures { (key signed signature : List ℕ) (ia : ℕ) (associated : List (List ℕ))
        → (IsTrue (keyed_verdicts key ia signed signature associated)) ↔ (signature ≡ keyed_signature key signed associated) }
{}
