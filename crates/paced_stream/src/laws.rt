//! A law of the definitions that the contracts cite. It is the contract of a function that does
//! nothing.

ghost use Rattle.std.specs.Prelude.{◌≡◌, ℕ, ◌^◌, ◌<◌, List, ◌++◌, length};
ghost use Rattle.std.specs.Int.{w32, to_be_bytes};
ghost use Rattle.paced_stream.specs.Tracking.{between, after_bytes};

/// A whole frame, which is the length of a content in four bytes, big-endian, and the content,
/// leads from between two frames to between two frames.
pub fn whole_frame()
    ensures { (content : List ℕ) → length content < 2 ^ 32 → after_bytes between (to_be_bytes w32 (length content) ++ content) ≡ between }
{}
