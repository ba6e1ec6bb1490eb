//! A test profile of signatures, which is part of no standard. The key that checks a signature also
//! makes it.

ghost use Rattle.std.specs.Prelude.{◌≡◌, ◌↔◌, ◌≤◌, ◌++◌, ℕ, List, length, IsTrue};
ghost use Rattle.seg_check.specs.Signatures.{referred_pieces};
ghost use Rattle.seg_check.specs.Keyed.{keyed_signature, piece_encoding};
ghost use Rattle.sha2.specs.Hashers.{Holds256};

use crate::verifier::Verifier;
use isd_as::IsdAs;
use sha2::{Digest, Sha256};
use std::marker::Model;

/// The most bytes of a key of the test profile.
pub const MOST_KEY: usize = 64;

/// A verifier by which a signature is good exactly when `keyed_signature` makes it with this key,
/// for any ISD-AS. The test profile is part of no standard.
#[derive(Drop)]
pub struct Keyed {
    key: Vec<u8>,
}

impl Model for Keyed {
    ghost use Rattle.std.specs.Prelude.{ℕ, ◌≤◌, List, length};
    ghost use Rattle.seg_check.specs.declared.keyed.TheConstants.{MOST_KEY};

    ghost Value = { List ℕ };

    ghost view = { λ k. k.key.items };

    ghost invariant = { λ k. length k.key.items ≤ MOST_KEY };
}

impl Keyed {
    /// The verifier with this key.
    pub fn new(key: Vec<u8>) -> Keyed
        requires { length key.items ≤ MOST_KEY }
        ensures { result ≡ key.items }
    {
        Keyed { key }
    }

    /// Whether the bytes can be a key: a key has 0 to 64 bytes.
    pub fn takes(key: &[u8]) -> bool
        ensures { IsTrue result ↔ (length key.now ≤ MOST_KEY) }
    {
        key.len() <= MOST_KEY
    }
}

impl Verifier for Keyed {
    ghost use Rattle.seg_check.specs.Keyed.{keyed_verdicts};

    ghost verifies = { keyed_verdicts };

    fn verify(&self, _ia: IsdAs, signed: &[u8], signature: &[u8], associated: &[&[u8]]) -> bool {
        signature == keyed_signature(&self.key, signed, associated).as_slice()
    }
}

/// The signature of the test profile by a key: SHA-256 (FIPS 180-4) over the key, the signed bytes
/// and the associated pieces in order, each after its length, 8 bytes, big-endian. The call takes
/// no memory. The signature is part of no standard.
#[tactic(auto, unfolding(crate::specs::Keyed::keyed_signature))]
pub fn keyed_signature(key: &[u8], signed: &[u8], associated: &[&[u8]]) -> [u8; 32]
    ensures { result ≡ keyed_signature key.now signed.now (referred_pieces associated.now) }
{
    let mut hasher = Sha256::new();
    add_piece(&mut hasher, key);
    add_piece(&mut hasher, signed);
    for piece in associated {
        add_piece(&mut hasher, piece);
    }
    hasher.finalize()
}

/// Adds a piece after its length of 8 bytes, big-endian.
fn add_piece(hasher: &mut Sha256, piece: &[u8])
    ensures { (m : List ℕ) → Holds256 hasher.old m → Holds256 hasher.new (m ++ piece_encoding piece.now) }
{
    hasher.update(&(piece.len() as u64).to_be_bytes());
    hasher.update(piece);
}
