//! Laws of the definitions by which messages are read. Each law is the contract of a function that
//! does nothing, so that the law is proved with the crate.

ghost use Rattle.std.specs.Prelude.{◌≡◌, ◌≢◌, ◌↔◌, ℕ, List, Some, None, Ok, Err};
ghost use Rattle.pw_wire.specs.Field.{FieldView};
ghost use Rattle.seg_core.specs.declared.error.SegError.{SegError};
ghost use Rattle.seg_core.specs.declared.error.SegError.TheVariants.{NoMemory, Chain, Loop};
ghost use Rattle.seg_core.specs.declared.seg_type.SegType.{SegType};
ghost use Rattle.seg_core.specs.declared.field_kind.FieldKind.{FieldKind};
ghost use Rattle.seg_core.specs.Message.{AllFit, HasFirstMisfit, first_misfit};
ghost use Rattle.seg_core.specs.PathRefusals.{HasLoop, HasNoChain};
ghost use Rattle.seg_core.specs.Registration.{registration_decoding, type_number, type_of};
ghost use Rattle.seg_core.specs.Request.{request_decoding};
ghost use Rattle.seg_core.specs.Segment.{segment_decoding};

/// A type's number gives that type, and no other number gives it.
pub fn type_numbers_are_exact()
    ensures number { (kind : SegType) → type_of (type_number kind) ≡ Ok kind }
    ensures only { (n : ℕ) (kind : SegType) → type_of n ≡ Ok kind → n ≡ type_number kind }
{}

/// No message is refused with `NoMemory` by the definitions: only a call that is refused memory
/// returns that error.
pub fn decodings_want_no_memory()
    ensures segment { (message : List ℕ) → segment_decoding message ≢ Err NoMemory }
    ensures registration { (message : List ℕ) → registration_decoding message ≢ Err NoMemory }
    ensures request { (message : List ℕ) → request_decoding message ≢ Err NoMemory }
{}

/// A segment is refused for its path exactly when its entries are read and are no chain, or are a
/// chain with a loop.
pub fn path_refusals_are_exact()
    ensures no_chain { (message : List ℕ) → (segment_decoding message ≡ Err Chain) ↔ HasNoChain message }
    ensures has_loop { (message : List ℕ) → (segment_decoding message ≡ Err Loop) ↔ HasLoop message }
{}
