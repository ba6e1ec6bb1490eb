//! Laws of the definitions that the crate's contracts cite. Each law is the contract of a function
//! that does nothing, so that the law is proved with the crate.

ghost use Rattle.std.specs.Prelude.{◌≡◌, ◌≢◌, ◌↔◌, ◌⊎◌, ℕ, ◌^◌, ◌<◌, ◌≤◌, List, [], length, Some, None};
ghost use Rattle.pw_wire.specs.declared.error.WireError.{WireError};
ghost use Rattle.pw_wire.specs.Decoding.{IsBytes};
ghost use Rattle.pw_wire.specs.Varint.{EncodesNumber, IsVarint, varint_encoding};
ghost use Rattle.pw_wire.specs.Field.{FieldValue, FieldView, IsField, IsFieldFault, BeginsWithField, HasFieldFault, varint_field, bytes_field, varint_field_encoding, bytes_field_encoding};
ghost use Rattle.pw_wire.specs.Fields.{AreFields, AreFieldsUntil, fields, fault, IsDecodedAs};

/// Bytes that are not empty begin with exactly one field, of one length, or have exactly one fault.
pub fn field_or_fault()
    ensures one { (bytes : List ℕ) → IsBytes bytes → bytes ≢ []
        → BeginsWithField bytes ⊎ HasFieldFault bytes }
    ensures not_both { (bytes : List ℕ) → BeginsWithField bytes → HasFieldFault bytes → ⊥ }
    ensures one_number { (bytes : List ℕ) (m n : ℕ) (v w : FieldValue) (k l : ℕ)
        → IsField bytes m v k → IsField bytes n w l → m ≡ n }
    ensures one_value { (bytes : List ℕ) (m n : ℕ) (v w : FieldValue) (k l : ℕ)
        → IsField bytes m v k → IsField bytes n w l → v ≡ w }
    ensures one_length { (bytes : List ℕ) (m n : ℕ) (v w : FieldValue) (k l : ℕ)
        → IsField bytes m v k → IsField bytes n w l → k ≡ l }
    ensures one_fault { (bytes : List ℕ) (d e : WireError)
        → IsFieldFault bytes d → IsFieldFault bytes e → d ≡ e }
{}

/// `fields` and `fault` are exact: the bytes are these fields up to the end, or these fields up to
/// that fault.
pub fn all_fields()
    ensures whole { (bytes : List ℕ) (fs : List FieldView) → IsBytes bytes
        → (AreFields bytes fs) ↔ ((fault bytes ≡ None) × (fields bytes ≡ fs)) }
    ensures until { (bytes : List ℕ) (fs : List FieldView) (e : WireError) → IsBytes bytes
        → (AreFieldsUntil bytes fs e) ↔ ((fault bytes ≡ Some e) × (fields bytes ≡ fs)) }
{}

/// Bytes encode one number at most. The encoding of a number is a varint of it, and no other varint
/// of it is shorter.
pub fn encoded_varint()
    ensures one_number { (bytes : List ℕ) (m n : ℕ)
        → EncodesNumber bytes m → EncodesNumber bytes n → m ≡ n }
    ensures encoded { (n : ℕ) → n < 2 ^ 64 → IsVarint (varint_encoding n) n }
    ensures shortest { (n : ℕ) (bytes : List ℕ) → IsVarint bytes n
        → length (varint_encoding n) ≤ length bytes }
{}

/// An encoded field is read as that field, whatever follows it.
pub fn encoded_fields()
    ensures varint { (field_number n : ℕ) → 1 ≤ field_number → field_number < 2 ^ 29 → n < 2 ^ 64
        → IsDecodedAs (varint_field_encoding field_number n) (varint_field field_number n) }
    ensures bytes { (field_number : ℕ) (bytes : List ℕ) → 1 ≤ field_number → field_number < 2 ^ 29 → length bytes < 2 ^ 64
        → IsDecodedAs (bytes_field_encoding field_number bytes) (bytes_field field_number bytes) }
{}
