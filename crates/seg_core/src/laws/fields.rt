//! The law of the first field that does not fit its shape: the contract of a function that does
//! nothing, so that the law is proved with the crate.

ghost use Rattle.std.specs.Prelude.{◌≡◌, ◌↔◌, List, Some, None};
ghost use Rattle.pw_wire.specs.Field.{FieldView};
ghost use Rattle.seg_core.specs.declared.error.SegError.{SegError};
ghost use Rattle.seg_core.specs.declared.field_kind.FieldKind.{FieldKind};
ghost use Rattle.seg_core.specs.Message.{AllFit, HasFirstMisfit, first_misfit};

/// `first_misfit` is exactly what is wrong with the first field that does not fit its shape.
pub fn first_misfit_is_exact()
    ensures misfit { (shape : List FieldKind) (fs : List FieldView) (refusal : SegError)
        → (first_misfit shape fs ≡ Some refusal) ↔ HasFirstMisfit shape fs refusal }
    ensures none { (shape : List FieldKind) (fs : List FieldView) → (first_misfit shape fs ≡ None) ↔ AllFit shape fs }
{}
