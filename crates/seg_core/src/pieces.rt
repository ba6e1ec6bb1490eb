//! The pieces that are kept of an entry as received. They are parts of the encoding of the entry's
//! segment.

ghost use Rattle.std.specs.Prelude.{◌≡◌, ◌≤◌, length, IfOk};
ghost use Rattle.std.specs.Arc.{arc_value};
ghost use Rattle.std.specs.Option.{option_map};
ghost use Rattle.seg_core.specs.Pieces.{IsSpanWithin, AreWithin, piece_at, pieces_at};

use std::alloc::AllocError;
use std::marker::Model;
use std::sync::Arc;

/// The range of a piece in an encoding, which has at most 16,384 bytes: where it starts, and where
/// it ends.
#[derive(Clone, Copy)]
pub(crate) struct Span {
    pub start: u16,
    pub end: u16,
}

impl Span {
    /// The bytes of this range.
    pub(crate) fn of(self, bytes: &[u8]) -> &[u8]
        requires { IsSpanWithin bytes.now self }
        ensures { result.now ≡ piece_at bytes.now self }
    {
        &bytes[usize::from(self.start)..usize::from(self.end)]
    }
}

/// The ranges of an entry's pieces: what its AS has signed, its signature, and what is not signed,
/// which may be missing.
#[derive(Clone, Copy)]
pub(crate) struct Spans {
    pub signed: Span,
    pub signature: Span,
    pub unsigned: Option<Span>,
}

/// What an AS has signed, its signature, and what is not signed, in an encoding that other pieces
/// share.
#[derive(Drop)]
pub struct Pieces {
    encoding: Arc<Vec<u8>>,
    spans: Spans,
}

impl Model for Pieces {
    ghost use Rattle.seg_core.specs.SegmentView.{PiecesView};

    ghost Value = { PiecesView };

    ghost use Rattle.seg_core.specs.Pieces.{pieces_view, ArePieces};

    ghost view = { pieces_view };

    ghost invariant = { ArePieces };
}

impl Pieces {
    /// The pieces in these ranges of an encoding, whose reference count rises by one. An error
    /// means that the count is 2^63 already.
    pub(crate) fn new(encoding: &Arc<Vec<u8>>, spans: Spans) -> Result<Pieces, AllocError>
        requires { AreWithin (arc_value encoding.now).items spans }
        ensures { IfOk result (λ pieces. pieces ≡ pieces_at (arc_value encoding.now).items spans) }
    {
        let encoding = Arc::try_clone(encoding)?;
        Ok(Pieces { encoding, spans })
    }

    /// What the AS has signed.
    pub(crate) fn signed(&self) -> &[u8]
        ensures { result.now ≡ self.now.signed }
    {
        self.spans.signed.of(&self.encoding)
    }

    /// The signature.
    pub(crate) fn signature(&self) -> &[u8]
        ensures { result.now ≡ self.now.signature }
    {
        self.spans.signature.of(&self.encoding)
    }

    /// What is not signed. `None` where the entry has no such field.
    pub(crate) fn unsigned(&self) -> Option<&[u8]>
        ensures { option_map (λ s. s.now) result ≡ self.now.unsigned }
    {
        let span = self.spans.unsigned?;
        Some(span.of(&self.encoding))
    }
}
