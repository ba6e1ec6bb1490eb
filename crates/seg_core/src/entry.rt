//! The entries of a segment, one for each AS.

ghost use Rattle.std.specs.Prelude.{◌≡◌, IfOk};
ghost use Rattle.std.specs.Arc.{arc_value};
ghost use Rattle.std.specs.Option.{option_map};
ghost use Rattle.seg_core.specs.Steps.{ReadsFields};
ghost use Rattle.seg_core.specs.Pieces.{AreWithin};
ghost use Rattle.seg_core.specs.Entry.{as_entry_decoding};
ghost use Rattle.seg_core.specs.EntryView.{entry_view, borrowed_view, marked_view};

use crate::body::{Body, read_header_and_body};
use crate::error::SegError;
use crate::pieces::{Pieces, Spans};
use crate::shape::{AS_ENTRY, SIGNED_MESSAGE};
use crate::slots::slots_of;
use isd_as::IsdAs;
use std::alloc::AllocError;
use std::fmt;
use std::sync::Arc;

/// The entry of one AS. The signature of the AS covers `signed`.
#[derive(Drop)]
pub struct Entry {
    /// The ISD-AS of the entry.
    pub ia: IsdAs,
    /// The ISD-AS of the next entry, 0-0 in the last entry.
    pub next: IsdAs,
    /// The interface by which the segment enters the AS, 0 in the first entry.
    pub ingress: u16,
    /// The interface by which the segment leaves the AS, 0 in the last entry.
    pub egress: u16,
    /// How long the hop field is valid: `exp_time + 1` times 337.5 seconds.
    pub exp_time: u8,
    pieces: Pieces,
}

impl Entry {
    /// The entry whose pieces are in these ranges of the encoding.
    pub(crate) fn new(encoding: &Arc<Vec<u8>>, marked: MarkedEntry) -> Result<Entry, AllocError>
        requires { AreWithin (arc_value encoding.now).items marked.spans }
        ensures { IfOk result (λ entry. entry_view entry ≡ marked_view (arc_value encoding.now).items marked) }
    {
        let MarkedEntry { body, spans } = marked;
        Ok(Entry {
            ia: IsdAs::from_u64(body.ia),
            next: IsdAs::from_u64(body.next),
            ingress: body.hop.ingress,
            egress: body.hop.egress,
            exp_time: body.hop.exp_time,
            pieces: Pieces::new(encoding, spans)?,
        })
    }

    /// The header and the body as received, which the AS has signed.
    pub fn signed(&self) -> &[u8]
        ensures { result.now ≡ (entry_view self.now).signed }
    {
        self.pieces.signed()
    }

    /// The signature as received.
    pub fn signature(&self) -> &[u8]
        ensures { result.now ≡ (entry_view self.now).signature }
    {
        self.pieces.signature()
    }

    /// The extensions that are not signed, as received. `None` where the message has none.
    pub fn unsigned(&self) -> Option<&[u8]>
        ensures { option_map (λ s. s.now) result ≡ (entry_view self.now).unsigned }
    {
        self.pieces.unsigned()
    }
}

impl fmt::Debug for Entry {
    fn fmt<W: fmt::Write>(&self, f: &mut fmt::Formatter<W>) -> fmt::Result {
        f.debug_struct("Entry")
            .field("ia", &self.ia)
            .field("next", &self.next)
            .finish_non_exhaustive()
    }
}

/// An entry as received: the numbers of its body, and pieces of its message.
#[derive(Clone, Copy)]
pub(crate) struct BorrowedEntry<'a> {
    pub body: Body,
    pub signed: &'a [u8],
    pub signature: &'a [u8],
    pub unsigned: Option<&'a [u8]>,
}

/// An entry that was put: the numbers of its body, and the ranges of its pieces.
#[derive(Clone, Copy)]
pub(crate) struct MarkedEntry {
    pub body: Body,
    pub spans: Spans,
}

#[tactic(auto, unfolding(crate::specs::Entry::as_entry_decoding))]
pub(crate) fn read_as_entry(message: &[u8]) -> Result<BorrowedEntry<'_>, SegError>
    ensures { ReadsFields borrowed_view result (as_entry_decoding message.now) }
{
    let slots = slots_of::<7>(&AS_ENTRY, message)?;
    let signed_message = slots.required_message(1)?;
    let parts = slots_of::<8>(&SIGNED_MESSAGE, signed_message)?;
    let signed = parts.bytes_field_or_empty(1);
    let body = read_header_and_body(signed)?;
    Ok(BorrowedEntry {
        body,
        signed,
        signature: parts.bytes_field_or_empty(2),
        unsigned: slots.bytes_field(2),
    })
}
