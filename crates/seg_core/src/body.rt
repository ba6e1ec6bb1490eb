//! The signed body of an AS entry.

ghost use Rattle.seg_core.specs.Steps.{ReadsFields, each, result_map};
ghost use Rattle.seg_core.specs.Message.{bytes_fields};
ghost use Rattle.pw_wire.specs.Fields.{fields};
ghost use Rattle.seg_core.specs.Entry.{peer_entry_decoding, body_decoding, header_and_body_decoding};

use crate::bytes_fields::BytesFields;
use crate::error::SegError;
use crate::hop::{Hop, read_hop_entry, read_peer_entry};
use crate::limits::{check, u32_of};
use crate::shape::{BODY, HEADER_AND_BODY};
use crate::slots::{Slots, slots_of};
use isd_as::IsdAs;

/// The numbers in the signed body of an AS entry. The ISD-AS numbers have 64 bits.
#[derive(Clone, Copy)]
pub(crate) struct Body {
    pub ia: u64,
    pub next: u64,
    pub hop: Hop,
}

/// Reads peer entries. Nothing of them is kept.
fn check_peer_entries(peers: BytesFields<'_>) -> Result<(), SegError>
    ensures { ReadsFields (λ u. u) result
        (result_map (λ _. tt) (each peer_entry_decoding (bytes_fields peers.entry.field_number (fields peers.entry.rest.now)))) }
{
    for peer in peers {
        read_peer_entry(peer)?;
    }
    Ok(())
}

/// Reads the peer entries of a body. Most bodies have none.
fn check_peers(slots: &Slots<'_>) -> Result<(), SegError>
    ensures { ReadsFields (λ u. u) result
        (result_map (λ _. tt) (each peer_entry_decoding (bytes_fields 4 (fields slots.now.message.now)))) }
{
    if slots.bytes_field(4).is_none() {
        return Ok(());
    }
    check_peer_entries(slots.bytes_fields(4))
}

#[tactic(auto, unfolding(crate::specs::Entry::body_decoding))]
fn read_body(message: &[u8]) -> Result<Body, SegError>
    ensures { ReadsFields (λ body. body) result (body_decoding message.now) }
{
    let slots = slots_of::<9>(&BODY, message)?;
    let hop_entry = slots.required_message(3)?;
    let ia = slots.number_field(1);
    check(!IsdAs::from_u64(ia).has_zero_part(), SegError::Range)?;
    let _mtu = u32_of(slots.number_field(5))?;
    let hop = read_hop_entry(hop_entry)?;
    check_peers(&slots)?;
    Ok(Body {
        ia,
        next: slots.number_field(2),
        hop,
    })
}

/// Reads a header, which is not kept here, and a body.
#[tactic(auto, unfolding(crate::specs::Entry::header_and_body_decoding))]
pub(crate) fn read_header_and_body(message: &[u8]) -> Result<Body, SegError>
    ensures { ReadsFields (λ body. body) result (header_and_body_decoding message.now) }
{
    let slots = slots_of::<10>(&HEADER_AND_BODY, message)?;
    read_body(slots.bytes_field_or_empty(2))
}
