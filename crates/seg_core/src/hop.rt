//! Hop entries and peer entries, down to their hop fields.

ghost use Rattle.seg_core.specs.Steps.{ReadsFields};
ghost use Rattle.seg_core.specs.Entry.{hop_field_decoding, hop_entry_decoding, peer_entry_decoding};

use crate::error::SegError;
use crate::limits::{check, u8_of, u16_of, u32_of};
use crate::shape::{HOP_ENTRY, HOP_FIELD, PEER_ENTRY};
use crate::slots::slots_of;

/// The length of a MAC in bytes.
const MAC_LEN: usize = 6;

/// Where a segment enters and leaves an AS, and how long the hop field is valid.
#[derive(Clone, Copy)]
pub(crate) struct Hop {
    pub ingress: u16,
    pub egress: u16,
    pub exp_time: u8,
}

#[tactic(auto, unfolding(crate::specs::Entry::hop_field_decoding))]
fn read_hop_field(message: &[u8]) -> Result<Hop, SegError>
    ensures { ReadsFields (λ hop. hop) result (hop_field_decoding message.now) }
{
    let slots = slots_of::<11>(&HOP_FIELD, message)?;
    let ingress = u16_of(slots.number_field(1))?;
    let egress = u16_of(slots.number_field(2))?;
    let exp_time = u8_of(slots.number_field(3))?;
    check(
        slots.bytes_field_or_empty(4).len() == MAC_LEN,
        SegError::Range,
    )?;
    Ok(Hop {
        ingress,
        egress,
        exp_time,
    })
}

#[tactic(auto, unfolding(crate::specs::Entry::hop_entry_decoding))]
pub(crate) fn read_hop_entry(message: &[u8]) -> Result<Hop, SegError>
    ensures { ReadsFields (λ hop. hop) result (hop_entry_decoding message.now) }
{
    let slots = slots_of::<12>(&HOP_ENTRY, message)?;
    let hop_field = slots.required_message(1)?;
    let _ingress_mtu = u32_of(slots.number_field(2))?;
    read_hop_field(hop_field)
}

#[tactic(auto, unfolding(crate::specs::Entry::peer_entry_decoding))]
pub(crate) fn read_peer_entry(message: &[u8]) -> Result<Hop, SegError>
    ensures { ReadsFields (λ hop. hop) result (peer_entry_decoding message.now) }
{
    let slots = slots_of::<13>(&PEER_ENTRY, message)?;
    let hop_field = slots.required_message(4)?;
    let _peer_mtu = u32_of(slots.number_field(3))?;
    read_hop_field(hop_field)
}
