//! The shapes of the messages: the kind of the value under each of their field numbers.

use crate::field_kind::FieldKind;
use crate::field_kind::FieldKind::{Bytes, Message, Messages, Number, Unknown};

// Each shape is a list by field numbers. No field has the number 0.

/// `SegmentsRequest`: source and destination.
pub(crate) const REQUEST: [FieldKind; 3] = [Unknown, Number, Number];
/// `SegmentsRegistrationRequest` and `SegmentsResponse`: entries of a map.
pub(crate) const SEGMENT_MAP: [FieldKind; 2] = [Unknown, Messages];
/// An entry of that map: the type of the segments, and the segments.
pub(crate) const MAP_ENTRY: [FieldKind; 3] = [Unknown, Number, Message];
/// `Segments`.
pub(crate) const SEGMENTS: [FieldKind; 2] = [Unknown, Messages];
/// `PathSegment`: the segment's information, and an entry for each AS.
pub(crate) const PATH_SEGMENT: [FieldKind; 3] = [Unknown, Bytes, Messages];
/// `SegmentInformation`: timestamp and segment id.
pub(crate) const SEGMENT_INFORMATION: [FieldKind; 3] = [Unknown, Number, Number];
/// `ASEntry`: the signed message, and extensions that are not signed.
pub(crate) const AS_ENTRY: [FieldKind; 3] = [Unknown, Message, Message];
/// `SignedMessage`: header and body, and the signature.
pub(crate) const SIGNED_MESSAGE: [FieldKind; 3] = [Unknown, Bytes, Bytes];
/// The header and the body that are signed.
pub(crate) const HEADER_AND_BODY: [FieldKind; 3] = [Unknown, Bytes, Bytes];
/// `ASEntrySignedBody`: ISD-AS, next ISD-AS, hop entry, peer entries, MTU, extensions.
pub(crate) const BODY: [FieldKind; 7] = [
    Unknown, Number, Number, Message, Messages, Number, Message,
];
/// `HopEntry`: hop field, ingress MTU.
pub(crate) const HOP_ENTRY: [FieldKind; 3] = [Unknown, Message, Number];
/// `PeerEntry`: peer's ISD-AS, peer's interface, peer's MTU, hop field.
pub(crate) const PEER_ENTRY: [FieldKind; 5] = [Unknown, Number, Number, Number, Message];
/// `HopField`: ingress, egress, expiry, MAC.
pub(crate) const HOP_FIELD: [FieldKind; 5] = [Unknown, Number, Number, Number, Bytes];
