//! Listing a server's segments, page by page.

ghost use Rattle.std.specs.Prelude.{◌≡◌, ◌≢◌, Some, false, IfErr, IfOk, IfSome, IsTrue, OnOk};
ghost use Rattle.cli_ask.specs.declared.error.AskError.TheVariants as error;
ghost use Rattle.cli_ask.specs.Pages.{HasListed, HasListedAll, IsOfType, first_request, is_above, kinds_of, last_id, page_talk, unlisted};
ghost use Rattle.cli_ask.specs.Talk.{Passes};

use crate::asking::exchange;
use crate::error::AskError;
use crate::lines::print_segments;
use crate::link::Link;
use crate::request::byte_of;
use isd_as::IsdAs;
use row_lines::RowForm;
use seg_check::seg_id;
use seg_core::SegType;
use session_core::{ListRequest, Listing, Message, Reply};
use std::alloc::Global;
use std::io::Write;

/// Prints all segments of a type, or of all types by their numbers, whose ends these patterns
/// cover, in the order of their keys.
pub(crate) fn list<L: Link, W: Write>(
    alloc: Global,
    link: &mut L,
    kind: Option<SegType>,
    ends: (IsdAs, IsdAs),
    form: RowForm,
    writer: &mut W,
) -> Result<(), AskError>
    ensures { OnOk result (HasListedAll (L.talk link.old) (L.talk link.new) (W.contents writer.old) (W.contents writer.new) form ends (kinds_of kind)) }
{
    if let Some(kind) = kind {
        return list_type(alloc, link, kind, ends, form, writer);
    }
    list_type(alloc, link, SegType::Up, ends, form, writer)?;
    list_type(alloc, link, SegType::Down, ends, form, writer)?;
    list_type(alloc, link, SegType::Core, ends, form, writer)
}

/// Prints all segments of a type. Each page begins after the last id of the page before it.
fn list_type<L: Link, W: Write>(
    alloc: Global,
    link: &mut L,
    kind: SegType,
    ends: (IsdAs, IsdAs),
    form: RowForm,
    writer: &mut W,
) -> Result<(), AskError>
    ensures { OnOk result (HasListed (L.talk link.old) (L.talk link.new) (W.contents writer.old) (W.contents writer.new) form kind (first_request kind ends)) }
{
    let mut request = first_request(kind, ends);
    for _turn in 0..u64::MAX {
        let page = page_of(alloc, link, kind, request)?;
        print_segments(alloc, form, kind, page.segments.as_slice(), writer)?;
        if !page.more {
            return Ok(());
        }
        let id = next_after(&page, request.after)?;
        request.after = Some(id);
    }
    Err(AskError::Faulty)
}

/// The request of the first page of a type.
fn first_request(kind: SegType, ends: (IsdAs, IsdAs)) -> ListRequest
    ensures { result ≡ first_request kind ends }
{
    ListRequest {
        kind: byte_of(kind),
        start: ends.0.to_u64(),
        end: ends.1.to_u64(),
        after: None,
    }
}

/// A page of segments of a type.
fn page_of<L: Link>(
    alloc: Global,
    link: &mut L,
    kind: SegType,
    request: ListRequest,
) -> Result<Listing, AskError>
    ensures page { IfOk result (λ page. Passes (L.talk link.old) (L.talk link.new) (page_talk request page)) }
    ensures kind { IfOk result (λ page. IsOfType kind page) }
{
    match exchange(alloc, link, &Message::List(request)) {
        Ok(Reply::Listed(page)) => of_type(kind, page),
        Ok(_) => Err(AskError::Unasked),
        Err(error) => Err(unlisted(request.after, error)),
    }
}

/// Why a page after this id has no reply. A server without lists ends the connection instead of
/// replying to the first one.
fn unlisted(after: Option<[u8; 32]>, error: AskError) -> AskError
    ensures { result ≡ unlisted after error }
{
    match (after, error) {
        (None, AskError::Ended) => AskError::NoLists,
        (_, error) => error,
    }
}

/// A page, whose segments have to be of this type.
fn of_type(kind: SegType, page: Listing) -> Result<Listing, AskError>
    ensures same { IfOk result (λ taken. taken ≡ page) }
    ensures kind { OnOk result (IsOfType kind page) }
    ensures why { IfErr result (λ e. (e ≡ error.Unasked) × (page.kind ≢ kind)) }
{
    if page.kind != kind && !page.segments.is_empty() {
        return Err(AskError::Unasked);
    }
    Ok(page)
}

/// The id after which the next page begins: that of the last segment of this one, which has to come
/// after the id of the page before. So a server can't make a list without an end.
fn next_after(page: &Listing, after: Option<[u8; 32]>) -> Result<[u8; 32], AskError>
    ensures last { IfOk result (λ id. last_id page.now ≡ Some id) }
    ensures rises { IfOk result (λ id. IsTrue (is_above after id)) }
    ensures why { IfErr result (λ e. (e ≡ error.Faulty) × IfSome (last_id page.now) (λ id. is_above after id ≡ false)) }
{
    let Some(last) = page.segments.last() else {
        return Err(AskError::Faulty);
    };
    let id = seg_id(last);
    if !is_above(after, &id) {
        return Err(AskError::Faulty);
    }
    Ok(id)
}

/// Whether an id is above the one before, if there is one.
fn is_above(before: Option<[u8; 32]>, id: &[u8; 32]) -> bool
    ensures { result ≡ is_above before id.now }
{
    match before {
        Some(before) => before.cmp(id).is_lt(),
        None => true,
    }
}
