//! Submitting and redeeming, with the tickets of a run.

ghost use Rattle.std.specs.Prelude.{◌≡◌, ◌<◌, ◌++◌, ◌∷◌, [], None, Some, length, slice_set, vec_len, vec_capacity};
ghost use Rattle.group_core.specs.Stops.{StepLeaves};
ghost use Rattle.group_recovery.specs.Holding.{AllRedeemed, HoldsTickets, held_at, run_view};
ghost use Rattle.group_recovery.specs.RunSteps.{SubmitEvent, RedeemEvent};

use crate::events::Reply;
use group_core::{Redeemed, Showcase, State, SubmitError, Ticket};
use path_db::Command;
use sector_dev::Device;
use std::alloc::Global;

/// Submits a copy of a command, and keeps its ticket after the others. Where the command is refused
/// without memory, none is taken.
pub(crate) fn submit<D: Device, S: Showcase>(
    alloc: Global,
    tickets: &mut Vec<Option<Ticket>>,
    state: &mut State<D, S>,
    command: &Command,
) -> Reply
    requires held { HoldsTickets tickets.old.items state.old }
    ensures held { HoldsTickets tickets.new.items state.new }
    ensures step { SubmitEvent command.now result (run_view state.old tickets.old.items) (run_view state.new tickets.new.items) }
    ensures any_moment { StepLeaves state.old state.new }
{
    if let Err(refusal) = state.judge(command) {
        state.stops_leave_fronts();
        return Reply::Refused(refusal);
    }
    if tickets.reserve(1).is_err() {
        state.stops_leave_fronts();
        return Reply::Refused(SubmitError::NoMemory);
    }
    let Ok(copy) = command.try_clone(alloc) else {
        state.stops_leave_fronts();
        return Reply::Refused(SubmitError::NoMemory);
    };
    match state.submit(copy) {
        Ok(ticket) => {
            let place = ticket.place();
            keep(tickets, ticket);
            Reply::Accepted(place)
        }
        Err((_back, refusal)) => Reply::Refused(refusal),
    }
}

/// Redeems the k-th ticket.
pub(crate) fn redeem<D: Device, S: Showcase>(
    tickets: &mut Vec<Option<Ticket>>,
    state: &mut State<D, S>,
    k: usize,
) -> Reply
    requires held { HoldsTickets tickets.old.items state.old }
    ensures held { HoldsTickets tickets.new.items state.new }
    ensures step { RedeemEvent k result (run_view state.old tickets.old.items) (run_view state.new tickets.new.items) }
    ensures any_moment { StepLeaves state.old state.new }
{
    let Some(ticket) = take(tickets, k) else {
        state.stops_leave_fronts();
        return Reply::NoValue;
    };
    match state.redeem(ticket) {
        Redeemed::Committed(receipt) => Reply::Committed(receipt.place(), receipt.outcome()),
        Redeemed::Waiting(back) => {
            let place = back.place();
            put_back(tickets, k, back);
            Reply::Waiting(place)
        }
        Redeemed::Unknown(place) => Reply::Unknown(place),
        Redeemed::Stranger(back) => {
            put_back(tickets, k, back);
            Reply::NoValue
        }
    }
}

/// Keeps a ticket after the others.
fn keep(tickets: &mut Vec<Option<Ticket>>, ticket: Ticket)
    requires { vec_len tickets.old < vec_capacity tickets.old }
    ensures { tickets.new.items ≡ tickets.old.items ++ Some ticket ∷ [] }
{
    if let Err(_full) = tickets.push(Some(ticket)) {
        unreachable!();
    }
}

/// Takes the k-th ticket out, where there is one.
fn take(tickets: &mut Vec<Option<Ticket>>, k: usize) -> Option<Ticket>
    ensures taken { result ≡ held_at k tickets.old.items }
    ensures left { tickets.new.items ≡ slice_set tickets.old.items k None }
{
    match tickets.get_mut(k) {
        Some(slot) => slot.take(),
        None => None,
    }
}

/// Puts a ticket back where it was taken out.
fn put_back(tickets: &mut Vec<Option<Ticket>>, k: usize, ticket: Ticket)
    requires inside { k < length tickets.old.items }
    requires none { held_at k tickets.old.items ≡ None }
    ensures { tickets.new.items ≡ slice_set tickets.old.items k (Some ticket) }
{
    match tickets.get_mut(k) {
        Some(slot) => end(slot.replace(ticket)),
        None => unreachable!(),
    }
}

/// Consumes a slot without a ticket.
fn end(ticket: Option<Ticket>)
    requires { ticket ≡ None }
{
    let None = ticket else {
        unreachable!();
    };
}

/// Consumes slots without tickets.
pub(crate) fn end_all(tickets: Vec<Option<Ticket>>)
    requires { AllRedeemed tickets.items }
{
    let mut tickets = tickets;
    while let Some(ticket) = tickets.pop() {
        end(ticket);
    }
    tickets.destroy_empty();
}
