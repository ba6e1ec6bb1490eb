//! Purging, in steps or at once.

ghost use Rattle.std.specs.Prelude.{◌≡◌, IfOk, OnErr, OnOk};
ghost use Rattle.session_core.specs.Reply.{Purged};
ghost use Rattle.session_core.specs.declared.message.Message.TheVariants as message;
ghost use Rattle.cli_ask.specs.Purging.{HasAdded, HasDropped, HasPurged, first_step};
ghost use Rattle.cli_ask.specs.Said.{HasAcknowledged};
ghost use Rattle.cli_ask.specs.Talk.{Passes, exchange_of};

use crate::asking::exchange;
use crate::error::AskError;
use crate::lines::print_ack;
use crate::link::Link;
use crate::steps::{Step, total_of};
use row_lines::RowForm;
use session_core::{Ack, Message, Reply};
use std::alloc::Global;
use std::io::Write;

/// Purges by a moment in steps, and prints what all of them did as one line, with the place of the
/// last one. Where a step fails, no further one is sent, and the line is of those before it.
pub(crate) fn purge<L: Link, W: Write>(
    alloc: Global,
    link: &mut L,
    moment: u64,
    form: RowForm,
    writer: &mut W,
) -> Result<(), AskError>
    ensures { OnOk result (HasPurged (L.talk link.old) (L.talk link.new) (W.contents writer.old) (W.contents writer.new) form moment) }
{
    let mut total = None;
    let came = drop_in_steps(alloc, link, moment, &mut total);
    if let Some(ack) = total {
        print_ack(alloc, form, &ack, writer)?;
    }
    came
}

/// Purges by a moment, and prints what that did.
pub(crate) fn purge_at_once<L: Link, W: Write>(
    alloc: Global,
    link: &mut L,
    moment: u64,
    form: RowForm,
    writer: &mut W,
) -> Result<(), AskError>
    ensures { OnOk result (HasAcknowledged (L.talk link.old) (L.talk link.new) (W.contents writer.old) (W.contents writer.new) form (message.Purge moment) Purged) }
{
    let ack = drop_by(alloc, link, moment)?;
    print_ack(alloc, form, &ack, writer)
}

/// Purges by rising moments, of which the last is this one. `total` is what all steps so far did,
/// if there is one.
fn drop_in_steps<L: Link>(
    alloc: Global,
    link: &mut L,
    moment: u64,
    total: &mut Option<Ack>,
) -> Result<(), AskError>
    ensures { OnOk result (HasDropped (L.talk link.old) (L.talk link.new) moment (first_step moment) total.old total.new) }
{
    let mut step = Step::first(moment);
    while step.moment < moment {
        let dropped = drop_more(alloc, link, step.moment, total)?;
        step = step.next(dropped, moment);
    }
    drop_more(alloc, link, step.moment, total)?;
    Ok(())
}

/// Drops what expires at a moment or before, and adds what that did to the total. Returns how many
/// segments were dropped.
fn drop_more<L: Link>(
    alloc: Global,
    link: &mut L,
    moment: u64,
    total: &mut Option<Ack>,
) -> Result<u32, AskError>
    ensures added { IfOk result (λ dropped. HasAdded (L.talk link.old) (L.talk link.new) moment total.old total.new dropped) }
    ensures same { OnErr result (total.new ≡ total.old) }
{
    let ack = drop_by(alloc, link, moment)?;
    *total = match *total {
        Some(before) => Some(total_of(before, ack)?),
        None => Some(ack),
    };
    Ok(ack.outcome.purged)
}

/// Drops what expires at a moment or before, by one command.
fn drop_by<L: Link>(alloc: Global, link: &mut L, moment: u64) -> Result<Ack, AskError>
    ensures { IfOk result (λ ack. Passes (L.talk link.old) (L.talk link.new) (exchange_of (message.Purge moment) (Purged ack))) }
{
    let Reply::Purged(ack) = exchange(alloc, link, &Message::Purge(moment))? else {
        return Err(AskError::Unasked);
    };
    Ok(ack)
}
