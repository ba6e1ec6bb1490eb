//! Which hub it is.

use command_queue::QueueName;
use hub_readers::ReaderName;
use std::marker::Brand;

/// Names one hub: its state, by what its store held when the hub was made and by the log of the
/// commands that the state accepts; its readers, by the history of what is shown to them; and its
/// queue, by the history of the commands that are handed in and by its senders. The call that makes
/// a hub picks the name, so no two hubs have one name, and a note, a claim, a look or a reader of
/// one hub is refused by the types of another.
pub trait HubName: ReaderName + QueueName {}

impl HubName for Brand {}
