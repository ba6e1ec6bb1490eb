//! A law of servers one after the other. It is the contract of a function that does nothing.

ghost use Rattle.prefix_recovery.specs.servers.Composition.{ServersCompose};

/// A server, a stop, an opening, and a server of the store that was opened: what survives a second
/// stop is a front of one order, which has the claimed commands of both.
pub fn servers_compose()
    ensures { ServersCompose }
{}
