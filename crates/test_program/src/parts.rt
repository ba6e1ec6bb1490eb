//! What a part of the program's run is: some command lines, with what is so before them and who is
//! met meanwhile.

use crate::images::Change;

/// A command line, and what it reads from standard input: these texts, one after the other.
pub(crate) type Line = (&'static str, &'static [&'static str]);

/// What is so before some command lines.
pub(crate) enum Before {
    /// Nothing but what earlier lines have left.
    Nothing,
    /// Their standard output takes no bytes.
    NoRoom,
    /// Their standard error takes no bytes: who writes to it waits for ever.
    NoLog,
    /// Another opening has a shared lock on the file `store`.
    Locked,
    /// The file `damaged` is the file `store`, with these changes.
    Changes(&'static [Change]),
    /// The same, and standard input and output are taken for a terminal.
    Terminal(&'static [Change]),
}

impl Before {
    /// Whether standard input and output are taken for a terminal.
    pub(crate) fn is_terminal(&self) -> bool {
        matches!(self, Before::Terminal(_))
    }
}

/// The peers that are met while a command line is carried out.
pub(crate) struct Peers {
    /// Sessions that are held one after the other, by the frames that they ask, as hexadecimal
    /// text.
    pub(crate) sessions: &'static [&'static str],
    /// The number of sessions that are open at one time after those. If it is not 0, one more
    /// connection is made meanwhile, and one more session is held once these have ended.
    pub(crate) together: usize,
    /// The number of sessions after those whose peer sends nothing and waits for the server to end
    /// them, one after the other.
    pub(crate) silent: usize,
}

/// No peers.
pub(crate) const NO_PEERS: Peers = Peers {
    sessions: &[],
    together: 0,
    silent: 0,
};

/// Command lines, and the peers that are met while each of them is carried out.
pub(crate) struct Part {
    pub(crate) what: &'static str,
    pub(crate) before: Before,
    pub(crate) peers: Peers,
    pub(crate) lines: &'static [Line],
}
