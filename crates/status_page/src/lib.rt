//! The page of a server's numbers, as text in the exposition format of Prometheus, version 0.0.4,
//! and how it is requested by HTTP.
//!
//! To the layer above: `page` is the text of a state's numbers and of what the server has done, to
//! the byte. `read_head` returns what the bytes of a peer ask for, by the grammar of HTTP/1.1.
//! `response` is the response that carries a page, and `plots_response` the one that carries the
//! page of plots, which draws these numbers in a browser.
#![tactic(auto)]

mod answers;
mod build;
mod calls;
mod counts;
mod histogram;
mod lines;
mod names;
mod phases;
mod plots;
mod process;
mod request;
mod rows;
mod sessions;
mod store;
mod text;
mod times;
mod work;

pub use answers::{
    BAD_REQUEST, HANGS, HEALTHY, NO_MEMORY, NOT_ALLOWED, NOT_FOUND, STOPPED, plots_response,
    response,
};
pub use build::VERSION;
pub use counts::{
    CallTime, CodeCount, Counts, EndCounts, LOOKUP_BUCKETS, LookupTimes, MemoryWaits,
    OutcomeCounts, OwnPurges, RefusedCounts, Usage,
};
pub use request::{Asked, read_head};
pub use text::page;
