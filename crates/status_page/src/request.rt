//! What a peer asks for.

ghost use Rattle.std.specs.Prelude.{IfSome, IfNone};
ghost use Rattle.status_page.specs.Request.{IsAsked, IsAt, IsNoPath, IsJudged};

use httparse::spans::{EMPTY_HEADER_SPAN, parse_request};
use httparse::{Error, Status};

/// The most fields that the head of a request may have.
const MOST_FIELDS: usize = 64;

/// The path of the plots.
const PLOTS: &[u8] = b"/";

/// The path of the page.
const PAGE: &[u8] = b"/metrics";

/// The path of the server's health.
const HEALTH: &[u8] = b"/healthz";

/// The path that says that the server answers.
const ALIVE: &[u8] = b"/livez";

/// The path that says whether the server takes commands.
const READY: &[u8] = b"/readyz";

/// The method of a request for any of them.
const METHOD: &[u8] = b"GET";

/// What a peer asks for.
#[derive(Clone, Copy, Debug, PartialEq, Eq)]
pub enum Asked {
    /// The page of numbers.
    Page,
    /// The page that draws these numbers in a browser.
    Plots,
    /// Whether the store has stopped.
    Health,
    /// Whether the server answers.
    Alive,
    /// Whether commands are accepted, and committed soon.
    Ready,
    /// Another path.
    OtherPath,
    /// One of these paths, by another method than GET.
    OtherMethod,
    /// The peer has not sent the whole head of a request yet.
    More,
    /// The bytes that the peer has sent can be no request of at most 64 fields.
    Unreadable,
}

/// What a peer asks for by these bytes, which may be the head of a request of HTTP/1.1 or HTTP/1.0.
/// The bytes after the head are not read. Methods and paths are compared to the byte.
pub fn read_head(bytes: &[u8]) -> Asked
    ensures { IsAsked bytes.now result }
{
    let mut fields = [EMPTY_HEADER_SPAN; MOST_FIELDS];
    match parse_request(bytes, &mut fields) {
        Ok(Status::Complete(head)) => judge(head.method.of(bytes), head.path.of(bytes)),
        Ok(Status::Partial) => Asked::More,
        Err(Error::TooManyHeaders) => Asked::Unreadable,
        Err(_) => Asked::Unreadable,
    }
}

/// What a method asks of a path.
fn judge(method: &[u8], path: &[u8]) -> Asked
    ensures { IsJudged method.now path.now result }
{
    match asked_at(path) {
        None => Asked::OtherPath,
        Some(_) if method != METHOD => Asked::OtherMethod,
        Some(asked) => asked,
    }
}

/// What is at a path.
fn asked_at(path: &[u8]) -> Option<Asked>
    ensures some { IfSome result (IsAt path.now) }
    ensures none { IfNone result (IsNoPath path.now) }
{
    if path == PLOTS {
        Some(Asked::Plots)
    } else if path == PAGE {
        Some(Asked::Page)
    } else if path == HEALTH {
        Some(Asked::Health)
    } else if path == ALIVE {
        Some(Asked::Alive)
    } else if path == READY {
        Some(Asked::Ready)
    } else {
        None
    }
}
