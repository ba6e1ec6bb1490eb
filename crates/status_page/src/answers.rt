//! The responses to a peer.

ghost use Rattle.std.specs.Prelude.{◌≡◌, IfOk, string_bytes};
ghost use Rattle.status_page.specs.Response.{page_head, response_text, plots_head, plots_response};

use crate::plots::{plots, policy};
use std::alloc::{AllocError, Global};

/// The response to a question for the server's health, where commands are accepted.
pub const HEALTHY: &str =
    "HTTP/1.1 200 OK\r\nContent-Type: text/plain\r\nContent-Length: 3\r\nConnection: close\r\n\r\nok\n";

/// The response to a question for the server's health, where the store has stopped.
pub const STOPPED: &str =
    "HTTP/1.1 503 Service Unavailable\r\nContent-Type: text/plain\r\nContent-Length: 65\r\nConnection: close\r\n\r\nthe store has stopped: no command is accepted, and lookups go on\n";

/// The response to a question whether commands are accepted, where the flusher or the checkpointer
/// waits for memory.
pub const NO_MEMORY: &str =
    "HTTP/1.1 503 Service Unavailable\r\nContent-Type: text/plain\r\nContent-Length: 83\r\nConnection: close\r\n\r\na thread of the store has no memory: commands wait or will soon, and lookups go on\n";

/// The response to a question whether commands are accepted, where a call of the device hangs.
pub const HANGS: &str =
    "HTTP/1.1 503 Service Unavailable\r\nContent-Type: text/plain\r\nContent-Length: 71\r\nConnection: close\r\n\r\na call of the device hangs: no command is committed, and lookups go on\n";

/// The response to a request for another path.
pub const NOT_FOUND: &str =
    "HTTP/1.1 404 Not Found\r\nContent-Length: 0\r\nConnection: close\r\n\r\n";

/// The response to a request for what is there by another method than GET.
pub const NOT_ALLOWED: &str =
    "HTTP/1.1 405 Method Not Allowed\r\nAllow: GET\r\nContent-Length: 0\r\nConnection: close\r\n\r\n";

/// The response to bytes that are no request.
pub const BAD_REQUEST: &str =
    "HTTP/1.1 400 Bad Request\r\nContent-Length: 0\r\nConnection: close\r\n\r\n";

/// The response that carries a page.
pub fn response(alloc: Global, page: &str) -> Result<String, AllocError>
    ensures { IfOk result (λ text. string_bytes text ≡ response_text page.now) }
{
    let head = page_head(alloc, page.len())?;
    format!(in alloc; "{head}{page}")
}

/// The head of the response that carries a page of `len` bytes.
#[tactic(auto, unfolding(crate::specs::Response::page_head))]
fn page_head(alloc: Global, len: usize) -> Result<String, AllocError>
    ensures { IfOk result (λ text. string_bytes text ≡ page_head len) }
{
    format!(in alloc;
        "HTTP/1.1 200 OK\r\nContent-Type: text/plain; version=0.0.4\r\nContent-Length: {len}\r\nConnection: close\r\n\r\n"
    )
}

/// The response that carries the page of plots.
pub fn plots_response(alloc: Global) -> Result<String, AllocError>
    ensures { IfOk result (λ text. string_bytes text ≡ plots_response) }
{
    let page = plots();
    let head = plots_head(alloc, page.len())?;
    format!(in alloc; "{head}{page}")
}

/// The head of the response that carries a page of plots of `len` bytes.
#[tactic(auto, unfolding(crate::specs::Response::plots_head))]
fn plots_head(alloc: Global, len: usize) -> Result<String, AllocError>
    ensures { IfOk result (λ text. string_bytes text ≡ plots_head len) }
{
    let policy = policy();
    format!(in alloc;
        "HTTP/1.1 200 OK\r\nContent-Type: text/html; charset=utf-8\r\nContent-Security-Policy: {policy}\r\nX-Content-Type-Options: nosniff\r\nContent-Length: {len}\r\nConnection: close\r\n\r\n"
    )
}
