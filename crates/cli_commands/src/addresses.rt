//! The texts of addresses.

use std::net::SocketAddr;

/// Whether a text is a socket address, or the name of a host and a port. No clause says which names
/// there are: the system looks one up once it is used.
pub fn is_address(text: &str) -> bool {
    if text.parse::<SocketAddr>().is_ok() {
        return true;
    }
    match text.rsplit_once(':') {
        Some((host, port)) => is_name(host) && port.parse::<u16>().is_ok(),
        None => false,
    }
}

/// Whether a text may be the name of a host: letters, digits, dots and hyphens.
fn is_name(text: &str) -> bool {
    let is_of_name = |byte: u8| byte.is_ascii_alphanumeric() || byte == b'.' || byte == b'-';
    !text.is_empty() && text.bytes().all(is_of_name)
}
