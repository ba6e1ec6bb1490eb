//! The version of the program, as the command line and a server's page print it.

use std::alloc::AllocError;
use store_layout::LATEST;

/// The line of `pathd --version` begins with the version of the page, and ends with the greatest
/// version of the format.
#[test]
fn both_versions_are_one(rt: HostRuntime) -> Result<(), AllocError> {
    let version = status_page::VERSION;
    let line = format!(in rt.alloc(); "{version} (format versions 1 and {LATEST})")?;
    assert_eq!(rt; cli_words::VERSION, line.as_str());
    Ok(())
}
