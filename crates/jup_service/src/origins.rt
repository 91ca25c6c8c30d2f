//! The origins under which a server's own pages send requests.
ghost use Rattle.std.specs.Prelude.{◌≡◌, IfOk, map, option_map, string_bytes};
ghost use Rattle.jup_service.specs.Servers.{origin_of, server_origins};

use std::alloc::{AllocError, Global};

/// The port that a browser leaves out of an origin.
const DEFAULT_PORT: u16 = 80;

/// Where a server listens.
#[derive(Clone, Copy)]
pub struct Address {
    pub port: u16,
    /// Whether only programs on the same machine reach it.
    pub is_loopback: bool,
    /// Whether it is every address of the machine.
    pub is_wildcard: bool,
}

/// The origins of a server that listens at `host`, with the further one that its command line names, if it names one.
pub fn own_origins(
    alloc: Global,
    host: &str,
    at: Address,
    told: Option<&str>,
) -> Result<Vec<String>, AllocError>
    ensures { IfOk result (λ origins. map string_bytes origins.items ≡ server_origins host.now at (option_map (λ t. t.now) told.entry)) }
{
    let mut origins = Vec::new(alloc);
    if let Some(told) = told {
        origins.push(String::from_str(alloc, told)?)?;
    }
    if at.is_wildcard {
        return Ok(origins);
    }
    origins.push(origin_of(alloc, host, at.port)?)?;
    if at.is_loopback {
        origins.push(origin_of(alloc, "localhost", at.port)?)?;
    }
    Ok(origins)
}

// The origin of a host and a port.
fn origin_of(alloc: Global, host: &str, port: u16) -> Result<String, AllocError>
    ensures { IfOk result (λ origin. string_bytes origin ≡ origin_of host.now port) }
{
    if port == DEFAULT_PORT {
        return format!(in alloc; "http://{host}");
    }
    format!(in alloc; "http://{host}:{port}")
}
