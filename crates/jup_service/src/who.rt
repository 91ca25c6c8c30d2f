//! Who is connected.
ghost use Rattle.std.specs.Prelude.{◌≡◌, IfOk, string_bytes};
ghost use Rattle.jup_service.specs.Servers.{who_text};

use std::alloc::{AllocError, Global};

/// What a server says to `GET /who`: the number of its links in a line, and then a line `full` if its order is known to be full.
pub fn who_text(alloc: Global, links: u32, is_full: bool) -> Result<String, AllocError>
    ensures { IfOk result (λ text. string_bytes text ≡ who_text links is_full) }
{
    if is_full {
        format!(in alloc; "{links}\nfull\n")
    } else {
        format!(in alloc; "{links}\n")
    }
}
