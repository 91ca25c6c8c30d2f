//! A client in a program that has its own sockets.
ghost use Rattle.std.specs.Prelude.{◌≡◌, ◌≤◌, length, IfOk, OnOk, OnErr};
ghost use Rattle.jup_embed.specs.Sessions.{KeepsCopies};

use jup_embed::{Client, EmbedFault};
use jup_window::Command;
use std::alloc::Global;

/// Makes an edit, and moves out the oldest bytes that wait, as far as there is room. A copy of the board that lacked just what the client has
/// not told lacks just that afterwards. A refusal changes nothing.
pub fn edit_and_move_out(
    alloc: Global,
    client: &mut Client,
    command: Command,
    to: &mut [u8],
) -> Result<usize, EmbedFault>
    ensures copies { OnOk result (KeepsCopies client.old client.new) }
    ensures refused { OnErr result (client.new ≡ client.old) }
    ensures fits { IfOk result (λ count. count ≤ length to.old) }
{
    client.edit(alloc, &[command])?;
    Ok(client.move_out(to))
}
