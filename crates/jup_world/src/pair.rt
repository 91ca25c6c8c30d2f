//! Two concurrent settings of one widget, played both ways round.
ghost use Rattle.std.specs.Prelude.{◌≡◌, ◌↔◌, IsOk, IfOk, IfErr};
ghost use Rattle.jup_setting.specs.Sliders.{IsWithin};

use jup_setting::{SetOp, SettingValue, Slider, Toggle};
use jup_window::EditFault;
use jup_xform::meet;

/// Sets one toggle at a client to `c` and at a server to `s` at the same time. The results are what the
/// client's end shows and what the server's end shows, each after the other's setting has come.
pub fn pair_toggle(start: bool, c: bool, s: bool) -> (bool, bool)
    ensures equal { result.0 ≡ result.1 }
    ensures client { result.0 ≡ c }
{
    let mut client = Toggle { on: start };
    let mut server = Toggle { on: start };
    meet(&mut client, &mut server, SetOp::Set(c), SetOp::Set(s));
    (client.on, server.on)
}

/// The same with a slider. A value that the slider does not take is refused.
pub fn pair_slider(start: &Slider, c: i32, s: i32) -> Result<(i32, i32), EditFault>
    ensures accepts { IsOk result ↔ (IsWithin start.now c × IsWithin start.now s) }
    ensures fault { IfErr result (λ fault. fault ≡ EditFault.BadValue) }
    ensures equal { IfOk result (λ ends. ends.0 ≡ ends.1) }
    ensures client { IfOk result (λ ends. ends.0 ≡ c) }
{
    if !c.allowed_by(start) || !s.allowed_by(start) {
        return Err(EditFault::BadValue);
    }
    let mut client = *start;
    let mut server = *start;
    meet(&mut client, &mut server, SetOp::Set(c), SetOp::Set(s));
    Ok((client.value(), server.value()))
}
