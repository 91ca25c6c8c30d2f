//! A hub whose calls wait for nobody.
ghost use Rattle.std.specs.Prelude.{◌≡◌, List, length, IfOk, IfErr};
ghost use Rattle.jup_hub.specs.Passes.{opening_of, IsPassOf};
ghost use Rattle.jup_hub.specs.Histories.{star_through};
ghost use Rattle.jup_hub.specs.declared.view.HubEvent.{HubEvent};

use jup_hub::{Closed, Hub, Pass};

/// Splits a pass and takes it in again, looks for news and closes the hub. It has no handle for waiting, so none of these calls waits.
/// The star is the one after some history from the opening on, which has as many events as [`Hub::close`] gives.
pub fn close_hub(hub: Hub, mut pass: Pass) -> Result<Closed, (Hub, Pass)>
    requires { IsPassOf hub pass }
    ensures closed { IfOk result (λ closed. (log : List HubEvent)
        × (closed.star ≡ star_through (opening_of hub) log) × (closed.events ≡ length log)) }
    ensures held { IfErr result (λ held. IsPassOf held.0 held.1) }
{
    let other = hub.split(&mut pass);
    hub.rejoin(&mut pass, other);
    let _news = hub.news(&mut pass);
    hub.close(pass)
}
