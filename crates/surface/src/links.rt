//! `jup_link`: the ends of a link.
ghost use Rattle.std.specs.Prelude.{◌≡◌, ◌≤◌, ◌<◌};
ghost use Rattle.jup_link.specs.Links.{IsCount, IsNumber, generated};

use jup_link::{End, LinkFault, Msg};
use jup_xform::{NoMemory, Side, Transform};
use std::alloc::Global;

/// `LinkFault::number`.
pub fn faults() {
    let _: fn(LinkFault) -> u32 = LinkFault::number;
}

/// `End::new`.
pub fn new<T: Transform>(alloc: Global, side: Side) -> End<T> {
    End::new(alloc, side)
}

/// The fields of a message.
pub fn message<T: Transform>(mine: u32, heard: u32, op: T) -> Msg<T> {
    Msg { mine, heard, op }
}

/// `End::reserve_one`.
pub fn reserve_one<T: Transform>(end: &mut End<T>) -> Result<(), NoMemory> {
    end.reserve_one()
}

/// `End::send`.
pub fn send<T: Transform>(end: &mut End<T>, op: T, kept: T) -> Msg<T>
    requires same { kept ≡ op }
    requires room { 1 ≤ end.old.spare }
    requires counted { generated end.old.link < u32.MAX }
{
    end.send(op, kept)
}

/// `End::generate`.
pub fn generate<T: Transform>(end: &mut End<T>, alloc: Global, op: T) -> Result<Msg<T>, NoMemory>
    requires { generated end.old.link < u32.MAX }
{
    end.generate(alloc, op)
}

/// `End::check`.
pub fn check<T: Transform>(end: &End<T>, msg: &Msg<T>) -> Result<(), LinkFault> {
    end.check(msg)
}

/// `End::receive`.
pub fn receive<T: Transform>(end: &mut End<T>, msg: Msg<T>) -> T
    requires number { IsNumber end.old.link msg.mine }
    requires count { IsCount end.old.link msg.heard }
{
    end.receive(msg)
}

/// `End::take_ack`.
pub fn take_ack<T: Transform>(end: &mut End<T>, heard: u32) -> Result<(), LinkFault> {
    end.take_ack(heard)
}

/// `End::owes`, `End::backlog` and `End::ack`.
pub fn acknowledge<T: Transform>(end: &mut End<T>) -> u32 {
    let _owes: bool = end.owes();
    let _backlog: u32 = end.backlog();
    end.ack()
}
