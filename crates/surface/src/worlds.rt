//! `jup_world`, `jup_mixed` and `jup_script`: whole runs of the system.

use jup_mixed::{MixEvent, MixHappened, Mixed};
use jup_script::{ScriptEnd, run_script};
use jup_setting::Slider;
use jup_star::{OpenFault, Site, Star};
use jup_value::Seq;
use jup_window::{Board, EditFault};
use jup_world::{
    Event, Halted, Happened, Reply, Two, TwoEvent, TwoReply, World, pair_slider, pair_toggle,
};
use jup_xform::NoMemory;
use std::alloc::Global;
use std::io::{Read, Write};

/// The calls of a world that answer values.
pub fn world_calls() {
    let _: fn(Global, Board, u32) -> Result<World, OpenFault> = World::open;
    let _: fn(&mut World, Global, &Event) -> Result<Reply, NoMemory> = World::step;
    let _: fn(&mut World, Global, &[Event]) -> Result<(), Halted> = World::run;
    let _: fn(&mut World, Global) -> Result<(), NoMemory> = World::drain;
    let _: fn(&World) -> bool = World::quiet;
}

/// `World::trace`.
pub fn trace(world: &World) -> &[Happened] {
    world.trace()
}

/// `World::opening`.
pub fn opening(world: &World) -> &Board {
    world.opening()
}

/// `World::star`.
pub fn star(world: &World) -> &Star {
    world.star()
}

/// `World::site`.
pub fn site(world: &World, number: u32) -> Option<&Site> {
    world.site(number)
}

/// Two ends over one text, and settings by both paths.
pub fn two_calls() {
    let _: fn(Global, &[char]) -> Result<Two, NoMemory> = Two::open;
    let _: fn(&mut Two, Global, &TwoEvent) -> Result<TwoReply, NoMemory> = Two::step;
    let _: fn(&Two) -> bool = Two::quiet;
    let _: fn(bool, bool, bool) -> (bool, bool) = pair_toggle;
    let _: fn(&Slider, i32, i32) -> Result<(i32, i32), EditFault> = pair_slider;
}

/// `Two::client`.
pub fn client(two: &Two) -> &Seq<char> {
    two.client()
}

/// `Two::server`.
pub fn server(two: &Two) -> &Seq<char> {
    two.server()
}

/// `run_script`.
pub fn script<R: Read + Drop, W: Write>(
    alloc: Global,
    reader: R,
    writer: &mut W,
) -> Result<(), ScriptEnd> {
    run_script(alloc, reader, writer)
}

/// The calls of one site beside strangers that answer values.
pub fn mixed_calls() {
    let _: fn(Global, Board, u32) -> Result<Mixed, OpenFault> = Mixed::open;
    let _: fn(&mut Mixed, Global, &MixEvent) -> Result<Reply, NoMemory> = Mixed::step;
    let _: fn(&Mixed) -> bool = Mixed::quiet;
}

/// `Mixed::trace`.
pub fn mixed_trace(mixed: &Mixed) -> &[MixHappened] {
    mixed.trace()
}

/// `Mixed::opening`.
pub fn mixed_opening(mixed: &Mixed) -> &Board {
    mixed.opening()
}

/// `Mixed::star`.
pub fn mixed_star(mixed: &Mixed) -> &Star {
    mixed.star()
}

/// `Mixed::site`.
pub fn mixed_site(mixed: &Mixed) -> Option<&Site> {
    mixed.site()
}
