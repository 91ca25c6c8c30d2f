//! `jup_star`: sites and the star.

use jup_batch::{BoardBatch, BoardEdits};
use jup_link::Msg;
use jup_star::{
    Delivered, Down, Downs, Entry, Joined, Made, OpenFault, Site, SiteFault, Star, StarFault,
    Undelivered, Up,
};
use jup_window::{Board, Command, EditFault};
use std::alloc::Global;

/// The calls of a site that answer values.
pub fn site_calls() {
    let _: fn(Global, u32, u32, Board) -> Result<Site, OpenFault> = Site::open;
    let _: fn(&mut Site, Global, &Command) -> Result<Made, EditFault> = Site::edit;
    let _: fn(&mut Site, Global, &[Command]) -> Result<Made, EditFault> = Site::edit_batch;
    let _: fn(&mut Site, Global, &Down) -> Result<Option<Up>, SiteFault> = Site::deliver;
    let _: fn(&mut Site, Global, Down) -> Result<Delivered, Undelivered> = Site::deliver_shown;
    let _: fn(&Site) -> u32 = Site::backlog;
}

/// The calls of a star that answer values.
pub fn star_calls() {
    let _: fn(Global, Board, u32) -> Result<Star, OpenFault> = Star::open;
    let _: fn(Global, Board, u32) -> Result<Star, OpenFault> = Star::open_counting;
    let _: fn(&mut Star, Global) -> Result<Joined, StarFault> = Star::join;
    let _: fn(&mut Star, Global, u32, &Up) -> Result<Option<u32>, StarFault> = Star::take;
    let _: fn(&mut Star, Global, u32, u32) -> Result<Downs, StarFault> = Star::fetch;
    let _: fn(&mut Star, u32) -> Result<(), StarFault> = Star::leave;
    let _: fn(&Star, u32) -> Option<usize> = Star::waiting;
    let _: fn(&Star) -> usize = Star::order_len;
}

/// The numbers of the faults, and the messages of a fetch.
pub fn faults() {
    let _: fn(OpenFault) -> u32 = OpenFault::number;
    let _: fn(SiteFault) -> u32 = SiteFault::number;
    let _: fn(StarFault) -> u32 = StarFault::number;
    let _: fn(Downs) -> Vec<Down> = Downs::into_messages;
}

/// `Site::board`.
pub fn shown(site: &Site) -> &Board {
    site.board()
}

/// `Star::board`.
pub fn board(star: &Star) -> &Board {
    star.board()
}

/// `Star::order`.
pub fn order(star: &Star) -> &[Entry] {
    star.order()
}

/// `Downs::as_slice`.
pub fn fetched(downs: &Downs) -> &[Down] {
    downs.as_slice()
}

/// What a site and its star send each other.
pub fn message(msg: Msg<BoardBatch>, goes_up: bool) -> Result<Up, Down> {
    if goes_up {
        Ok(Up::Op(msg))
    } else {
        Err(Down::Op(msg))
    }
}

/// The other messages up, and down.
pub fn other_messages(number: u32) -> ([Up; 2], [Down; 2]) {
    let up = [Up::Ack(number), Up::Ping(number)];
    let down = [Down::Ack(number), Down::Pong(number)];
    (up, down)
}

/// The fields of an edit that was made, and of an entry of the order.
pub fn entry(site: u32, made: Made) -> (Entry, Up) {
    let edit: BoardEdits = made.edit;
    (Entry { site, edit }, made.up)
}
