//! A star and two sites in one program: both type at one place before either hears of the other, and all come to agree.
#![tactic(auto)]

use jup_star::{Site, Star, is_short};
use jup_text::write_board;
use jup_value::Seq;
use jup_window::{Board, Command, Value, Widget};
use std::alloc::Global;
use std::io::Write;

// A site opens with the star's present board.
fn join(alloc: Global, star: &mut Star) -> anyhow::Result<Site> {
    let joined = star.join(alloc)?;
    let site = Site::open(alloc, joined.site, joined.limit, joined.board)?;
    Ok(site)
}

// A site shows its own edit immediately, and the star takes it.
fn edit(alloc: Global, star: &mut Star, site: &mut Site, command: &Command) -> anyhow::Result<()> {
    let made = site.edit(alloc, command)?;
    star.take(alloc, site.number(), &made.up)?;
    Ok(())
}

// A site shows what the others did.
fn hear(alloc: Global, star: &mut Star, site: &mut Site) -> anyhow::Result<()> {
    for down in star.fetch(alloc, site.number(), 64)?.as_slice() {
        if let Some(owed) = site.deliver(alloc, down)? {
            star.take(alloc, site.number(), &owed)?;
        }
    }
    Ok(())
}

// At the front of text 1 of window 1.
fn insert(letter: char) -> Command {
    Command::Insert {
        win: 1,
        wid: 1,
        place: 0,
        value: Value::Char(letter),
    }
}

// Both type before either hears of the other.
fn type_both(alloc: Global, star: &mut Star, one: &mut Site, two: &mut Site) -> anyhow::Result<()> {
    edit(alloc, star, one, &insert('a'))?;
    edit(alloc, star, two, &insert('x'))
}

// Both hear what the other typed.
fn hear_both(alloc: Global, star: &mut Star, one: &mut Site, two: &mut Site) -> anyhow::Result<()> {
    hear(alloc, star, one)?;
    hear(alloc, star, two)
}

// An empty text 1 in window 1.
fn empty_text(alloc: Global) -> anyhow::Result<Board> {
    let mut board = Board::new(alloc);
    board.add_window(alloc, 1)?;
    board.add_widget(1, 1, Widget::Text(Seq::new(alloc)))?;
    Ok(board)
}

// Boards as texts, one after the other.
fn texts_of(alloc: Global, boards: &[&Board]) -> anyhow::Result<Vec<u8>> {
    let mut text = Vec::new(alloc);
    for board in boards {
        write_board(alloc, board, &mut text)?;
    }
    Ok(text)
}

// Two sites meet at a star. The boards of the star and of the two, as texts.
fn play(alloc: Global, star: &mut Star) -> anyhow::Result<Vec<u8>> {
    let mut one = join(alloc, star)?;
    let mut two = join(alloc, star)?;
    type_both(alloc, star, &mut one, &mut two)?;
    hear_both(alloc, star, &mut one, &mut two)?;
    texts_of(alloc, &[star.board(), one.board(), two.board()])
}

fn main(rt: HostRuntime) -> anyhow::Result<()> {
    let alloc = rt.alloc();
    let board = empty_text(alloc)?;
    if !is_short(&board) {
        return Ok(());
    }
    let mut star = Star::open(alloc, board, 1_000)?;
    let text = play(alloc, &mut star)?;
    rt.stdout().write_all(text.as_slice())?;
    Ok(())
}
