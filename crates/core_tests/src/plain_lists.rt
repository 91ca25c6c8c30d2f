//! A sequence beside a plain list with the same calls, over a long run of pseudo-random ones.
use crate::expect::{expect_eq, expect_that};
use jup_value::{Item, Name, NoMemory, Seq};

// Numbers that look random, and are the same in each run.
#[derive(Drop)]
struct Dice {
    state: u64,
}

impl Dice {
    // A number below a bound.
    fn roll(&mut self, bound: u32) -> u32 {
        self.state = self.state.wrapping_mul(6_364_136_223_846_793_005);
        self.state = self.state.wrapping_add(1_442_695_040_888_963_407);
        let number = (self.state >> 33) % u64::from(bound.max(1));
        number as u32
    }

    // A place up to a length: often the first or the last.
    fn place(&mut self, len: u32) -> u32 {
        match self.roll(4) {
            0 => 0,
            1 => len,
            _ => self.roll(len.saturating_add(1)),
        }
    }

    // A name, which an item may have had.
    fn name(&mut self) -> Name {
        Name {
            site: self.roll(5),
            number: self.roll(2000),
        }
    }
}

// Where the plain list has a name.
fn place_in(plain: &[Item<u32>], name: Name) -> Option<usize> {
    plain.iter().position(|item| item.name == name)
}

// Whether both have the same items in the same order.
fn is_same(seq: &Seq<u32>, plain: &[Item<u32>]) -> bool {
    let mut rest = plain.iter();
    for item in seq {
        if rest.next() != Some(item) {
            return false;
        }
    }
    rest.next().is_none()
}

// Puts an item into both, unless its name is held, and says whether both have it or neither.
fn put(
    seq: &mut Seq<u32>,
    plain: &mut Vec<Item<u32>>,
    at: u32,
    item: Item<u32>,
) -> Result<bool, NoMemory> {
    let held = place_in(plain, item.name);
    let found = seq.place_of(item.name);
    if found.is_some() || at > seq.len() || seq.len() == u32::MAX {
        return Ok(held == found.map(|place| place as usize));
    }
    seq.reserve_one()?;
    seq.insert(at, item);
    let place = plain.len().min(at as usize);
    if plain.insert(place, item).is_err() {
        return Err(NoMemory);
    }
    Ok(held.is_none())
}

// Takes the item at a place out of both, and says whether both gave the same.
fn take(seq: &mut Seq<u32>, plain: &mut Vec<Item<u32>>, at: u32) -> bool {
    if at >= seq.len() || at as usize >= plain.len() {
        return seq.is_empty() && plain.is_empty();
    }
    seq.get(at) == plain.get(at as usize) && seq.remove(at) == plain.remove(at as usize)
}

// Gives the item at a place another value in both, and says whether both then have the same there.
fn set_value(seq: &mut Seq<u32>, plain: &mut [Item<u32>], at: u32, value: u32) -> bool {
    if at >= seq.len() || at as usize >= plain.len() {
        return seq.is_empty() && plain.is_empty();
    }
    seq.set_value(at, value);
    plain[at as usize].value = value;
    seq.get(at) == plain.get(at as usize)
}

// One call of both: often another value, else an insertion more often than not while both grow, else a removal.
fn play(
    dice: &mut Dice,
    seq: &mut Seq<u32>,
    plain: &mut Vec<Item<u32>>,
    grows: bool,
) -> Result<bool, NoMemory> {
    let len = seq.len();
    if dice.roll(4) == 0 {
        let at = dice.place(len.saturating_sub(1));
        let value = dice.roll(1000);
        return Ok(set_value(seq, plain, at, value));
    }
    if (dice.roll(8) == 0) == grows {
        let at = dice.place(len.saturating_sub(1));
        return Ok(take(seq, plain, at));
    }
    let at = dice.place(len);
    let name = dice.name();
    let value = dice.roll(1000);
    put(seq, plain, at, Item { name, value })
}

#[test]
fn long_run_agrees_with_a_plain_list(rt: HostRuntime) {
    let mut dice = Dice { state: 7 };
    let mut seq = Seq::new(rt.alloc());
    let mut plain = Vec::new(rt.alloc());
    for step in 0..6000u32 {
        let grows = step % 2000 < 1200;
        let agree = play(&mut dice, &mut seq, &mut plain, grows).expect(&rt, "memory");
        expect_eq(&rt, (step, agree), (step, true));
        if step % 50 == 0 {
            expect_eq(&rt, (step, is_same(&seq, &plain)), (step, true));
        }
        if step % 500 == 0 {
            seq = seq.copy(rt.alloc()).expect(&rt, "memory");
        }
    }
    expect_that(&rt, is_same(&seq, &plain));
}
