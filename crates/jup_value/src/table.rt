//! The table of the blocks' lengths, in which a place is looked up.
ghost use Rattle.std.specs.Prelude.{◌≡◌, ◌+◌, ◌^◌, ◌<◌, ◌≤◌, [], length, sum, take, slice_index};

// How many lengths are added up before the place is compared with their sum.
const GROUP: usize = 32;

// The sum of the lengths of a group.
fn group_sum(group: &[u32]) -> u32
    requires { sum group.now < 2 ^ 32 }
    ensures { result ≡ sum group.now }
{
    let mut total = 0;
    for count in group {
        total += *count;
    }
    total
}

// Past which groups, from the front, a place is, and how far.
fn skip_from_front(lengths: &[u32], place: u32) -> (usize, u32)
    requires few { sum lengths.now < 2 ^ 32 }
    requires place { place ≤ sum lengths.now }
    ensures within { result.0 ≤ length lengths.now }
    ensures place { place ≡ sum (take result.0 lengths.now) + result.1 }
    ensures more { 0 < result.0 → 0 < result.1 }
{
    let mut at = 0;
    let mut left = place;
    while lengths.len() - at >= GROUP {
        let count = group_sum(&lengths[at..at + GROUP]);
        if left <= count {
            return (at, left);
        }
        left -= count;
        at += GROUP;
    }
    (at, left)
}

// The first block that ends at a place or after it, and the offset of the place in it. It looks from the front.
#[tactic(auto, using(crate::proofs::Layouts::sum_before))]
fn gap_from_front(lengths: &[u32], place: u32) -> (usize, u32)
    requires few { sum lengths.now < 2 ^ 32 }
    requires place { place ≤ sum lengths.now }
    ensures block { result.0 ≤ length lengths.now }
    ensures place { place ≡ sum (take result.0 lengths.now) + result.1 }
    ensures within { result.0 < length lengths.now → result.1 ≤ slice_index lengths.now result.0 }
    ensures first { 0 < place → 0 < result.1 }
    ensures past { result.0 ≡ length lengths.now → lengths.now ≡ [] }
{
    let (mut at, mut left) = skip_from_front(lengths, place);
    while at < lengths.len() {
        let count = lengths[at];
        if left <= count {
            return (at, left);
        }
        left -= count;
        at += 1;
    }
    (at, left)
}

// Before which groups, from the back, a place is, and the sum of the lengths that are left.
fn skip_from_back(lengths: &[u32], total: u32, place: u32) -> (usize, u32)
    requires total { total ≡ sum lengths.now }
    requires place { place ≤ sum lengths.now }
    ensures within { result.0 ≤ length lengths.now }
    ensures before { result.1 ≡ sum (take result.0 lengths.now) }
    ensures beyond { place ≤ result.1 }
{
    let mut at = lengths.len();
    let mut before = total;
    while at >= GROUP {
        let count = group_sum(&lengths[at - GROUP..at]);
        if before - count < place {
            return (at, before);
        }
        at -= GROUP;
        before -= count;
    }
    (at, before)
}

// The same as from the front, looked for from the back.
#[tactic(auto, using(crate::proofs::Layouts::sum_before))]
fn gap_from_back(lengths: &[u32], total: u32, place: u32) -> (usize, u32)
    requires total { total ≡ sum lengths.now }
    requires place { place ≤ sum lengths.now }
    requires positive { 0 < place }
    ensures block { result.0 < length lengths.now }
    ensures place { place ≡ sum (take result.0 lengths.now) + result.1 }
    ensures within { result.1 ≤ slice_index lengths.now result.0 }
    ensures first { 0 < result.1 }
{
    let (mut at, mut before) = skip_from_back(lengths, total, place);
    while at > 0 {
        at -= 1;
        before -= lengths[at];
        if before < place {
            return (at, place - before);
        }
    }
    (0, place)
}

/// The first block that ends at a place or after it, and the offset of the place in it; the number of blocks if there is
/// none. `total` is the sum of the lengths.
pub(crate) fn find_gap(lengths: &[u32], total: u32, place: u32) -> (usize, u32)
    requires total { total ≡ sum lengths.now }
    requires place { place ≤ sum lengths.now }
    ensures block { result.0 ≤ length lengths.now }
    ensures place { place ≡ sum (take result.0 lengths.now) + result.1 }
    ensures within { result.0 < length lengths.now → result.1 ≤ slice_index lengths.now result.0 }
    ensures first { 0 < place → 0 < result.1 }
    ensures past { result.0 ≡ length lengths.now → lengths.now ≡ [] }
{
    // Most items are put at the end, or near it.
    if place <= total / 2 {
        gap_from_front(lengths, place)
    } else {
        gap_from_back(lengths, total, place)
    }
}

/// The block of the item at a place, and its offset in it.
pub(crate) fn find_item(lengths: &[u32], total: u32, place: u32) -> (usize, u32)
    requires total { total ≡ sum lengths.now }
    requires place { place < sum lengths.now }
    ensures block { result.0 < length lengths.now }
    ensures place { place ≡ sum (take result.0 lengths.now) + result.1 }
    ensures within { result.1 < slice_index lengths.now result.0 }
{
    // The item ends where the gap after it is.
    let (block, end) = find_gap(lengths, total, place + 1);
    (block, end - 1)
}
