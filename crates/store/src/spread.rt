// The reach of a container (document 01, The box).
ghost use Rattle.std.specs.Prelude.{◌≡◌, List, ℕ, ◌-◌, ◌%◌, ◌≤◌, ◌<◌};
ghost use Rattle.sets.specs.Sets.{◌∩◌};
ghost use Rattle.flow.specs.Links.{reach as reached};
ghost use Rattle.store.specs.Maps.{part, view, maps_in, ways_in};
ghost use Rattle.store.specs.Search.{fed_from, comes_next, low_half, high_half, Within, Finds};

use crate::limits::{ALL_PROCESSES, DEVICES, HIGH_AT, MAPS_AT, WAYS_AT};
use crate::numbers::Container;

// The processes in two halves, 0 to 7 and 8 to 15.
const LOW_HALF: u64 = 0xFF;

const HIGH_HALF: u64 = 0xFF00;

// The words, and what the processes of each half map.
#[derive(Clone, Copy)]
struct Rows<'a> {
    words: &'a [u64; 353],
    low: u64,
    high: u64,
    ghost low_within: { Within (part 65 16 words.now) low_half low },
    ghost high_within: { Within (part 65 16 words.now) high_half high },
}

impl<'a> Rows<'a> {
    fn of(words: &'a [u64; 353]) -> Rows<'a>
        ensures { result.words.now ≡ words.now }
    {
        Rows {
            words,
            low: sets::union_of(&words[MAPS_AT..HIGH_AT]),
            high: sets::union_of(&words[HIGH_AT..WAYS_AT]),
        }
    }

    // The processes left are a u64, as all sets are; that they are 16 is asked for where they are gone through.
    // The lowest process of a half that is in the set left and that a container of the set x feeds. Where x has nothing of `all`, which has what that
    // half maps, no row is tried.
    fn fed_half(&self, half: u64, all: u64, left: u64, x: u64) -> Option<u8>
        requires { Within (part 65 16 self.now.words.now) half all × (left < 65536) }
        ensures { Finds (fed_from (part 65 16 self.now.words.now) x) (left ∩ half) result }
    {
        if x & all == 0 {
            return None;
        }
        for p in sets::each(left & half) {
            if x & self.words[MAPS_AT + p as usize] != 0 {
                return Some(p);
            }
        }
        None
    }

    // The lowest process of the set left that a container of the set x feeds, half by half.
    fn fed(&self, left: u64, x: u64) -> Option<u8>
        requires { left < 65536 }
        ensures { Finds (fed_from (part 65 16 self.now.words.now) x) left result }
    {
        // By match: with or_else the proof did not close, and it is as plain.
        match self.fed_half(LOW_HALF, self.low, left, x) {
            Some(p) => Some(p),
            None => self.fed_half(HIGH_HALF, self.high, left, x),
        }
    }

    // A process of the set left that is in the set x or fed from it. Where nothing in x feeds a process no half is tried.
    fn next(&self, left: u64, x: u64) -> Option<u8>
        requires { left < 65536 }
        ensures { Finds (comes_next (part 65 16 self.now.words.now) x) left result }
    {
        let own = (x >> 8) & left;
        if own != 0 {
            return Some(sets::lowest(own) as u8);
        }
        if x & (self.low | self.high) == 0 {
            return None;
        }
        self.fed(left, x)
    }

    // What the process of container v feeds: the containers that it maps both ways. By its container, so that the compiler need not keep a place
    // beside its number.
    fn fed_by(&self, v: u8) -> u64
        requires { (8 ≤ v) × (v < 24) }
        ensures { result ≡ maps_in self.now.words.now (v - 8) ∩ ways_in self.now.words.now (v - 8) }
    {
        let i = v as usize;
        self.words[MAPS_AT - 8 + i] & self.words[WAYS_AT - 8 + i]
    }
}

// The container and everything that links lead to from it. Each process is gone through once at most.
pub fn reach(words: &[u64; 353], u: Container) -> u64
    ensures { (d n : List ℕ) → result ≡ reached (view words.now d n).tables (u.0 % 64) }
{
    let rows = Rows::of(words);
    let mut seen = sets::with(0, u.0);
    // The processes not gone through.
    let mut left = ALL_PROCESSES;
    while let Some(p) = rows.next(left, seen) {
        let v = DEVICES + p;
        seen |= sets::with(rows.fed_by(v), v);
        left = sets::without(left, p);
    }
    seen
}
