// Gifts to the containers of a set, with those that gain, and emptying them. Items are a part of the words, lent as a slice of 64: as an array
// each caller would have to tell that it is one.
ghost use Rattle.std.specs.Prelude.{◌≡◌, ◌%◌, length, get_or, set};
ghost use Rattle.sets.specs.Sets.{◌∪◌};
ghost use Rattle.flow.specs.Links.{given};
ghost use Rattle.flow.specs.Gained.{has_more, gained};
ghost use Rattle.store.specs.Maps.{cleared};

use crate::limits::CONTAINERS;

// Adds the items x to container v. Answers whether it lacked one of them.
fn give_at(items: &mut [u64], v: u8, x: u64) -> bool
    requires { length items.old ≡ 64 }
    ensures { let y = get_or items.old (v % 64) 0 in (items.new ≡ set items.old (v % 64) (y ∪ x)) × (result ≡ has_more y x) }
{
    let i = (v % CONTAINERS) as usize;
    let old = items[i];
    let all = old | x;
    if all == old {
        return false;
    }
    items[i] = all;
    true
}

// Adds the items x to every container of the set r. Answers those that lacked one of them (document 02, Paper 5).
pub fn give(items: &mut [u64], r: u64, x: u64) -> u64
    requires { length items.old ≡ 64 }
    ensures { let l = given items.old r x in (items.new ≡ l) × (result ≡ gained items.old l) }
{
    if x == 0 {
        return 0;
    }
    let mut lacked = r;
    for v in sets::each(r) {
        if !give_at(items, v, x) {
            lacked = sets::without(lacked, v);
        }
    }
    lacked
}

// Makes the items of container v those of x. Answers the set of v alone where it lacked one of them.
pub fn replace_at(items: &mut [u64], v: u8, x: u64) -> u64
    requires { length items.old ≡ 64 }
    ensures { let l = set items.old (v % 64) x in (items.new ≡ l) × (result ≡ gained items.old l) }
{
    let i = (v % CONTAINERS) as usize;
    let old = items[i];
    items[i] = x;
    if old | x == old {
        return 0;
    }
    sets::with(0, v)
}

// Empties container v.
pub fn empty_at(items: &mut [u64], v: u8)
    requires { length items.old ≡ 64 }
    ensures { items.new ≡ set items.old (v % 64) 0 }
{
    items[(v % CONTAINERS) as usize] = 0;
}

// Empties every container of the set r.
pub fn empty(items: &mut [u64], r: u64)
    requires { length items.old ≡ 64 }
    ensures { items.new ≡ cleared items.old r }
{
    for v in sets::each(r) {
        empty_at(items, v);
    }
}
