// Stores: of the live processes, of one entry, and of items.
ghost use Rattle.std.specs.Prelude.{ℕ, ◌%◌, ◌≡◌, List, set};
ghost use Rattle.flow.specs.Box.{slot};
ghost use Rattle.flow.specs.Calls.{with_live};
ghost use Rattle.store.specs.Maps.{view, with_tables, with_items, cleared, container_set, gifts, replacing, MakesItems};

use crate::Plan;
use crate::gifts::{empty, empty_at, give, replace_at};
use crate::limits::{BLOCK, CONTAINERS, ITEMS_AT, MAPS_AT, NAMES};
use crate::numbers::{Container, Descriptor, Name, Process};

pub fn set_live(words: &mut [u64; 353], x: u64)
    ensures { (d n : List ℕ) → let m = view words.old d n in view words.new d n ≡ with_tables m (with_live m.tables x) }
{
    words[0] = x;
}

pub fn set_descriptor(descriptors: &mut [u8; 512], p: Process, d: Descriptor, e: u8)
    ensures { descriptors.new ≡ set descriptors.old (slot p.0 d.0) e }
{
    let i = BLOCK * (p.0 as usize) + d.0 as usize;
    // By index: `get_mut` does not say what the table ends as.
    if i < descriptors.len() {
        descriptors[i] = e;
    }
}

// The name is taken as it comes round: 128 is 0.
pub fn set_name(names: &mut [u8; 128], n: Name, e: u8)
    ensures { names.new ≡ set names.old (n.0 % 128) e }
{
    names[(n.0 % NAMES) as usize] = e;
}

// Makes the gifts of a plan; nothing is emptied. Answers the containers that gained.
pub fn make_items(words: &mut [u64; 353], plan: Plan) -> u64
    ensures { MakesItems words.old (gifts plan) words.new result }
{
    let items = &mut words[ITEMS_AT..MAPS_AT];
    let first = give(items, plan.to, plan.given);
    let second = give(items, plan.to2, plan.given2);
    first | second
}

// Empties container c and gives it the items x. Answers the containers that gained: c or none. Apart from gifts, so that the compiler keeps
// theirs short.
pub fn replace_items(words: &mut [u64; 353], c: Container, x: u64) -> u64
    ensures { MakesItems words.old (replacing (c.0 % 64) x) words.new result }
{
    replace_at(&mut words[ITEMS_AT..MAPS_AT], c.0, x)
}

// Empties the container of number e, where there is one: a closed entry's has none. By number, as its clause has it (`container_set`).
pub fn empty_container(words: &mut [u64; 353], e: u8)
    ensures { (d n : List ℕ) → let m = view words.old d n in view words.new d n ≡ with_items m (cleared m.items (container_set e)) }
{
    if e < CONTAINERS {
        empty_at(&mut words[ITEMS_AT..MAPS_AT], e);
    }
}

// Empties every container of the set x.
pub fn empty_set(words: &mut [u64; 353], x: u64)
    ensures { (d n : List ℕ) → let m = view words.old d n in view words.new d n ≡ with_items m (cleared m.items x) }
{
    empty(&mut words[ITEMS_AT..MAPS_AT], x);
}
