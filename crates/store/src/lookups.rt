// Looking things up. Every number but a name's in `name` and a slot's in `at_slot` is taken as it is: past a table's end stands what the
// definitions say.
#![tactic(auto, unfolding(crate::specs::Maps::part))]

ghost use Rattle.std.specs.Prelude.{ℕ, ◌%◌, ◌≡◌, true, false, not, ◌&&◌, List, get_or, length};
ghost use Rattle.sets.specs.Sets.{has, only, those, ◌∪◌, union_of};
ghost use Rattle.flow.specs.Lists.{is_in};
ghost use Rattle.flow.specs.Box.{is_target, slot, closed, feeders_of};
ghost use Rattle.flow.specs.Links.{used, is_fed};
ghost use Rattle.store.specs.Maps.{part, view, maps_before, fed_up_to};

use crate::limits::{
    ALL_PROCESSES, BLOCK, CLOSED, CONTAINERS, DEVICES, FILES, FIRST_FILE, ITEMS_AT, MAPS_AT, NAMES,
    PROCESS_CONTAINERS, PROCESSES, READS_AT, TARGETS, WAYS_AT,
};
use crate::numbers::{Container, Descriptor, Name, Process};

// Whether i is a member of x; no number from 64 on is, where sets::member takes the remainder.
pub fn holds(x: u64, i: u8) -> bool
    ensures { result ≡ has x i }
{
    i < CONTAINERS && sets::member(x, i)
}

// Whether an entry leads to a device, a file or a pipe.
pub fn leads(e: u8) -> bool
    ensures { result ≡ is_target e }
{
    holds(TARGETS, e)
}

// An entry of a table: closed past its end.
pub fn entry(table: &[u8], i: usize) -> u8
    ensures { result ≡ get_or table.now i closed }
{
    table.get(i).copied().unwrap_or(CLOSED)
}

pub fn descriptor(descriptors: &[u8; 512], p: Process, d: Descriptor) -> u8
    ensures { result ≡ get_or descriptors.now (slot p.0 d.0) closed }
{
    entry(descriptors, BLOCK * (p.0 as usize) + d.0 as usize)
}

// The same, with slots taken as they come round: 512 is 0. No bound is asked, which spares a truncate three instructions.
pub fn at_slot(descriptors: &[u8; 512], p: Process, d: Descriptor) -> u8
    ensures { result ≡ get_or descriptors.now (slot p.0 d.0 % 512) closed }
{
    descriptors[(BLOCK * (p.0 as usize) + d.0 as usize) % 512]
}

// Names are taken as they come round: 128 is 0.
pub fn name(names: &[u8; 128], n: Name) -> u8
    ensures { result ≡ get_or names.now (n.0 % 128) closed }
{
    names[(n.0 % NAMES) as usize]
}

pub fn is_open(descriptors: &[u8; 512], p: Process, d: Descriptor) -> bool
    ensures { result ≡ is_target (get_or descriptors.now (slot p.0 d.0) closed) }
{
    leads(descriptor(descriptors, p, d))
}

pub fn is_bound(names: &[u8; 128], n: Name) -> bool
    ensures { result ≡ is_target (get_or names.now n.0 closed) }
{
    leads(entry(names, n.0 as usize))
}

// The set of live processes.
pub fn live(words: &[u64; 353]) -> u64
    ensures { result ≡ get_or words.now 0 0 }
{
    words[0]
}

pub fn is_live(words: &[u64; 353], p: Process) -> bool
    ensures { result ≡ has (get_or words.now 0 0) p.0 }
{
    holds(words[0], p.0)
}

// The containers that process p maps: those that feed it. Each part of the words has lookups of its own, a line each: one for all parts would
// take numbers without a type.
pub fn maps(words: &[u64; 353], p: Process) -> u64
    ensures { (d n : List ℕ) → result ≡ feeders_of (view words.now d n).tables p.0 }
{
    words[MAPS_AT..WAYS_AT]
        .get(p.0 as usize)
        .copied()
        .unwrap_or(0)
}

// The items of container c.
pub fn items(words: &[u64; 353], c: Container) -> u64
    ensures { result ≡ get_or (part 1 64 words.now) c.0 0 }
{
    words[ITEMS_AT..MAPS_AT]
        .get(c.0 as usize)
        .copied()
        .unwrap_or(0)
}

// Whether c stands in a table. Each entry is asked, whatever was found, so that the compiler takes many at once.
fn stands(table: &[u8], c: u8) -> bool
    ensures { result ≡ is_in c table.now }
{
    let mut found = false;
    for &e in table {
        found |= e == c;
    }
    found
}

// The containers that some process maps.
fn mapped(words: &[u64; 353]) -> u64
    ensures { result ≡ union_of (part 65 16 words.now) }
{
    sets::union_of(&words[MAPS_AT..WAYS_AT])
}

// The members of x that stand in no entry of a table.
fn absent(table: &[u8], x: u64) -> u64
    ensures { result ≡ those (λ c. has x c && not (is_in c table.now)) }
{
    let mut found = 0;
    for v in sets::each(x) {
        if !stands(table, v) {
            found = sets::with(found, v);
        }
    }
    found
}

// The containers that some process may map both ways.
fn ways_set(words: &[u64; 353]) -> u64
    ensures { result ≡ union_of (part 81 16 words.now) }
{
    sets::union_of(&words[WAYS_AT..READS_AT])
}

// Those that some process maps both ways.
fn fed_set(words: &[u64; 353]) -> u64
    ensures { result ≡ fed_up_to words.now 16 }
{
    let mut fed = 0;
    for (maps, ways) in words[MAPS_AT..WAYS_AT]
        .iter()
        .zip(&words[WAYS_AT..READS_AT])
    {
        fed |= *maps & *ways;
    }
    fed
}

// Whether a link leads into the file, pipe or device c.
pub fn is_fed(words: &[u64; 353], c: Container) -> bool
    ensures { (d n : List ℕ) → result ≡ is_fed (view words.now d n).tables c.0 }
{
    holds(ways_set(words), c.0) && holds(fed_set(words), c.0)
}

// Whether container c is in use.
pub fn in_use(words: &[u64; 353], descriptors: &[u8; 512], names: &[u8; 128], c: Container) -> bool
    ensures { result ≡ used (maps_before words descriptors names).tables c.0 }
{
    if c.0 < DEVICES {
        return true;
    }
    if c.0 < FIRST_FILE {
        return is_live(words, Process(c.0 - DEVICES));
    }
    stands(names, c.0) || stands(descriptors, c.0) || holds(mapped(words), c.0)
}

// Of the set x, the containers that are not in use. A table is gone through only for those that nothing asked before keeps.
pub fn unused_of(words: &[u64; 353], descriptors: &[u8; 512], names: &[u8; 128], x: u64) -> u64
    ensures { result ≡ those (λ c. has x c && not (used (maps_before words descriptors names).tables c)) }
{
    let running = (live(words) & ALL_PROCESSES) << 8;
    let dead = (x & PROCESS_CONTAINERS) & !running;
    let unnamed = absent(names, x & FILES);
    if unnamed == 0 {
        return dead;
    }
    dead | absent(descriptors, unnamed & !mapped(words))
}
