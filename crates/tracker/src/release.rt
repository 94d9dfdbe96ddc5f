// What a call empties (document 01, The records), and what it ends the use of, which is emptied in the same call (The box).
ghost use Rattle.std.specs.Prelude.{◌≡◌};
ghost use Rattle.sets.specs.Sets.{◌∩◌};
ghost use Rattle.store.specs.Maps.{with_items, cleared, files, file_set};
ghost use Rattle.terms.specs.Calls.{asked};
ghost use Rattle.tracker.specs.View.{view};
ghost use Rattle.tracker.specs.Rows.{Passes};
ghost use Rattle.tracker.specs.Plans.{held_by, lost_set, lost_for, set_of, emptied_for, gone_of};

use crate::Tracker;
use store::blocks::block_files;
use store::cells::{empty_container, empty_set};
use store::limits::{CLOSED, CONTAINERS, DEVICES, FILES, FIRST_FILE};
use store::lookups::{at_slot, descriptor, in_use, is_fed, maps, name, unused_of};
use store::numbers::{Container, Descriptor, Name, Process};
use terms::call::KnownCall;
use terms::kind::Kind;

// The files and pipes that process p leads to or maps.
pub fn held_by(t: &Tracker, p: u8) -> u64
    ensures { result ≡ held_by (view t.now).tables p }
{
    block_files(&t.descriptors, Process(p)) | (maps(&t.words, Process(p)) & FILES)
}

// What a call may end the use of: what an entry leads to, and unmap's container, where that is a file or pipe, and a set of containers. Entries
// are as they are stored, so closed where there is none. Unmap's is apart, so that the compiler need not keep field a twice.
#[derive(Clone, Copy)]
pub struct Lost {
    pub entry: u8,
    pub unmapped: u8,
    pub held: u64,
}

impl Lost {
    // Nothing.
    const NONE: Lost = Lost {
        entry: CLOSED,
        unmapped: CLOSED,
        held: 0,
    };
}

// What a call that is not refused may end the use of.
pub fn lost_by(t: &Tracker, q: KnownCall) -> Lost
    requires { Passes (view t.now) (asked q) }
    ensures { lost_set result ≡ lost_for (view t.now).tables (asked q) }
{
    let p = Process(q.process);
    match q.kind {
        Kind::Close => Lost {
            entry: descriptor(&t.descriptors, p, Descriptor(q.a)),
            ..Lost::NONE
        },
        Kind::Unmap => Lost {
            unmapped: q.a,
            ..Lost::NONE
        },
        Kind::Unlink => Lost {
            entry: name(&t.names, Name(q.a)),
            ..Lost::NONE
        },
        Kind::Rename => Lost {
            entry: name(&t.names, Name(q.b)),
            ..Lost::NONE
        },
        Kind::Fork => Lost {
            held: held_by(t, q.a),
            ..Lost::NONE
        },
        Kind::Exit => Lost {
            held: sets::with(held_by(t, q.process), DEVICES + q.process),
            ..Lost::NONE
        },
        _ => Lost::NONE,
    }
}

// The container that a call that is not refused empties, whatever its use, if there is one. A fork's child is emptied by its plan, and an exit's
// process is among the lost.
pub fn emptied_by(t: &Tracker, q: KnownCall) -> Option<Container>
    requires { Passes (view t.now) (asked q) }
    ensures { set_of result ≡ emptied_for (view t.now).tables (asked q) }
{
    match q.kind {
        Kind::Start => Some(Container(DEVICES + q.process)),
        Kind::Create | Kind::Pipe => Some(Container(q.c)),
        Kind::Truncate => {
            let c = Container(at_slot(&t.descriptors, Process(q.process), Descriptor(q.a)));
            if is_fed(&t.words, c) { None } else { Some(c) }
        }
        _ => None,
    }
}

// What an entry leads to, where that is a file or pipe that is not in use. The range by comparisons joined by &, as in `rows::fits`.
fn unused(t: &Tracker, e: u8) -> Option<Container>
    ensures { set_of result ≡ gone_of (view t.now).tables (file_set e) }
{
    if !((FIRST_FILE <= e) & (e < CONTAINERS)) {
        return None;
    }
    if in_use(&t.words, &t.descriptors, &t.names, Container(e)) {
        return None;
    }
    Some(Container(e))
}

// Empties a container, if there is one.
pub fn empty(t: &mut Tracker, emptied: Option<Container>)
    ensures { let m = view t.old in view t.new ≡ with_items m (cleared m.items (set_of emptied)) }
{
    if let Some(c) = emptied {
        empty_container(&mut t.words, c.0);
    }
}

// Empties the container of number e, where that is a file or pipe that is not in use.
fn release_one(t: &mut Tracker, e: u8)
    ensures { let m = view t.old in view t.new ≡ with_items m (cleared m.items (gone_of m.tables (file_set e))) }
{
    let gone = unused(t, e);
    empty(t, gone);
}

// Empties each container of the set held that is not in use.
fn release_held(t: &mut Tracker, held: u64)
    ensures { let m = view t.old in view t.new ≡ with_items m (cleared m.items (gone_of m.tables held)) }
{
    if held != 0 {
        let gone = unused_of(&t.words, &t.descriptors, &t.names, held);
        empty_set(&mut t.words, gone);
    }
}

// The same of its files and pipes, one after the other: for a fork, whose child holds none in a tracker that records made.
pub fn release_each(t: &mut Tracker, held: u64)
    ensures { let m = view t.old in view t.new ≡ with_items m (cleared m.items (gone_of m.tables (held ∩ files))) }
{
    for v in sets::each(held) {
        release_one(t, v);
    }
}

// Empties each container that is among the lost and not in use.
pub fn release(t: &mut Tracker, lost: Lost)
    ensures { let m = view t.old in view t.new ≡ with_items m (cleared m.items (gone_of m.tables (lost_set lost))) }
{
    release_one(t, lost.entry);
    release_one(t, lost.unmapped);
    release_held(t, lost.held);
}
