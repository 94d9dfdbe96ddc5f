// The tables after a call (document 01, The records; document 02, Paper 4): live processes, mappings, descriptors and names.
ghost use Rattle.std.specs.Prelude.{ℕ, ◌<◌, ◌%◌, ◌≡◌, List, get_or, set};
ghost use Rattle.sets.specs.Sets.{only, ◌∪◌};
ghost use Rattle.flow.specs.Box.{closed, slot};
ghost use Rattle.flow.specs.Calls.{fork as forking, exit as exiting, map_both, with_live, tables_by};
ghost use Rattle.store.specs.Maps.{view as maps_of, with_tables};
ghost use Rattle.store.specs.Sorts.{sort_in};
ghost use Rattle.terms.specs.Calls.{asked};
ghost use Rattle.terms.specs.Kinds.{kind_in};
ghost use Rattle.tracker.specs.View.{view};
ghost use Rattle.tracker.specs.Rows.{tables_for, Passes};
ghost use Rattle.tracker.specs.Plans.{GivesOnce};
ghost use Rattle.tracker.specs.Worked.{mapping};

use crate::Tracker;
use store::blocks::{close_block, copy_block};
use store::cells::{set_descriptor, set_live, set_name};
use store::counts::{clear_rows, copy_rows, lower, raise};
use store::limits::CLOSED;
use store::lookups::{descriptor, live, name};
use store::numbers::{Container, Descriptor, Name, Process, Sort};
use terms::call::KnownCall;
use terms::kind::Kind;

// Makes process p live.
#[tactic(auto, using(crate::proofs::Facts::below16), unfolding(store::specs::Maps::view))]
fn start(words: &mut [u64; 353], p: u8)
    requires { p < 16 }
    ensures { (d n : List ℕ) → let m = maps_of words.old d n in maps_of words.new d n ≡ with_tables m (with_live m.tables (m.tables.live ∪ only p)) }
{
    let x = live(words);
    set_live(words, sets::with(x, p));
}

// Descriptor b of process p leads where a does.
fn dup(descriptors: &mut [u8; 512], p: u8, a: u8, b: u8)
    ensures { descriptors.new ≡ set descriptors.old (slot p b) (get_or descriptors.old (slot p a) closed) }
{
    let to = descriptor(descriptors, Process(p), Descriptor(a));
    set_descriptor(descriptors, Process(p), Descriptor(b), to);
}

// Name b leads where a does. As dup, but names are a table of another type, and of no process.
fn link(names: &mut [u8; 128], a: u8, b: u8)
    ensures { names.new ≡ set names.old (b % 128) (get_or names.old (a % 128) closed) }
{
    let to = name(names, Name(a));
    set_name(names, Name(b), to);
}

// Name b leads where a did, and a is unbound.
fn rename(names: &mut [u8; 128], a: u8, b: u8)
    ensures { names.new ≡ set (set names.old (a % 128) closed) (b % 128) (get_or names.old (a % 128) closed) }
{
    let to = name(names, Name(a));
    set_name(names, Name(a), CLOSED);
    set_name(names, Name(b), to);
}

// The child is live, with the mappings and descriptors of process p.
pub fn fork(t: &mut Tracker, p: u8, child: u8)
    requires { (p < 16) × (child < 16) }
    ensures { let m = view t.old in view t.new ≡ with_tables m (tables_by m.tables p child 0 0 forking) }
{
    let z = live(&t.words);
    copy_rows(&mut t.words, Process(p), Process(child));
    set_live(&mut t.words, sets::with(z, child));
    copy_block(&mut t.descriptors, Process(p), Process(child));
}

// Process p is dead, its descriptors are closed and its mappings ended.
fn exit(t: &mut Tracker, p: u8)
    requires { p < 16 }
    ensures { let m = view t.old in view t.new ≡ with_tables m (tables_by m.tables p 0 0 0 exiting) }
{
    let z = live(&t.words);
    clear_rows(&mut t.words, Process(p));
    set_live(&mut t.words, sets::without(z, p));
    close_block(&mut t.descriptors, Process(p));
}

// Makes the tables those after a map read or a map both that is not refused: one mapping of the sort more.
fn map(t: &mut Tracker, sort: Sort, q: KnownCall)
    requires { Passes (view t.old) (asked q) × (kind_in q.kind ≡ mapping (sort_in sort)) }
    ensures { let m = view t.old in view t.new ≡ with_tables m (tables_for m.tables (asked q)) }
{
    let to = descriptor(&t.descriptors, Process(q.process), Descriptor(q.a));
    raise(&mut t.words, sort, Process(q.process), Container(to));
}

// Makes the tables those after a call that is not refused. One match over the kinds: a function for each table took 18 to 41 instructions more a
// call.
pub fn change_tables(t: &mut Tracker, q: KnownCall)
    requires { Passes (view t.old) (asked q) }
    ensures { let m = view t.old in view t.new ≡ with_tables m (tables_for m.tables (asked q)) }
{
    let p = Process(q.process);
    let a = q.a;
    let b = q.b;
    let c = q.c;
    match q.kind {
        Kind::Start => start(&mut t.words, q.process),
        Kind::OpenName => {
            let to = name(&t.names, Name(a));
            set_descriptor(&mut t.descriptors, p, Descriptor(b), to);
        }
        Kind::Create => {
            set_descriptor(&mut t.descriptors, p, Descriptor(b), c);
            set_name(&mut t.names, Name(a), c);
        }
        Kind::Pipe => {
            set_descriptor(&mut t.descriptors, p, Descriptor(a), c);
            set_descriptor(&mut t.descriptors, p, Descriptor(b), c);
        }
        Kind::Device => set_descriptor(&mut t.descriptors, p, Descriptor(a), b),
        Kind::Dup => dup(&mut t.descriptors, q.process, a, b),
        Kind::Close => set_descriptor(&mut t.descriptors, p, Descriptor(a), CLOSED),
        Kind::MapRead => map(t, Sort::ToRead, q),
        Kind::MapBoth => map(t, Sort::BothWays, q),
        Kind::Unmap => lower(&mut t.words, Sort::from(b), p, Container(a)),
        Kind::Unlink => set_name(&mut t.names, Name(a), CLOSED),
        Kind::Rename => rename(&mut t.names, a, b),
        Kind::Link => link(&mut t.names, a, b),
        Kind::Fork => fork(t, q.process, a),
        Kind::Exit => exit(t, q.process),
        Kind::Read | Kind::Write | Kind::Truncate | Kind::Label => {}
    }
}

// The same of the calls that give once: a mapping more for reading, or nothing.
#[tactic(auto, unfolding(crate::specs::Rows::tables_for, flow::specs::Calls::tables_by, crate::specs::Plans::gives_by))]
pub fn raise_read(t: &mut Tracker, q: KnownCall)
    requires { Passes (view t.old) (asked q) × GivesOnce (asked q) }
    ensures { let m = view t.old in view t.new ≡ with_tables m (tables_for m.tables (asked q)) }
{
    if q.kind == Kind::MapRead {
        map(t, Sort::ToRead, q);
    }
}

// The same of a map both: a mapping more both ways.
pub fn raise_both(t: &mut Tracker, q: KnownCall)
    requires { Passes (view t.old) (asked q) × (kind_in q.kind ≡ map_both) }
    ensures { let m = view t.old in view t.new ≡ with_tables m (tables_for m.tables (asked q)) }
{
    map(t, Sort::BothWays, q);
}
