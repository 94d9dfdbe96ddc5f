// Mappings counted (document 02, Paper 4): of each process the set of the containers that it maps, that of those mapped both ways, and for each
// container two bytes with the counts. A count is 0 where the container is not in the set, and at least 1 where it has to be: whatever is stored
// counts something.
ghost use Rattle.std.specs.Prelude.{ℕ, ◌+◌, ◌<◌, ◌≡◌, not, List, [], eqb, leb, set};
ghost use Rattle.std.proofs.Math.Seq.{paste};
ghost use Rattle.flow.specs.Box.{mapping_limit, to_read, both_ways, mappings, row_of, no_mappings};
ghost use Rattle.flow.specs.Calls.{raised, lowered, with_row, with_rows};
ghost use Rattle.store.specs.Maps.{part, view, with_tables, byte_of, put_byte};
ghost use Rattle.store.specs.Sorts.{sort_in};

use crate::limits::{BOTHS_AT, CONTAINERS, COUNTS, FULL, MAPS_AT, PROCESSES, READS_AT, WAYS_AT};
use crate::numbers::{Container, Process, Sort};

// The words that have the counts of a process and a container: its two sets, and its bytes.
#[derive(Clone, Copy)]
pub struct Cells {
    pub maps: u64,
    pub ways: u64,
    pub reads: u64,
    pub boths: u64,
}

impl Cells {
    ghost use Rattle.store.specs.Pairs.{cells_in, read_in, both_in, Turned, stored};

    // Those of process p and container c.
    fn at(words: &[u64; 353], p: Process, c: Container) -> Cells
        requires { (p.0 < 16) × (c.0 < 64) }
        ensures { result ≡ cells_in words.now p.0 c.0 }
    {
        let i = p.0 as usize;
        let k = COUNTS * i + (c.0 / 8) as usize;
        Cells {
            maps: words[MAPS_AT + i],
            ways: words[WAYS_AT + i],
            reads: words[READS_AT + k],
            boths: words[BOTHS_AT + k],
        }
    }

    // Stores them.
    fn store(self, words: &mut [u64; 353], p: Process, c: Container)
        requires { (p.0 < 16) × (c.0 < 64) }
        ensures { words.new ≡ stored words.old p.0 c.0 self }
    {
        let i = p.0 as usize;
        let k = COUNTS * i + (c.0 / 8) as usize;
        words[MAPS_AT + i] = self.maps;
        words[WAYS_AT + i] = self.ways;
        words[READS_AT + k] = self.reads;
        words[BOTHS_AT + k] = self.boths;
    }

    // How many mappings for reading they count.
    fn read_count(self, c: Container) -> u8
        requires { c.0 < 64 }
        ensures { result ≡ read_in self c.0 }
    {
        if !sets::member(self.maps, c.0) {
            return 0;
        }
        let n = byte(self.reads, c.0 % 8);
        if n == 0 && !sets::member(self.ways, c.0) {
            return 1;
        }
        n
    }

    // How many both ways.
    fn both_count(self, c: Container) -> u8
        requires { c.0 < 64 }
        ensures { result ≡ both_in self c.0 }
    {
        if !sets::member(self.maps & self.ways, c.0) {
            return 0;
        }
        byte(self.boths, c.0 % 8).max(1)
    }

    // The cells with n mappings for reading.
    fn with_reads(self, c: Container, n: u8) -> Cells
        requires { c.0 < 64 }
        ensures { Turned self result c.0 n (both_in self c.0) }
    {
        if sets::member(self.maps & self.ways, c.0) {
            return Cells {
                reads: put(self.reads, c.0 % 8, n),
                ..self
            };
        }
        if n == 0 {
            return Cells {
                maps: sets::without(self.maps, c.0),
                ..self
            };
        }
        Cells {
            maps: sets::with(self.maps, c.0),
            ways: sets::without(self.ways, c.0),
            reads: put(self.reads, c.0 % 8, n),
            ..self
        }
    }

    // The cells with n mappings both ways.
    fn with_boths(self, c: Container, n: u8) -> Cells
        requires { c.0 < 64 }
        ensures { Turned self result c.0 (read_in self c.0) n }
    {
        let r = self.read_count(c);
        if n != 0 {
            return Cells {
                maps: sets::with(self.maps, c.0),
                ways: sets::with(self.ways, c.0),
                reads: put(self.reads, c.0 % 8, r),
                boths: put(self.boths, c.0 % 8, n),
            };
        }
        if r == 0 {
            return Cells {
                maps: sets::without(self.maps, c.0),
                ..self
            };
        }
        Cells {
            ways: sets::without(self.ways, c.0),
            ..self
        }
    }
}

// The byte of number j in a word: bytes packed, as the words are laid out for C.
#[tactic(auto, unfolding(crate::specs::Maps::byte_of))]
fn byte(w: u64, j: u8) -> u8
    requires { j < 8 }
    ensures { result ≡ byte_of w j }
{
    ((w >> (8 * j)) % 256) as u8
}

// The word with that byte made n.
fn put(w: u64, j: u8, n: u8) -> u64
    requires { j < 8 }
    ensures { result ≡ put_byte w j n }
{
    w - (((w >> (8 * j)) % 256) << (8 * j)) + ((n as u64) << (8 * j))
}

// How many mappings of a sort process p has of container c.
fn count(words: &[u64; 353], x: Sort, p: Process, c: Container) -> u8
    ensures { (d n : List ℕ) → result ≡ mappings (view words.now d n).tables (sort_in x) p.0 c.0 }
{
    if p.0 >= PROCESSES || c.0 >= CONTAINERS {
        return 0;
    }
    let cells = Cells::at(words, p, c);
    match x {
        Sort::ToRead => cells.read_count(c),
        Sort::BothWays => cells.both_count(c),
    }
}

// Whether it has one.
pub fn maps(words: &[u64; 353], x: Sort, p: Process, c: Container) -> bool
    ensures { (d n : List ℕ) → result ≡ not (eqb (mappings (view words.now d n).tables (sort_in x) p.0 c.0) 0) }
{
    count(words, x, p, c) != 0
}

// Whether it has 255 of them.
pub fn is_full(words: &[u64; 353], x: Sort, p: Process, c: Container) -> bool
    ensures { (d n : List ℕ) → result ≡ leb mapping_limit (mappings (view words.now d n).tables (sort_in x) p.0 c.0) }
{
    count(words, x, p, c) == FULL
}

// Stores a count of process p and container c: n of the sort.
fn recount(words: &mut [u64; 353], x: Sort, p: Process, c: Container, n: u8)
    requires { (p.0 < 16) × (c.0 < 64) }
    ensures { (d m : List ℕ) → let v = view words.old d m in view words.new d m ≡ with_tables v (with_row v.tables (sort_in x) p.0 (set (row_of v.tables (sort_in x) p.0) c.0 n)) }
{
    let old = Cells::at(words, p, c);
    match x {
        Sort::ToRead => old.with_reads(c, n).store(words, p, c),
        Sort::BothWays => old.with_boths(c, n).store(words, p, c),
    }
}

// One mapping of a sort more.
pub fn raise(words: &mut [u64; 353], x: Sort, p: Process, c: Container)
    requires { (p.0 < 16) × (c.0 < 64) × (mappings (view words.old [] []).tables (sort_in x) p.0 c.0 < 255) }
    ensures { (d n : List ℕ) → let m = view words.old d n in view words.new d n ≡ with_tables m (raised m.tables (sort_in x) p.0 c.0) }
{
    let n = count(words, x, p, c);
    recount(words, x, p, c, n + 1);
}

// One less. Apart from `raise`: one function of both would have to be told which, and what it requires.
pub fn lower(words: &mut [u64; 353], x: Sort, p: Process, c: Container)
    requires { (p.0 < 16) × (c.0 < 64) × (0 < mappings (view words.old [] []).tables (sort_in x) p.0 c.0) }
    ensures { (d n : List ℕ) → let m = view words.old d n in view words.new d n ≡ with_tables m (lowered m.tables (sort_in x) p.0 c.0) }
{
    let n = count(words, x, p, c);
    recount(words, x, p, c, n - 1);
}

// Makes the eight words of counts from `at` on those from `source` on. Inlined, so that the compiler moves two words at a time.
#[inline(always)]
fn copy_counts(words: &mut [u64; 353], source: usize, at: usize)
    requires { (source < 346) × (at < 346) }
    ensures { words.new ≡ paste words.old at (part source 8 words.old) 8 }
{
    words.copy_within(source..source + COUNTS, at);
}

// Makes the mappings of one process those of another. Where there are none no count is copied.
pub fn copy_rows(words: &mut [u64; 353], from: Process, to: Process)
    requires { (from.0 < 16) × (to.0 < 16) }
    ensures { (d n : List ℕ) → let m = view words.old d n in let t = m.tables in view words.new d n ≡ with_tables m (with_rows t to.0 (row_of t to_read from.0) (row_of t both_ways from.0)) }
{
    let i = from.0 as usize;
    let j = to.0 as usize;
    let maps = words[MAPS_AT + i];
    let ways = words[WAYS_AT + i];
    words[MAPS_AT + j] = maps;
    words[WAYS_AT + j] = ways;
    if maps != 0 {
        copy_counts(words, READS_AT + COUNTS * i, READS_AT + COUNTS * j);
        copy_counts(words, BOTHS_AT + COUNTS * i, BOTHS_AT + COUNTS * j);
    }
}

// Ends the mappings of process p.
pub fn clear_rows(words: &mut [u64; 353], p: Process)
    requires { p.0 < 16 }
    ensures { (d n : List ℕ) → let m = view words.old d n in view words.new d n ≡ with_tables m (with_rows m.tables p.0 no_mappings no_mappings) }
{
    words[MAPS_AT + p.0 as usize] = 0;
}
