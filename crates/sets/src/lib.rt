// Sets of the numbers 0 to 63, each in one u64. A number i stands for i % 64.
#![tactic(auto)]

ghost use Rattle.std.specs.Prelude.{◌≡◌, ◌%◌};
ghost use Rattle.sets.specs.Sets.{has, only, ◌∪◌, ◌∩◌, without, count, lowest, union_of};

pub mod iter;

pub use iter::each;

// Whether i is a member of x.
pub fn member(x: u64, i: u8) -> bool
    ensures { result ≡ has x (i % 64) }
{
    (x >> (i % 64)) % 2 == 1
}

// The set of i alone.
fn one(i: u8) -> u64
    ensures { result ≡ only (i % 64) }
{
    1 << (i % 64)
}

// x and i.
pub fn with(x: u64, i: u8) -> u64
    ensures { result ≡ x ∪ only (i % 64) }
{
    x | one(i)
}

// x less i.
pub fn without(x: u64, i: u8) -> u64
    ensures { result ≡ without x (i % 64) }
{
    x & !one(i)
}

// x less its lowest member.
pub fn rest(x: u64) -> u64
    ensures { result ≡ without x (lowest x) }
{
    if x == 0 {
        return 0;
    }
    x & (x - 1)
}

pub fn union(x: u64, y: u64) -> u64
    ensures { result ≡ x ∪ y }
{
    x | y
}

pub fn intersection(x: u64, y: u64) -> u64
    ensures { result ≡ x ∩ y }
{
    x & y
}

// How many members x has.
pub fn count(x: u64) -> u32
    ensures { result ≡ count x }
{
    u64::count_ones(x)
}

// The lowest member of x, and 64 where x is empty, as the definition has it. An option comes of each(x).next().
pub fn lowest(x: u64) -> u32
    ensures { result ≡ lowest x }
{
    u64::trailing_zeros(x)
}

// The members of all sets of a slice.
pub fn union_of(rows: &[u64]) -> u64
    ensures { result ≡ union_of rows.now }
{
    let mut x = 0;
    for row in rows {
        x |= row;
    }
    x
}

// Nothing is done. Lent as slices, arrays have their lengths, which the proofs of a caller use.
pub fn lengths(words: &[u64], bytes: &[u8]) {}
