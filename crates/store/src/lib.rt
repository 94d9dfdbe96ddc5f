// Where the maps of document 01 lie: three arrays. A function is lent those that it reads or changes, and no more, so that its type says which.
// Nothing above this crate knows an offset.
//   words        the set of live processes at 0, the items of each container from 1 on, the containers that each process maps from 65 on,
//                those of them that it maps both ways from 81 on, the counts of these mappings from 97 on (document 02, Paper 4)
//   descriptors  32 for each process
//   names        128
#![tactic(auto)]

pub mod blocks;
pub mod cells;
pub mod counts;
mod gifts;
pub mod limits;
pub mod lookups;
pub mod numbers;
mod sorts;
pub mod spread;

// What a call gives: the set `empty` is emptied, then `to` is given the items `given`, then `to2` the items `given2`.
// Flat, and no pairs of items and receivers: the clauses that may not change name the five (`Judged`, `MakesItems`).
#[derive(Clone, Copy)]
pub struct Plan {
    pub empty: u64,
    pub given: u64,
    pub to: u64,
    pub given2: u64,
    pub to2: u64,
}
