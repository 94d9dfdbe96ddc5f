//! The terms of document 01 as types: kinds of call, refusals, calls and rules as a record states them. The definitions have the same as
//! numbers and as data of their own (`flow`); specs/ says which stands for which.
#![tactic(auto)]

pub mod call;
pub mod kind;
pub mod refusal;
pub mod rule;
