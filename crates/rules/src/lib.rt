//! Rules above the storage of items (document 01, The records): how they are stored, what a record's rule is refused for, and which of them a
//! planned call breaks. Judging stores nothing.
#![tactic(auto)]

pub mod action;
pub mod judging;
pub mod loading;
pub mod stored;

/// The loaded rules. Their layout is C's (embed/pomtvia.h), which has `sets` and `fields` in parallel: rule k has its tag, item, action and
/// substitute in four fields in a row, and its set, or its second item, in `sets`; the last field counts the rules.
#[repr(C)]
#[derive(Clone, Copy)]
pub struct Rules {
    pub sets: [u64; 32],
    pub fields: [u8; 129],
}
