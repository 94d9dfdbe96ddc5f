/// Where a rule forbids items to lie (document 01, The records). A rule that is stored may have any number as its other item.
#[derive(Clone, Copy, Debug, PartialEq, Eq)]
pub enum Condition {
    Forbid { item: u8, set: u64 },
    Separate { item: u8, other: u64 },
    Confine { item: u8, set: u64 },
}

/// A rule as its record states it, whatever its numbers.
#[derive(Clone, Copy, Debug, PartialEq, Eq)]
pub struct Rule {
    pub condition: Condition,
    pub action: u8,
    pub substitute: u8,
}
