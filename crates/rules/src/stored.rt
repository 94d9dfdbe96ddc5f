// The loaded rules as they are stored, and what is read of them (document 01, The records).
ghost use Rattle.std.specs.Prelude.{◌≡◌, ◌<◌, true, false, [], ◌∷◌, ◌++◌, MatchOption};
ghost use Rattle.flow.specs.Box.{container_count, rule_count};
ghost use Rattle.flow.specs.Records.{condition_of};
ghost use Rattle.terms.specs.Rules.{condition_in, rule_in};
ghost use Rattle.rules.specs.Stored.{condition_at, action_at, substitute_at, count_of, rules_of};
ghost use Rattle.rules.specs.Judging.{touches, by_rests};

use crate::Rules;
use store::limits::CONTAINERS;
use terms::rule::{Condition, Rule};

/// The greatest number of rules.
pub const RULE_COUNT: u8 = 32;

/// The tags of document 01, of which any other than the first two stands for the third.
/// Numbers and no enum, as in records: any byte may lie there, since the layout is C's.
pub const FORBID_TAG: u8 = 0x11;

pub const SEPARATE_TAG: u8 = 0x12;

const CONFINE_TAG: u8 = 0x13;

/// The places in `fields`.
pub const FIELDS_EACH: usize = 4;

pub const TAG_FIELD: usize = 0;

pub const ITEM_FIELD: usize = 1;

pub const ACTION_FIELD: usize = 2;

pub const SUBSTITUTE_FIELD: usize = 3;

pub const COUNT_FIELD: usize = 128;

// The condition as it is stored: its tag, its item, and its set or its second item.
fn parts(condition: Condition) -> (u8, u8, u64)
    ensures { condition_in condition ≡ condition_of result.0 result.1 result.2 }
{
    match condition {
        Condition::Forbid { item, set } => (FORBID_TAG, item, set),
        Condition::Separate { item, other } => (SEPARATE_TAG, item, other),
        Condition::Confine { item, set } => (CONFINE_TAG, item, set),
    }
}

impl Rules {
    /// No rules.
    pub fn new() -> Rules
        ensures { rules_of result.sets result.fields ≡ [] }
    {
        Rules {
            sets: [0u64; 32],
            fields: [0u8; 129],
        }
    }

    /// How many rules are loaded.
    pub fn count(&self) -> u8
        ensures { result ≡ count_of self.now.fields }
    {
        self.fields[COUNT_FIELD].min(RULE_COUNT)
    }

    /// The condition of rule k. A rule's number is a u8, as answers have it, so its bound is asked for here and below.
    pub fn condition(&self, k: u8) -> Condition
        requires { k < rule_count }
        ensures { condition_in result ≡ condition_at self.now.sets self.now.fields k }
    {
        let i = k as usize;
        let at = FIELDS_EACH * i;
        let item = self.fields[at + ITEM_FIELD];
        let set = self.sets[i];
        match self.fields[at + TAG_FIELD] {
            FORBID_TAG => Condition::Forbid { item, set },
            SEPARATE_TAG => Condition::Separate { item, other: set },
            _ => Condition::Confine { item, set },
        }
    }

    // The condition of rule k, where it speaks of an item of the set x; a number stands for its remainder by 64. The stored bytes are asked: to ask
    // the condition that they make costs a third more for each rule that judging goes past. A separate rule is told first, and each way answers by
    // itself: one answer for all costs a third more for each rule that is touched.
    pub(crate) fn touched(&self, k: u8, x: u64) -> Option<Condition>
        requires { k < rule_count }
        ensures { MatchOption result (touches x (by_rests (condition_at self.now.sets self.now.fields k)) ≡ false) (λ c. (condition_in c ≡ condition_at self.now.sets self.now.fields k) × (touches x (by_rests (condition_at self.now.sets self.now.fields k)) ≡ true)) }
    {
        let i = k as usize;
        let at = FIELDS_EACH * i;
        let first = self.fields[at + ITEM_FIELD];
        let separate = self.fields[at + TAG_FIELD] == SEPARATE_TAG;
        if sets::member(x, first) {
            if separate {
                return Some(Condition::Separate {
                    item: first,
                    other: self.sets[i],
                });
            }
            return Some(self.condition(k));
        }
        if separate && sets::member(x, (self.sets[i] % 64) as u8) {
            return Some(self.condition(k));
        }
        None
    }

    /// The action of rule k, as its number: any byte may be stored, and its clause gives it as it is.
    pub fn action(&self, k: u8) -> u8
        requires { k < rule_count }
        ensures { result ≡ action_at self.now.fields k }
    {
        self.fields[FIELDS_EACH * (k as usize) + ACTION_FIELD]
    }

    /// The substitute of rule k.
    pub fn substitute(&self, k: u8) -> u8
        requires { k < rule_count }
        ensures { result ≡ substitute_at self.now.fields k }
    {
        self.fields[FIELDS_EACH * (k as usize) + SUBSTITUTE_FIELD] % CONTAINERS
    }

    /// Loads a rule behind the others.
    pub fn store(&mut self, rule: Rule)
        requires { (count_of self.old.fields < rule_count) × (rule.substitute < container_count) }
        ensures { rules_of self.new.sets self.new.fields ≡ rules_of self.old.sets self.old.fields ++ (rule_in rule ∷ []) }
    {
        let k = self.count();
        let i = k as usize;
        let at = FIELDS_EACH * i;
        let (tag, item, set) = parts(rule.condition);
        self.sets[i] = set;
        self.fields[at + TAG_FIELD] = tag;
        self.fields[at + ITEM_FIELD] = item;
        self.fields[at + ACTION_FIELD] = rule.action;
        self.fields[at + SUBSTITUTE_FIELD] = rule.substitute;
        self.fields[COUNT_FIELD] = k + 1;
    }
}
