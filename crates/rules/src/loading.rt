// A rule's fields: refusals 4, 5 and 9; whether the present state breaks it: refusal 12 (document 01, What a record gets).
ghost use Rattle.std.specs.Prelude.{◌≡◌};
ghost use Rattle.flow.specs.Lists.{first_that};
ghost use Rattle.flow.specs.Refusals.{items_fit, same_items, field_tests};
ghost use Rattle.terms.specs.Refusals.{refused};
ghost use Rattle.terms.specs.Rules.{condition_in, rule_in};
ghost use Rattle.store.specs.Maps.{items_in};
ghost use Rattle.rules.specs.Actions.{suits};
ghost use Rattle.rules.specs.Judging.{breaks_with, broken_in};

use crate::action::Action;
use crate::judging::has;
use store::limits::{CONTAINERS, DEVICES, FIRST_FILE, ITEMS};
use store::lookups::items;
use store::numbers::Container;
use terms::refusal::Refusal;
use terms::rule::{Condition, Rule};

// Whether the items are below 64.
fn items_fit(condition: Condition) -> bool
    ensures { result ≡ items_fit (condition_in condition) }
{
    match condition {
        Condition::Forbid { item, .. } | Condition::Confine { item, .. } => item < ITEMS,
        Condition::Separate { item, other } => (item < ITEMS) & (other < ITEMS as u64),
    }
}

// Whether two items that are to be kept apart are equal.
fn same_items(condition: Condition) -> bool
    ensures { result ≡ same_items (condition_in condition) }
{
    match condition {
        Condition::Separate { item, other } => item as u64 == other,
        _ => false,
    }
}

// Whether the substitute suits the action: 0 where the call is inhibited, else a device, a file or a pipe. Ranges by comparisons joined by & and |,
// so that none of them is a branch.
fn substitute_fits(action: Action, substitute: u8) -> bool
    ensures { result ≡ suits action substitute }
{
    match action {
        Action::Inhibit => substitute == 0,
        Action::Divert => {
            (substitute < DEVICES) | ((FIRST_FILE <= substitute) & (substitute < CONTAINERS))
        }
    }
}

/// The lowest of 4, 5 and 9 that applies.
pub fn unfit(rule: Rule) -> Result<(), Refusal>
    ensures { refused result ≡ first_that (field_tests (rule_in rule)) }
{
    let action = Action::try_from(rule.action)?;
    if !(items_fit(rule.condition) & substitute_fits(action, rule.substitute)) {
        return Err(Refusal::OutOfRange);
    }
    if same_items(rule.condition) {
        return Err(Refusal::SameTwice);
    }
    Ok(())
}

// Whether container c breaks the condition, where x are its items.
fn breaks_with(x: u64, condition: Condition, c: u8) -> bool
    ensures { result ≡ breaks_with x (condition_in condition) c }
{
    match condition {
        Condition::Forbid { item, set } => has(x, item as u64) & has(set, c as u64),
        Condition::Separate { item, other } => has(x, item as u64) & has(x, other),
        Condition::Confine { item, set } => has(x, item as u64) & !has(set, c as u64),
    }
}

/// Whether the items break the rule.
pub fn breaks_now(words: &[u64; 353], rule: Rule) -> bool
    ensures { result ≡ broken_in (items_in words.now) (condition_in rule.condition) }
{
    (0..CONTAINERS).any(|c| breaks_with(items(words, Container(c)), rule.condition, c))
}
