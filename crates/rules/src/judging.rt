// Whether a planned call breaks rules that were whole, by the items before it (document 01, What a record gets).
ghost use Rattle.std.specs.Prelude.{ℕ, ◌<◌, ◌≡◌, not, ◌&&◌, ◌||◌, List, eqb};
ghost use Rattle.sets.specs.Sets.{has as has_of, ◌∩◌};
ghost use Rattle.flow.specs.Box.{rule_count};
ghost use Rattle.flow.specs.Links.{meets};
ghost use Rattle.store.specs.Maps.{items_in};
ghost use Rattle.rules.specs.Judging.{gets as gets_of, only_if, Held, Met, meet as meet_of, breaks_rule, AnewFrom, Judged};

use crate::Rules;
use store::Plan;
use store::limits::ITEMS;
use store::lookups::items;
use store::numbers::Container;
use terms::rule::Condition;

/// Whether i is a member of x; no number from 64 on is. By a u64, since the other item of a stored rule is one; and by what is left without i, so
/// that the compiler makes one mask of an item that is asked of several sets.
pub fn has(x: u64, i: u64) -> bool
    ensures { result ≡ has_of x i }
{
    (i < ITEMS as u64) && sets::without(x, i as u8) != x
}

// The set x where b holds, else the empty set.
fn only_if(b: bool, x: u64) -> u64
    ensures { result ≡ only_if b x }
{
    if b { x } else { 0 }
}

// The containers that get item i. No item is past 63, which is asked once for both gifts.
fn gets(plan: Plan, i: u64) -> u64
    ensures { result ≡ gets_of plan i }
{
    if ITEMS as u64 <= i {
        return 0;
    }
    only_if(has(plan.given, i), plan.to) | only_if(has(plan.given2, i), plan.to2)
}

// The items of the containers of the set.
fn held(words: &[u64; 353], set: u64) -> u64
    ensures { Held (items_in words.now) set result }
{
    let mut found = 0u64;
    for v in sets::each(set) {
        found |= items(words, Container(v));
    }
    found
}

// The items that the containers of the set hold once the plan is made.
fn met(words: &[u64; 353], plan: Plan, set: u64) -> u64
    ensures { Met (items_in words.now) plan set result }
{
    let kept = held(words, set & !plan.empty);
    kept | only_if(set & plan.to != 0, plan.given) | only_if(set & plan.to2 != 0, plan.given2)
}

// Whether x has i and y has j.
fn both(x: u64, i: u64, y: u64, j: u64) -> bool
    ensures { result ≡ (has_of x i && has_of y j) }
{
    has(x, i) && has(y, j)
}

// Whether of items i and j one is given, and the other is met where the gift goes.
fn meet(given: u64, met: u64, i: u64, j: u64) -> bool
    ensures { result ≡ meet_of given met i j }
{
    both(given, i, met, j) || both(given, j, met, i)
}

// Whether items i and j are brought together, where the items x are given to those that hold `first`, and y to those that hold `second`.
fn joins(x: u64, first: u64, y: u64, second: u64, i: u64, j: u64) -> bool
    ensures { result ≡ (meet_of x first i j || meet_of y second i j) }
{
    if (ITEMS as u64 <= i) | (ITEMS as u64 <= j) {
        return false;
    }
    meet(x, first, i, j) || meet(y, second, i, j)
}

// Whether a container of the set gets item i.
fn enters(plan: Plan, i: u64, set: u64) -> bool
    ensures { result ≡ meets (gets_of plan i) set }
{
    gets(plan, i) & set != 0
}

// Whether a container outside the set gets item i.
fn leaves(plan: Plan, i: u64, set: u64) -> bool
    ensures { result ≡ not (eqb (gets_of plan i ∩ set) (gets_of plan i)) }
{
    let x = gets(plan, i);
    x & set != x
}

// Whether the plan breaks rule k, which was whole, where its two gifts meet the items `first` and `second`.
fn breaks_anew(plan: Plan, first: u64, second: u64, rules: &Rules, k: u8) -> bool
    requires { k < rule_count }
    ensures { (l : List ℕ) → Met l plan plan.to first → Met l plan plan.to2 second → result ≡ breaks_rule l plan rules.now.sets rules.now.fields k }
{
    match rules.touched(k, plan.given | plan.given2) {
        Some(Condition::Forbid { item, set }) => enters(plan, item as u64, set),
        Some(Condition::Separate { item, other }) => {
            joins(plan.given, first, plan.given2, second, item as u64, other)
        }
        Some(Condition::Confine { item, set }) => leaves(plan, item as u64, set),
        None => false,
    }
}

// The first rule from number `start` on that the plan breaks anew. What the gifts meet is asked, once for all these rules.
fn judge_from(words: &[u64; 353], plan: Plan, rules: &Rules, start: u8) -> Option<u8>
    ensures { AnewFrom (items_in words.now) plan rules.now.sets rules.now.fields start result }
{
    let first = met(words, plan, plan.to);
    let second = met(words, plan, plan.to2);
    (start..rules.count()).find(|k| breaks_anew(plan, first, second, rules, *k))
}

/// The first rule that the plan breaks anew. What the gifts meet takes longest to find, so it is left to `judge_from`, and asked from the first
/// rule on that keeps an item given from another.
pub fn judge(words: &[u64; 353], plan: Plan, rules: &Rules) -> Option<u8>
    ensures { Judged (items_in words.now) plan rules.now.sets rules.now.fields result }
{
    let given = plan.given | plan.given2;
    if given == 0 {
        return None;
    }
    for k in 0..rules.count() {
        // As `breaks_anew`, but a separate rule goes on in `judge_from`.
        let breaks = match rules.touched(k, given) {
            Some(Condition::Forbid { item, set }) => enters(plan, item as u64, set),
            Some(Condition::Separate { .. }) => return judge_from(words, plan, rules, k),
            Some(Condition::Confine { item, set }) => leaves(plan, item as u64, set),
            None => false,
        };
        if breaks {
            return Some(k);
        }
    }
    None
}

/// The same. Without rules there is nothing to go through, and the compiler leads the call past it.
pub fn first_anew(words: &[u64; 353], plan: Plan, rules: &Rules) -> Option<u8>
    ensures { Judged (items_in words.now) plan rules.now.sets rules.now.fields result }
{
    if rules.count() == 0 {
        return None;
    }
    judge(words, plan, rules)
}
