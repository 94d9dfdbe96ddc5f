// What a call, a rule, a record and a log get (document 01, What a record gets), on a monitor where it lies. What a call gives is planned,
// judged by the rules and made, then the rest of its change; what is refused or inhibited has stored nothing.
ghost use Rattle.std.specs.Prelude.{ℕ, ◌<◌, ◌≡◌, true};
ghost use Rattle.std.proofs.Math.Option.{some};
ghost use Rattle.flow.specs.Box.{rule_count};
ghost use Rattle.flow.specs.Records.{a_call, a_rule, call_from};
ghost use Rattle.terms.specs.Calls.{call_in, asked};
ghost use Rattle.terms.specs.Kinds.{kind_in};
ghost use Rattle.terms.specs.Rules.{rule_in};
ghost use Rattle.tracker.specs.Rows.{Passes};
ghost use Rattle.tracker.specs.Plans.{gives_by};
ghost use Rattle.decision.specs.View.{maps};
ghost use Rattle.decision.specs.Logs.{Coded, AnswersLog};
ghost use Rattle.decision.specs.Answers.{IsFresh, AnswersRecord, Answers, Gives, stopped_by, AnswersStopped, loaded_by};

use crate::logs::{code, has_room};
use crate::{Answer, Monitor};
use logreader::LogReader;
use records::{Record, read};
use rules::action::Action;
use rules::judging::{first_anew, judge};
use rules::loading::{breaks_now, unfit};
use sets::lengths;
use store::cells::make_items;
use store::limits::DEVICES;
use store::lookups::{in_use, items};
use store::numbers::Container;
use store::spread::reach;
use terms::call::KnownCall;
use terms::kind::Kind;
use terms::refusal::Refusal;
use terms::rule::Rule;
use tracker::calls::finish;
use tracker::giving::{Copying, Exchange, Giving, Once};
use tracker::plan::{can_give, giving};
use tracker::queries::Reply;
use tracker::rows::admit;
use tracker::{Call, Tracker};

// Makes it a fresh monitor without rules: array by array, since `*m = Monitor::new()` makes another one on the stack first.
pub fn renew(m: &mut Monitor)
    ensures { IsFresh m.new }
{
    m.tracker.words = [0u64; 353];
    m.tracker.descriptors = [Tracker::CLOSED; 512];
    m.tracker.names = [Tracker::CLOSED; 128];
    m.rules.sets = [0u64; 32];
    m.rules.fields = [0u8; 129];
}

// What a diverted write came to: the container that it went to, and the containers that gained.
#[derive(Clone, Copy)]
pub struct Diverted {
    pub to: u8,
    pub gained: u64,
}

// A call that rule k stops: a write may go to the rule's substitute; else there is nothing, and it is inhibited.
fn stop_in(m: &mut Monitor, q: KnownCall, k: u8) -> Option<Diverted>
    requires { (k < rule_count) × Passes (maps m.old) (asked q) }
    ensures answers { AnswersStopped m.old (asked q) k (record { answer = stopped_by k result; monitor = m.new }) }
    ensures rules { m.new.rules ≡ m.old.rules }
    ensures descriptors { m.new.tracker.descriptors ≡ m.old.tracker.descriptors }
    ensures names { m.new.tracker.names ≡ m.old.tracker.names }
{
    // How long the arrays are: of a struct within a struct the proof does not know it.
    lengths(&m.tracker.words, &m.tracker.names);
    let Kind::Write = q.kind else {
        return None;
    };
    if m.rules.action(k) != Action::Divert as u8 {
        return None;
    }
    let t = &m.tracker;
    let to = m.rules.substitute(k);
    if !in_use(&t.words, &t.descriptors, &t.names, Container(to)) {
        return None;
    }
    let own = DEVICES + q.process;
    let plan = giving(
        items(&t.words, Container(own)),
        reach(&t.words, Container(to)),
    );
    if judge(&t.words, plan, &m.rules).is_some() {
        return None;
    }
    let gained = make_items(&mut m.tracker.words, plan);
    Some(Diverted { to, gained })
}

// As the tracker's give_by, but for the judging between; so is give_in, whose match picks the sort's impl.
// Judges a call of a sort that can give and is not refused, and makes it where no rule is broken. Answers the containers that gained, or the rule
// that stops it.
fn give_by<G: Giving>(m: &mut Monitor, q: KnownCall) -> Result<u64, u8>
    requires { Passes (maps m.old) (asked q) × G.takes (asked q) }
    ensures { Gives m.old (asked q) result m.new }
{
    let plan = G::plan(&m.tracker, q);
    if let Some(k) = first_anew(&m.tracker.words, plan, &m.rules) {
        return Err(k);
    }
    let gained = G::make(&mut m.tracker, q, plan);
    G::finish(&mut m.tracker, q);
    Ok(gained)
}

// The same of any call that can give. Its proof is left to the search, which takes any form of it.
#[tactic(auto, using(crate::proofs::CallLaws::passes_made), unfolding(crate::specs::Answers::Gives))]
fn give_in(m: &mut Monitor, q: KnownCall) -> Result<u64, u8>
    requires { Passes (maps m.old) (asked q) × (gives_by (kind_in q.kind) ≡ true) }
    ensures { Gives m.old (asked q) result m.new }
{
    match q.kind {
        Kind::MapBoth => give_by::<Exchange>(m, q),
        Kind::Fork => give_by::<Copying>(m, q),
        _ => give_by::<Once>(m, q),
    }
}

// What a call that is not refused gets. Those that cannot give are neither planned nor judged.
fn admitted(m: &mut Monitor, q: KnownCall) -> Answer
    requires { Passes (maps m.old) (asked q) }
    ensures answers { Answers m.old (a_call (some (asked q))) (record { answer = result; monitor = m.new }) }
    ensures rules { m.new.rules ≡ m.old.rules }
{
    // How long the arrays are: of a struct within a struct the proof does not know it.
    lengths(&m.tracker.words, &m.tracker.names);
    if !can_give(q.kind) {
        finish(&mut m.tracker, q);
        return Answer::Allow(0);
    }
    match give_in(m, q) {
        Ok(gained) => Answer::Allow(gained),
        Err(k) => match stop_in(m, q, k) {
            Some(d) => Answer::Modify(k, d.to, d.gained),
            None => Answer::Inhibit(k),
        },
    }
}

// What a call of any five bytes gets. The rules stay as they are, byte for byte.
pub fn call_in(m: &mut Monitor, q: Call) -> Answer
    ensures answers { Answers m.old (a_call (call_in q)) (record { answer = result; monitor = m.new }) }
    ensures rules { m.new.rules ≡ m.old.rules }
{
    match admit(&m.tracker, q) {
        Ok(known) => admitted(m, known),
        Err(refusal) => Answer::Refused(refusal),
    }
}

// The same, as a number, by the five bytes: they come in registers. Of a call that lies where each byte was just stored, several are loaded at once,
// and a processor waits for that.
fn code_by(m: &mut Monitor, kind: u8, process: u8, a: u8, b: u8, c: u8) -> u32
    ensures coded { Coded (Answers m.old (a_call (call_from kind process a b c))) result m.new }
    ensures rules { m.new.rules ≡ m.old.rules }
{
    let q = Call {
        kind,
        process,
        a,
        b,
        c,
    };
    code(call_in(m, q))
}

// The same, as a number: through the library an answer itself would lie in memory.
#[inline(always)]
pub fn call_code(m: &mut Monitor, q: Call) -> u32
    ensures coded { Coded (Answers m.old (a_call (call_in q))) result m.new }
    ensures rules { m.new.rules ≡ m.old.rules }
{
    code_by(m, q.kind, q.process, q.a, q.b, q.c)
}

// Loads a rule, where it may be. Answers its number.
fn load(m: &mut Monitor, rule: Rule) -> Result<u8, Refusal>
    ensures answers { Answers m.old (a_rule (rule_in rule)) (record { answer = loaded_by result; monitor = m.new }) }
    ensures tracker { m.new.tracker ≡ m.old.tracker }
{
    unfit(rule)?;
    let k = m.rules.count();
    if Monitor::RULES <= k {
        return Err(Refusal::RulesFull);
    }
    if breaks_now(&m.tracker.words, rule) {
        return Err(Refusal::BrokenAlready);
    }
    m.rules.store(rule);
    Ok(k)
}

// What a rule gets.
fn load_in(m: &mut Monitor, rule: Rule) -> Answer
    ensures answers { Answers m.old (a_rule (rule_in rule)) (record { answer = result; monitor = m.new }) }
    ensures tracker { m.new.tracker ≡ m.old.tracker }
{
    match load(m, rule) {
        Ok(k) => Answer::Loaded(k),
        Err(refusal) => Answer::Refused(refusal),
    }
}

// What the record at the front of the bytes gets.
#[tactic(auto, unfolding(records::specs::Reading::reading_of))]
pub fn answer_in(m: &mut Monitor, bytes: &[u8]) -> Answer
    ensures { AnswersRecord m.old bytes.now (record { answer = result; monitor = m.new }) }
{
    match read(bytes) {
        Ok(Record::Call(q)) => call_in(m, q),
        Ok(Record::Rule(rule)) => load_in(m, rule),
        Err(refusal) => Answer::Refused(refusal),
    }
}

// The same, as a number. A call goes by `call_code`, so that in the library `call_in` has one caller and becomes a part of it (DECISIONS S11).
#[tactic(auto, unfolding(records::specs::Reading::reading_of))]
pub fn answer_code(m: &mut Monitor, bytes: &[u8]) -> u32
    ensures { Coded (AnswersRecord m.old bytes.now) result m.new }
{
    match read(bytes) {
        Ok(Record::Call(q)) => call_code(m, q),
        Ok(Record::Rule(rule)) => code(load_in(m, rule)),
        Err(refusal) => code(Answer::Refused(refusal)),
    }
}

// Answers the records of a log in order. Each answer goes to the front of `codes` as a number, and the reply is how many they are: so C takes
// them. They are counted beside, since of codes lent by iter_mut under a zip a proof knows no element afterwards.
pub fn run_in(m: &mut Monitor, log: &[u8], codes: &mut [u32]) -> Reply
    ensures { AnswersLog m.old log.now codes.old (record { reply = result; monitor = m.new }) codes.new }
{
    if !has_room(log, codes.len()) {
        return Err(Refusal::SliceShort);
    }
    let mut n = 0usize;
    for record in LogReader::new(log) {
        codes[n] = answer_code(m, record);
        n += 1;
    }
    Ok(n as u64)
}
