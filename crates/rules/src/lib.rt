// The rules of an end: tests of types and units, and what a call answers. What the calls do stands in link.
#![tactic(auto)]

ghost use Rattle.std.specs.Prelude.{◌≡◌, ◌&&◌, eqb};
ghost use Rattle.reader.specs.Reading.{cut, Judged};
ghost use Rattle.message.specs.declared.Verdict.TheVariants.{Read};
ghost use Rattle.pen.specs.Listed.{Inside};
ghost use Rattle.deeds.specs.Message.{message_of};
ghost use Rattle.deeds.specs.Deeds.{old, same_key};
ghost use Rattle.rules.specs.Answers.{is_offering, is_acceptance, proper as proper_of, is_good, good_answer, answer_to};
ghost use Rattle.rules.specs.Receiving.{units, referred as referred_of, directed as directed_of, retires as retires_of};
ghost use Rattle.rules.specs.Sending.{one_of, names_one};
ghost use Rattle.rules.specs.Keys.{or_part, old_parts, changed_parts, new_parts, key_of, KeyInside};
ghost use Rattle.rules.specs.Calls.{Gives};
ghost use Rattle.scan.specs.Bools.{same_bool};

use deeds::{Decision, Deed};
use head::Head;
use message::{Kind, Record};
use scan::Span;
use types::Number;

// Where the three parts of a flight's key stand in a text.
#[derive(Clone, Copy)]
struct KeyParts {
    aircraft: Span,
    departure: Span,
    destination: Span,
}

#[tactic(auto, unfolding(crate::specs::Answers::is_offering))]
pub fn is_offering(d: Deed) -> bool
    ensures { result ≡ is_offering d }
{
    d == Deed::Offers
}

#[tactic(auto, unfolding(crate::specs::Answers::is_acceptance))]
pub fn is_acceptance(d: Deed) -> bool
    ensures { result ≡ is_acceptance d }
{
    d == Deed::Accepts
}

// Whether a message may get an answer of this type.
#[tactic(auto, unfolding(crate::specs::Answers::proper))]
pub fn proper(k: Kind, d: Deed) -> bool
    ensures { result ≡ proper_of k d }
{
    match k {
        Kind::Rla => is_offering(d),
        Kind::Lam => !is_offering(d),
        Kind::Lrm => !is_acceptance(d),
        _ => false,
    }
}

// Whether an answer says that the message was applied.
#[tactic(auto, unfolding(crate::specs::Answers::is_good))]
pub fn is_good(k: Kind) -> bool
    ensures { result ≡ is_good k }
{
    matches!(k, Kind::Rla | Kind::Lam)
}

#[tactic(auto, unfolding(crate::specs::Answers::good_answer, crate::specs::Answers::is_offering))]
fn good_answer(d: Deed) -> u8
    ensures { result ≡ good_answer d }
{
    if is_offering(d) { 2 } else { 1 }
}

// What is answered: the byte that the answers' memory holds, by document 01's values. No enum stands for it: lay_answer takes any
// value below 100, which an enum would narrow.
pub fn answer_to(d: Deed, c: Decision) -> u8
    ensures { result ≡ answer_to d c }
{
    match c {
        Decision::Fails => 57,
        Decision::Full => 62,
        Decision::Done(i) => good_answer(d),
    }
}

// Whether a number's or a reference's units are these two.
fn has_units(w: &[u8], p: Number, a: [u8; 4], b: [u8; 4]) -> bool
    requires { Inside w.now p.sender × Inside w.now p.receiver }
    ensures { result ≡ units (cut w.now p.sender) (cut w.now p.receiver) a b }
{
    places::same(excerpt::text_in(w, p.sender), &a)
        & places::same(excerpt::text_in(w, p.receiver), &b)
}

fn answer_refers(w: &[u8], r: Record, h: Head) -> bool
    requires { Judged w.now Read r }
    ensures { result ≡ (units (message_of w.now r).reference_from (message_of w.now r).reference_to h.ours h.partners && eqb r.figures.reference r.figures.number) }
{
    let ours = h.ours;
    let partners = h.partners;
    has_units(w, r.parts.reference, ours, partners) & (r.figures.reference == r.figures.number)
}

fn referred(w: &[u8], r: Record, h: Head) -> bool
    requires { Judged w.now Read r }
    ensures { result ≡ referred_of r.kind h (message_of w.now r) }
{
    let k = r.kind;
    let q = r.parts.reference;
    let ours = h.ours;
    let partners = h.partners;
    match k {
        Kind::None => true,
        Kind::Fpl => true,
        Kind::Cpl => true,
        Kind::Est => has_units(w, q, partners, ours),
        Kind::Chg => has_units(w, q, partners, ours),
        Kind::Cnl => has_units(w, q, partners, ours),
        Kind::Rti => has_units(w, q, partners, ours),
        Kind::Rta => has_units(w, q, partners, ours) | has_units(w, q, ours, partners),
        Kind::Rla => answer_refers(w, r, h),
        Kind::Lam => answer_refers(w, r, h),
        Kind::Lrm => answer_refers(w, r, h),
    }
}

// Whether a text comes from the partner to us, and refers to what it may refer to.
pub fn directed(w: &[u8], r: Record, h: Head) -> bool
    requires { Judged w.now Read r }
    ensures { result ≡ directed_of h (message_of w.now r) }
{
    let ours = h.ours;
    let partners = h.partners;
    has_units(w, r.parts.number, partners, ours) & referred(w, r, h)
}

// A part of a field 22 where it is given, else the message's own.
#[tactic(auto, unfolding(crate::specs::Keys::or_part))]
fn or_part(c: Span, own: Span) -> Span
    ensures { result ≡ or_part c own }
{
    if scan::is_absent(c) { own } else { c }
}

// Where the old key of a message stands.
fn old_parts(r: Record) -> KeyParts
    ensures { result ≡ old_parts r }
{
    KeyParts {
        aircraft: r.parts.own.aircraft,
        departure: r.parts.own.departure,
        destination: r.parts.own.destination,
    }
}

// Where the key that a CHG gives stands.
fn changed_parts(r: Record) -> KeyParts
    ensures { result ≡ changed_parts r }
{
    let o = r.parts.own;
    let c = r.parts.changes;
    let a = or_part(c.aircraft, o.aircraft);
    let d = or_part(c.departure, o.departure);
    let e = or_part(c.destination, o.destination);
    KeyParts {
        aircraft: a,
        departure: d,
        destination: e,
    }
}

// Where the new key stands: only a CHG gives another.
#[tactic(auto, unfolding(crate::specs::Keys::new_parts, message::specs::Record::is_chg))]
fn new_parts(r: Record) -> KeyParts
    ensures { result ≡ new_parts r }
{
    if r.kind == Kind::Chg {
        return changed_parts(r);
    }
    old_parts(r)
}

// Whether two keys are one.
fn same_keys<'a>(w: &'a [u8], k: KeyParts, x: &'a [u8], l: KeyParts) -> bool
    requires { KeyInside w.now k × KeyInside x.now l }
    ensures { result ≡ same_key (key_of w.now k) (key_of x.now l) }
{
    let a = places::same(
        excerpt::text_in(w, k.aircraft),
        excerpt::text_in(x, l.aircraft),
    );
    let d = places::same(
        excerpt::text_in(w, k.departure),
        excerpt::text_in(x, l.departure),
    );
    let e = places::same(
        excerpt::text_in(w, k.destination),
        excerpt::text_in(x, l.destination),
    );
    a & d & e
}

// Whether the flights of two messages, by their old keys, are one.
fn same_flight<'a>(w: &'a [u8], r: Record, x: &'a [u8], q: Record) -> bool
    requires { Judged w.now Read r × Judged x.now Read q }
    ensures { result ≡ same_key (old (message_of w.now r)) (old (message_of x.now q)) }
{
    same_keys(w, old_parts(r), x, old_parts(q))
}

// Whether an acceptance w, that names by its number the unanswered x, retires it: x is an offer of the same flight.
pub fn retires<'a>(w: &'a [u8], r: Record, x: &'a [u8], q: Record) -> bool
    requires { Judged w.now Read r × Judged x.now Read q }
    ensures { result ≡ retires_of (message_of w.now r) (message_of x.now q) }
{
    is_offering(deeds::deed_of(x, q)) & same_flight(x, q, w, r)
}

// Whether two messages are about flights of one side.
fn same_side(a: bool, b: bool) -> bool
    ensures { result ≡ same_bool a b }
{
    if a {
        return b;
    }
    !b
}

// Whether a key is a message's old or new one.
fn one_of<'a>(w: &'a [u8], k: KeyParts, x: &'a [u8], q: Record) -> bool
    requires { KeyInside w.now k × Judged x.now Read q }
    ensures { result ≡ one_of (key_of w.now k) (message_of x.now q) }
{
    same_keys(w, k, x, old_parts(q)) | same_keys(w, k, x, new_parts(q))
}

// Whether two messages name one flight, by old or new key.
pub fn names_one<'a>(w: &'a [u8], r: Record, x: &'a [u8], q: Record) -> bool
    requires { Judged w.now Read r × Judged x.now Read q }
    ensures { result ≡ names_one (message_of w.now r) (message_of x.now q) }
{
    let a = is_acceptance(deeds::deed_of(w, r));
    let b = is_acceptance(deeds::deed_of(x, q));
    same_side(a, b) & (one_of(w, old_parts(r), x, q) | one_of(w, new_parts(r), x, q))
}

// ---- what a call answers

// It is done, with the length of the text that is given; or it refuses, and then nothing has changed.
#[derive(Clone, Copy)]
pub enum Answer {
    Done(usize),
    // The place, and the hyphens before it.
    NotRead(usize, usize),
    NoRoom,
    WrongUnits,
    Stale,
    NothingUnanswered,
    WrongAnswer,
    NamedAlready,
    TooManyUnanswered,
    TooFarBack,
    ConditionFails,
    TableFull,
    NotFormed,
    BreaksRule,
    BadNames,
}

// The answer, and the head as it now is.
#[derive(Clone, Copy)]
pub struct Outcome {
    pub answer: Answer,
    pub head: Head,
}

// Gives a text, if the buffer has room for it.
pub fn give(h: Head, t: &[u8], out: &mut [u8]) -> Outcome
    ensures { Gives h t.now out.old result out.new }
{
    if out.len() < t.len() {
        return Outcome {
            answer: Answer::NoRoom,
            head: h,
        };
    }
    let n = splice::put(out, 0, t);
    Outcome {
        answer: Answer::Done(n),
        head: h,
    }
}
