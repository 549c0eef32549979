// Lays out the text of a record: the parts in the order of their fields, with what stands between them. Whether it is a text
// that is read is not asked here.
#![tactic(auto)]

ghost use Rattle.std.specs.Prelude.{◌≡◌, [], ◌∷◌};
ghost use Rattle.pen.specs.Laying.{Adds, Lays, end_of, own_blocks, own_spans, change_blocks, rest_blocks, rest_spans, start, opening, blocks, spans};
ghost use Rattle.changes.specs.Found.{plan_spans};

use changes::Plan;
use message::Kind;
use pen::{Pen, Sheet};
use types::{Estimate, Parts};

// The message's own fields, in their order. This list and the next stand apart: each reads as its list of fields, and one over
// both would take a table of leads, with field 14 between two halves of it.
fn add_own(sheet: &mut Sheet, o: Plan, e: Estimate)
    ensures { Lays sheet.old (λ d. own_blocks d o e) (own_spans o e) sheet.new }
{
    sheet.add_07(b"-", o.aircraft, o.code);
    sheet.add_pair(b"-", o.rules, o.flight);
    sheet.add_09(b"-", o.count, o.model, o.wake);
    sheet.add_10(b"-", o.equipment, o.surveillance);
    sheet.add_pair(b"-", o.departure, o.time);
    sheet.add_14(b"-", e.point, e.over, e.crossing, e.second, e.sense);
    sheet.add_15(b"-", o.speed, o.level, o.route);
    sheet.add_16(b"-", o.destination, o.elapsed, o.alternate, o.alternate2);
    sheet.add_18(b"-", o.indicator, o.other);
}

// The fields within field 22, in ascending order.
fn add_changes(sheet: &mut Sheet, o: Plan)
    ensures { Lays sheet.old (λ d. change_blocks d o) (plan_spans o) sheet.new }
{
    sheet.add_07(b"-07/", o.aircraft, o.code);
    sheet.add_pair(b"-08/", o.rules, o.flight);
    sheet.add_09(b"-09/", o.count, o.model, o.wake);
    sheet.add_10(b"-10/", o.equipment, o.surveillance);
    sheet.add_pair(b"-13/", o.departure, o.time);
    sheet.add_15(b"-15/", o.speed, o.level, o.route);
    sheet.add_16(b"-16/", o.destination, o.elapsed, o.alternate, o.alternate2);
    sheet.add_18(b"-18/", o.indicator, o.other);
}

// "(" and the letters of the type; of no type there is a text that is not read.
#[tactic(auto, unfolding(pen::specs::Laying::opening))]
fn letters_of(k: Kind) -> [u8; 4]
    ensures { result ≡ opening k }
{
    match k {
        Kind::None => *b"(   ",
        Kind::Fpl => *b"(FPL",
        Kind::Cpl => *b"(CPL",
        Kind::Est => *b"(EST",
        Kind::Chg => *b"(CHG",
        Kind::Cnl => *b"(CNL",
        Kind::Rti => *b"(RTI",
        Kind::Rta => *b"(RTA",
        Kind::Rla => *b"(RLA",
        Kind::Lam => *b"(LAM",
        Kind::Lrm => *b"(LRM",
    }
}

pub fn open_text(sheet: &mut Sheet, k: Kind)
    ensures { Lays sheet.old (λ _. opening k ∷ []) [] sheet.new }
{
    sheet.add(&letters_of(k));
}

// What follows the number.
fn add_rest(sheet: &mut Sheet, q: Parts)
    ensures { Lays sheet.old (λ d. rest_blocks d q) (rest_spans q) sheet.new }
{
    let r = q.reference;
    sheet.add_reference(r.sender, r.receiver, r.digits);
    add_own(sheet, q.own, q.estimate);
    add_changes(sheet, q.changes);
    sheet.add_led(b"-", q.sector);
    sheet.add_led(b"-", q.track);
    sheet.add_led(b"-RMK/", q.reason);
    sheet.add(b")");
}

// Lays out the text that the parts compose, and answers its length, if it fits.
pub fn lay(text: &mut [u8], d: &[u8], k: Kind, q: Parts) -> Pen
    ensures { Adds d.now text.old start (blocks (opening k) d.now q) (spans q) text.new (end_of result) }
{
    let n = q.number;
    let mut sheet = Sheet::start(text, d);
    open_text(&mut sheet, k);
    sheet.add_number(n.sender, n.receiver, n.digits);
    add_rest(&mut sheet, q);
    sheet.end
}

// Lays out the same text with these bytes in the place of its number.
pub fn lay_as(text: &mut [u8], number: &[u8], d: &[u8], k: Kind, q: Parts) -> Pen
    ensures { Adds d.now text.old start (opening k ∷ number.now ∷ rest_blocks d.now q) (rest_spans q) text.new (end_of result) }
{
    let mut sheet = Sheet::start(text, d);
    open_text(&mut sheet, k);
    sheet.add(number);
    add_rest(&mut sheet, q);
    sheet.end
}
