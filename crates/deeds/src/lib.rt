// What a message does to the flight that it names: whether it may be done, and the record afterwards.
#![tactic(auto)]

ghost use Rattle.std.specs.Prelude.{◌≡◌, ◌&&◌, ◌+◌, ◌≤◌, ◌<◌, length, get_or, eqb};
ghost use Rattle.scan.specs.Grammar.{place_of, size_of};
ghost use Rattle.reader.specs.Reading.{cut, Judged};
ghost use Rattle.message.specs.declared.Verdict.TheVariants.{Read};
ghost use Rattle.flights.specs.Flight.{flight_of};
ghost use Rattle.places.specs.Bytes.{same, number_at};
ghost use Rattle.flights.specs.Table.{places, place};
ghost use Rattle.flights.specs.Decoded.{flights_in};
ghost use Rattle.message.specs.declared.Kind.TheVariants.{Chg};
ghost use Rattle.deeds.specs.Message.{message_of};
ghost use Rattle.deeds.specs.Deeds.{in_order, turned, rta_deed, deed_of, makes as makes_of, or_held, same_key, changed_key, old, refers as refers_to, code_fits, may_on};
ghost use Rattle.deeds.specs.Applying.{nowhere, lowest_free, other, decided_at, decision};
ghost use Rattle.places.specs.Places.{is_free as is_none};

use message::{Kind, Record};
use scan::Span;

// What a message does: FPL files, CPL enters, CHG amends, EST estimates, CNL cancels, RTI offers, an RTA retracts or accepts.
// An answer does nothing, nor does an RTA that refers to neither end.
#[derive(Clone, Copy, PartialEq, Eq, Debug)]
pub enum Deed {
    Files,
    Enters,
    Amends,
    Estimates,
    Cancels,
    Offers,
    Retracts,
    Accepts,
    Nothing,
}

// Whether it can be done: the condition fails, or no place is free, or it is done at a place.
#[derive(Clone, Copy)]
pub enum Decision {
    Fails,
    Full,
    Done(usize),
}

// Whether two parts say the same.
fn same_part(w: &[u8], a: Span, b: Span) -> bool
    requires { (place_of a + size_of a ≤ length w.now) × (place_of b + size_of b ≤ length w.now) }
    ensures { result ≡ same (cut w.now a) (cut w.now b) }
{
    places::same(reader::part_of(w, a), reader::part_of(w, b))
}

// Whether a message's reference has the units of its number, in the same order.
fn in_order(w: &[u8], r: Record) -> bool
    requires { Judged w.now Read r }
    ensures { result ≡ in_order (message_of w.now r) }
{
    let n = r.parts.number;
    let q = r.parts.reference;
    same_part(w, q.sender, n.sender) & same_part(w, q.receiver, n.receiver)
}

// Whether it has them the other way round.
fn is_turned(w: &[u8], r: Record) -> bool
    requires { Judged w.now Read r }
    ensures { result ≡ turned (message_of w.now r) }
{
    let n = r.parts.number;
    let q = r.parts.reference;
    same_part(w, q.sender, n.receiver) & same_part(w, q.receiver, n.sender)
}

fn rta_deed(w: &[u8], r: Record) -> Deed
    requires { Judged w.now Read r }
    ensures { result ≡ rta_deed (message_of w.now r) }
{
    if in_order(w, r) {
        return Deed::Retracts;
    }
    if is_turned(w, r) {
        return Deed::Accepts;
    }
    Deed::Nothing
}

// What a message does.
pub fn deed_of(w: &[u8], r: Record) -> Deed
    requires { Judged w.now Read r }
    ensures { result ≡ deed_of (message_of w.now r) }
{
    let k = r.kind;
    match k {
        Kind::None => Deed::Nothing,
        Kind::Fpl => Deed::Files,
        Kind::Cpl => Deed::Enters,
        Kind::Est => Deed::Estimates,
        Kind::Chg => Deed::Amends,
        Kind::Cnl => Deed::Cancels,
        Kind::Rti => Deed::Offers,
        Kind::Rta => rta_deed(w, r),
        Kind::Rla => Deed::Nothing,
        Kind::Lam => Deed::Nothing,
        Kind::Lrm => Deed::Nothing,
    }
}

// Whether it makes a flight.
#[tactic(auto, unfolding(crate::specs::Deeds::makes))]
pub fn makes(d: Deed) -> bool
    ensures { result ≡ makes_of d }
{
    matches!(d, Deed::Files | Deed::Enters)
}

// A part of a field 22 where it is given, else the message's own.
fn or_own(w: &[u8], c: Span, own: Span) -> &[u8]
    requires { (place_of c + size_of c ≤ length w.now) × (place_of own + size_of own ≤ length w.now) }
    ensures { result.now ≡ or_held (cut w.now c) (cut w.now own) }
{
    if c % 65536 == 0 {
        return reader::part_of(w, own);
    }
    reader::part_of(w, c)
}

// Whether a place is where something is.
fn is_nowhere(p: Option<usize>) -> bool
    ensures { result ≡ nowhere p }
{
    match p {
        Some(i) => false,
        None => true,
    }
}

// Whether a CHG leaves its flight's key as it is.
fn keeps_key(w: &[u8], r: Record) -> bool
    requires { Judged w.now Read r }
    ensures { result ≡ same_key (changed_key (message_of w.now r)) (old (message_of w.now r)) }
{
    let o = r.parts.own;
    let c = r.parts.changes;
    let a = places::same(
        or_own(w, c.aircraft, o.aircraft),
        reader::part_of(w, o.aircraft),
    );
    let d = places::same(
        or_own(w, c.departure, o.departure),
        reader::part_of(w, o.departure),
    );
    let e = places::same(
        or_own(w, c.destination, o.destination),
        reader::part_of(w, o.destination),
    );
    a & d & e
}

// Whether no other flight has the key that a CHG gives.
fn key_unused(table: &[u8], w: &[u8], r: Record) -> bool
    requires { Judged w.now Read r × (r.kind ≡ Chg) }
    ensures { result ≡ is_none (other (message_of w.now r) (flights_in table.now)) }
{
    if keeps_key(w, r) {
        return true;
    }
    let o = r.parts.own;
    let c = r.parts.changes;
    is_nowhere(flights::finding::find(
        table,
        or_own(w, c.aircraft, o.aircraft),
        or_own(w, c.departure, o.departure),
        or_own(w, c.destination, o.destination),
    ))
}

// Whether the reference is a flight's first number.
fn refers(b: &[u8], w: &[u8], r: Record) -> bool
    requires { (length b.now ≡ 768) × Judged w.now Read r }
    ensures { result ≡ refers_to (message_of w.now r) (flight_of b.now) }
{
    in_order(w, r) & (r.figures.reference == places::number_at(b, 2))
}

// Whether a code, if given, is the one held.
fn code_fits(b: &[u8], w: &[u8], r: Record) -> bool
    requires { (length b.now ≡ 768) × Judged w.now Read r }
    ensures { result ≡ code_fits (message_of w.now r).own.code (flight_of b.now).code }
{
    let c = r.parts.own.code;
    if c % 65536 == 0 {
        return true;
    }
    places::same(reader::part_of(w, c), flights::text_at(b, 13, 4))
}

// Whether it is offered, and the reference is the offer number.
fn is_offer(b: &[u8], r: Record) -> bool
    requires { length b.now ≡ 768 }
    ensures { result ≡ (eqb (get_or b.now 1 0) 1 && eqb r.figures.reference (number_at 4 b.now)) }
{
    (b[1] == 1) & (r.figures.reference == places::number_at(b, 4))
}

// Whether a deed may be done on the flight at place i, which is the one that the message names.
fn may_on(d: Deed, table: &[u8], i: usize, w: &[u8], r: Record) -> bool
    requires { (i < places table.now) × Judged w.now Read r × (d ≡ deed_of (message_of w.now r)) }
    ensures { result ≡ may_on d (message_of w.now r) (flight_of (place i table.now)) (other (message_of w.now r) (flights_in table.now)) }
{
    let a = i * 768;
    let b = &table[a..a + 768];
    match d {
        Deed::Files => false,
        Deed::Enters => false,
        Deed::Amends => (b[0] == 1) & refers(b, w, r) & key_unused(table, w, r),
        Deed::Estimates => (b[0] == 1) & refers(b, w, r) & code_fits(b, w, r),
        Deed::Cancels => (b[1] != 1) & refers(b, w, r),
        Deed::Offers => (b[0] != 1) & (b[1] == 0) & refers(b, w, r) & code_fits(b, w, r),
        Deed::Retracts => is_offer(b, r),
        Deed::Accepts => is_offer(b, r),
        Deed::Nothing => false,
    }
}

// Where a new flight would stand.
fn new_place(table: &[u8]) -> Decision
    ensures { result ≡ decided_at (lowest_free (flights_in table.now)) }
{
    let p = flights::finding::lowest_free(table);
    match p {
        Some(i) => Decision::Done(i),
        None => Decision::Full,
    }
}

// WHETHER A MESSAGE CAN BE APPLIED to a table of flights, and where.
pub fn decide(table: &[u8], w: &[u8], r: Record) -> Decision
    requires { Judged w.now Read r }
    ensures { result ≡ decision (message_of w.now r) (flights_in table.now) }
{
    let o = r.parts.own;
    let d = deed_of(w, r);
    let p = flights::finding::find(
        table,
        reader::part_of(w, o.aircraft),
        reader::part_of(w, o.departure),
        reader::part_of(w, o.destination),
    );
    match p {
        Some(i) => {
            if may_on(d, table, i, w, r) {
                return Decision::Done(i);
            }
            Decision::Fails
        }
        None => {
            if makes(d) {
                return new_place(table);
            }
            Decision::Fails
        }
    }
}
