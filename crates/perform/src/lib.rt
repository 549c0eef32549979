// Writes what a message does to the record of its flight.
#![tactic(auto)]

ghost use Rattle.std.specs.Prelude.{◌≡◌, ◌≤◌, ◌<◌};
ghost use Rattle.reader.specs.Reading.{Judged};
ghost use Rattle.message.specs.declared.Verdict.TheVariants.{Read};
ghost use Rattle.excerpt.specs.Excerpt.{field14_of, Fits14};
ghost use Rattle.flights.specs.Flight.{offered};
ghost use Rattle.flights.specs.Table.{places, place};
ghost use Rattle.flights.specs.Decoded.{read_flight, flights_in, table_of};
ghost use Rattle.deeds.specs.Message.{message_of};
ghost use Rattle.deeds.specs.Deeds.{makes, estimated, handed_off, becomes};
ghost use Rattle.perform.specs.Changing.{Changes};
ghost use Rattle.perform.specs.Performed.{Held, Written};
ghost use Rattle.flights.specs.Formed.{TableFormed};
ghost use Rattle.deeds.specs.Applying.{decision, applied};
ghost use Rattle.places.specs.Bytes.{free as is_free};

mod amending;
mod filing;
mod putting;

use deeds::{Decision, Deed};
use message::Record;
use types::Estimate;

// Field 14 makes it active.
fn estimate(table: &mut [u8], i: usize, w: &[u8], e: Estimate)
    requires { (i < places table.old) × Fits14 w.now e }
    ensures { Changes i (estimated (field14_of w.now e)) table.old table.new }
{
    filing::put_14(table, i, w, e);
    flights::set_byte(table, i, 0, 2);
}

// The number of the message becomes the offer number.
fn offer(table: &mut [u8], i: usize, n: usize)
    requires { (i < places table.old) × (n ≤ 999) }
    ensures { Changes i (handed_off offered n) table.old table.new }
{
    flights::set_byte(table, i, 1, 1);
    flights::set_number(table, i, 4, n);
}

// What a message does, at the place of its flight; a new flight's is free.
pub fn carry_out(d: Deed, table: &mut [u8], i: usize, w: &[u8], r: Record)
    requires { Judged w.now Read r × (i < places table.old) × Held (place i table.old) × (makes d ≡ is_free (place i table.old)) }
    ensures { Written i (becomes d (message_of w.now r) (read_flight (place i table.old))) table.old table.new }
{
    match d {
        Deed::Files => filing::file(table, i, 1, w, r),
        Deed::Enters => filing::enter(table, i, w, r),
        Deed::Amends => amending::amend(table, i, w, r.parts.changes),
        Deed::Estimates => estimate(table, i, w, r.parts.estimate),
        Deed::Cancels => flights::free(table, i),
        Deed::Offers => offer(table, i, r.figures.number),
        Deed::Retracts => flights::set_byte(table, i, 1, 0),
        Deed::Accepts => flights::set_byte(table, i, 1, 2),
        Deed::Nothing => {}
    }
}

// Does what was decided.
pub fn follow(c: Decision, table: &mut [u8], w: &[u8], r: Record)
    requires { Judged w.now Read r × TableFormed table.old × (c ≡ decision (message_of w.now r) (flights_in table.old)) }
    ensures { table.new ≡ table_of (applied (message_of w.now r) (flights_in table.old)) }
{
    match c {
        Decision::Fails => {}
        Decision::Full => {}
        Decision::Done(i) => carry_out(deeds::deed_of(w, r), table, i, w, r),
    }
}
