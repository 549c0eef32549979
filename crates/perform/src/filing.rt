// A flight's record filled from a plan.
ghost use Rattle.std.specs.Prelude.{◌≡◌, [], ◌≤◌, ◌<◌};
ghost use Rattle.excerpt.specs.Excerpt.{texts_of, field14_of, FitsIn, Fits14};
ghost use Rattle.excerpt.specs.ByKind.{Paired};
ghost use Rattle.flights.specs.Flight.{Status, status_byte, active};
ghost use Rattle.flights.specs.Table.{places};
ghost use Rattle.flights.specs.Made.{Made, with_text};
ghost use Rattle.deeds.specs.Message.{message_of};
ghost use Rattle.deeds.specs.Deeds.{made};
ghost use Rattle.perform.specs.Changing.{Changes};

use message::Record;
use types::Estimate;

// Field 14.
pub(crate) fn put_14(table: &mut [u8], i: usize, w: &[u8], e: Estimate)
    requires { (i < places table.old) × Fits14 w.now e }
    ensures { Changes i (with_text 8 (field14_of w.now e)) table.old table.new }
{
    let mut text = [0u8; 27];
    let n = excerpt::text_14(&mut text, w, e);
    flights::set_text(table, i, 100, 27, &text[..n]);
}

// A new flight of this status, with the fields of the message and no field 14: on a record without texts each field is set that is
// there.
pub(crate) fn file(table: &mut [u8], i: usize, status: u8, w: &[u8], r: Record)
    requires { (i < places table.old) × FitsIn w.now r.parts.own × Paired (texts_of w.now r.parts.own) × (r.figures.number ≤ 999) }
    ensures { (s : Status) → status ≡ status_byte s → Made i (made s [] (message_of w.now r)) table.old table.new }
{
    flights::begin(table, i, status, r.figures.number);
    crate::amending::amend(table, i, w, r.parts.own);
}

// An active one has its field 14.
pub(crate) fn enter(table: &mut [u8], i: usize, w: &[u8], r: Record)
    requires { (i < places table.old) × FitsIn w.now r.parts.own × Paired (texts_of w.now r.parts.own) × Fits14 w.now r.parts.estimate × (r.figures.number ≤ 999) }
    ensures { Made i (made active (field14_of w.now r.parts.estimate) (message_of w.now r)) table.old table.new }
{
    file(table, i, 2, w, r);
    put_14(table, i, w, r.parts.estimate);
}
