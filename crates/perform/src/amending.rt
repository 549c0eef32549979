// A flight's record changed by a CHG, field by field.
ghost use Rattle.std.specs.Prelude.{◌<◌};
ghost use Rattle.reader.specs.Reading.{cut};
ghost use Rattle.excerpt.specs.Excerpt.{texts_of, FitsIn};
ghost use Rattle.flights.specs.Table.{places};
ghost use Rattle.deeds.specs.Deeds.{amended};
ghost use Rattle.perform.specs.Changing.{Changes, given_text, given_field};

use changes::Plan;

// Fields 07, 13 and 16 have two texts in a record: a 07 without code leaves no code, a 16 without its rest none.
fn amend_07(table: &mut [u8], i: usize, w: &[u8], c: Plan)
    requires { (i < places table.old) × FitsIn w.now c }
    ensures { Changes i (given_field 0 (cut w.now c.aircraft) 1 (cut w.now c.code)) table.old table.new }
{
    crate::putting::put_whole(
        table,
        i,
        6,
        7,
        excerpt::text_in(w, c.aircraft),
        13,
        4,
        excerpt::text_in(w, c.code),
    );
}

fn amend_13(table: &mut [u8], i: usize, w: &[u8], c: Plan)
    requires { (i < places table.old) × FitsIn w.now c }
    ensures { Changes i (given_field 2 (cut w.now c.departure) 3 (cut w.now c.time)) table.old table.new }
{
    crate::putting::put_whole(
        table,
        i,
        17,
        4,
        excerpt::text_in(w, c.departure),
        21,
        4,
        excerpt::text_in(w, c.time),
    );
}

fn amend_16(table: &mut [u8], i: usize, w: &[u8], c: Plan)
    requires { (i < places table.old) × FitsIn w.now c }
    ensures { Changes i (given_field 4 (cut w.now c.destination) 9 (texts_of w.now c).rest16) table.old table.new }
{
    let mut text = [0u8; 14];
    let n = excerpt::rest_16(&mut text, w, c);
    crate::putting::put_whole(
        table,
        i,
        25,
        4,
        excerpt::text_in(w, c.destination),
        127,
        14,
        &text[..n],
    );
}

// The others have one.
fn amend_08(table: &mut [u8], i: usize, w: &[u8], c: Plan)
    requires { (i < places table.old) × FitsIn w.now c }
    ensures { Changes i (given_text 5 (texts_of w.now c).field08) table.old table.new }
{
    let mut text = [0u8; 2];
    let n = excerpt::text_08(&mut text, w, c);
    crate::putting::put_given(table, i, 29, 2, &text[..n]);
}

fn amend_09(table: &mut [u8], i: usize, w: &[u8], c: Plan)
    requires { (i < places table.old) × FitsIn w.now c }
    ensures { Changes i (given_text 6 (texts_of w.now c).field09) table.old table.new }
{
    let mut text = [0u8; 8];
    let n = excerpt::text_09(&mut text, w, c);
    crate::putting::put_given(table, i, 31, 8, &text[..n]);
}

fn amend_10(table: &mut [u8], i: usize, w: &[u8], c: Plan)
    requires { (i < places table.old) × FitsIn w.now c }
    ensures { Changes i (given_text 7 (texts_of w.now c).field10) table.old table.new }
{
    let mut text = [0u8; 61];
    let n = excerpt::text_10(&mut text, w, c);
    crate::putting::put_given(table, i, 39, 61, &text[..n]);
}

fn amend_15(table: &mut [u8], i: usize, w: &[u8], c: Plan)
    requires { (i < places table.old) × FitsIn w.now c }
    ensures { Changes i (given_text 10 (texts_of w.now c).field15) table.old table.new }
{
    let mut text = [0u8; 300];
    let n = excerpt::text_15(&mut text, w, c);
    crate::putting::put_given(table, i, 141, 300, &text[..n]);
}

fn amend_18(table: &mut [u8], i: usize, w: &[u8], c: Plan)
    requires { (i < places table.old) × FitsIn w.now c }
    ensures { Changes i (given_text 11 (texts_of w.now c).field18) table.old table.new }
{
    let mut text = [0u8; 300];
    let n = excerpt::text_18(&mut text, w, c);
    crate::putting::put_given(table, i, 441, 300, &text[..n]);
}

// Each field 22 replaces that field whole.
pub(crate) fn amend(table: &mut [u8], i: usize, w: &[u8], c: Plan)
    requires { (i < places table.old) × FitsIn w.now c }
    ensures { Changes i (amended (texts_of w.now c)) table.old table.new }
{
    amend_07(table, i, w, c);
    amend_08(table, i, w, c);
    amend_09(table, i, w, c);
    amend_10(table, i, w, c);
    amend_13(table, i, w, c);
    amend_15(table, i, w, c);
    amend_16(table, i, w, c);
    amend_18(table, i, w, c);
}
