// Flight records of 768 bytes.
#![tactic(auto)]

ghost use Rattle.std.specs.Prelude.{◌≡◌, ◌+◌, ◌*◌, ◌≤◌, ◌<◌, length, take, drop, [], ◌∷◌};
ghost use Rattle.splice.specs.Splice.{splice};
ghost use Rattle.places.specs.Bytes.{high, low};
ghost use Rattle.flights.specs.Padding.{trimmed, padded};
ghost use Rattle.flights.specs.Flight.{free_record};
ghost use Rattle.flights.specs.Table.{places};
ghost use Rattle.flights.specs.Made.{blank_record};

pub mod checking;
pub mod finding;
pub mod tables;

// A text without the blanks at its right. These are passed by sixteen as long as there are so many.
fn without_blanks(s: &[u8]) -> &[u8]
    ensures { result.now ≡ trimmed s.now }
{
    let mut text = s;
    while let Some((front, last)) = text.split_last_chunk::<16>() {
        if !places::all_are(last, b' ') {
            break;
        }
        text = front;
    }
    while let Some((b' ', front)) = text.split_last() {
        text = front;
    }
    text
}

// The text in some bytes of a record.
pub fn text_at(b: &[u8], at: usize, width: usize) -> &[u8]
    requires { at + width ≤ length b.now }
    ensures { result.now ≡ trimmed (take width (drop at b.now)) }
{
    without_blanks(&b[at..at + width])
}

// WHAT CHANGES A TABLE: each says every byte of it afterwards.

// Makes place i free.
pub fn free(table: &mut [u8], i: usize)
    requires { i < places table.old }
    ensures { table.new ≡ splice (i * 768) free_record table.old }
{
    splice::fill(table, i * 768, 768, 0);
}

// Makes place i the record of a flight with no texts, no handoff and no offer number.
pub fn begin(table: &mut [u8], i: usize, status: u8, first: usize)
    requires { (i < places table.old) × (first ≤ 999) }
    ensures { table.new ≡ splice (i * 768) (blank_record status first) table.old }
{
    let front = [status, 0, (first / 256) as u8, (first % 256) as u8, 0, 0];
    let texts = splice::put(table, i * 768, &front);
    let rest = splice::fill(table, texts, 735, b' ');
    splice::fill(table, rest, 27, 0);
}

// Writes a text, with blanks up to its width, from byte at of place i on.
pub fn set_text(table: &mut [u8], i: usize, at: usize, width: usize, s: &[u8])
    requires { (i < places table.old) × (at + width ≤ 768) × (length s.now ≤ width) }
    ensures { table.new ≡ splice (i * 768 + at) (padded width s.now) table.old }
{
    let blanks = width - s.len();
    let n = splice::put(table, i * 768 + at, s);
    splice::fill(table, n, blanks, b' ');
}

// Writes byte at of place i.
pub fn set_byte(table: &mut [u8], i: usize, at: usize, v: u8)
    requires { (i < places table.old) × (at < 768) }
    ensures { table.new ≡ splice (i * 768 + at) (v ∷ []) table.old }
{
    table[i * 768 + at] = v;
}

// Writes a number from byte at of place i on, high byte first.
pub fn set_number(table: &mut [u8], i: usize, at: usize, n: usize)
    requires { (i < places table.old) × (at + 2 ≤ 768) × (n ≤ 999) }
    ensures { table.new ≡ splice (i * 768 + at) (high n ∷ low n ∷ []) table.old }
{
    let bytes = [(n / 256) as u8, (n % 256) as u8];
    splice::put(table, i * 768 + at, &bytes);
}
