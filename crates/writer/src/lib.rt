// Writes the text of a record: its parts are laid out in the order of their fields, and what the reader makes of that is
// held against the record. So the rules are the reader's, and there is no second set of them.
#![tactic(auto)]

ghost use Rattle.scan.specs.Bools.{Decides};
ghost use Rattle.writer.specs.Comparing.{Back};
ghost use Rattle.writer.specs.Writing.{Wrote};
ghost use Rattle.std.specs.Prelude.{◌≡◌, ◌≤◌, length};
ghost use Rattle.writer.specs.Draft.{Draws};
ghost use Rattle.writer.specs.Moved.{number_bytes};
ghost use Rattle.writer.specs.Drawn.{held};

mod comparing;

use message::{Record, Verdict};
use types::Number;

// What becomes of a record: its text, of this length, is in the buffer; or no text reads back as it; or its text is longer
// than the buffer.
#[derive(Clone, Copy)]
pub enum Writing {
    Written(usize),
    BreaksRule,
    NoRoom,
}

// Whether a text reads back as a record: then its parts are the record's, since they were laid out from these.
pub fn reads_back(t: &[u8], r: Record) -> bool
    ensures { Decides result (Back t.now r) }
{
    let q = reader::read(t);
    let its = q.record;
    let v = q.verdict;
    match v {
        Verdict::Read => crate::comparing::alike(its, r),
        Verdict::Refused(place, before) => false,
    }
}

// THE WRITER: writes the text of a record into a buffer. Nothing is written before all is decided.
pub fn write(r: Record, d: &[u8], out: &mut [u8]) -> Writing
    ensures { Wrote d.now r out.old result out.new }
{
    let mut text = [0u8; 1077];
    let k = r.kind;
    let Some(n) = compose::lay(&mut text, d, k, r.parts) else {
        return Writing::BreaksRule;
    };
    if !reads_back(&text[..n], r) {
        return Writing::BreaksRule;
    }
    if out.len() < n {
        return Writing::NoRoom;
    }
    Writing::Written(splice::put(out, 0, &text[..n]))
}

// ---- texts that are sent: what a record says, under the number that the link gives. The record's own number is not looked at

// What becomes of a record: its text, of this length, is in the buffer; or no text says it.
#[derive(Clone, Copy)]
pub enum Drafting {
    Written(usize),
    BreaksRule,
}

// A number as it stands in a text.
fn number_bytes(ours: &[u8], partners: &[u8], n: usize) -> [u8; 12]
    requires { (length ours.now ≡ 4) × (length partners.now ≡ 4) × (n ≤ 999) }
    ensures { result ≡ number_bytes ours.now partners.now n }
{
    let hundreds = (48 + n / 100) as u8;
    let tens = (48 + n / 10 % 10) as u8;
    let ones = (48 + n % 10) as u8;
    [
        ours[0],
        ours[1],
        ours[2],
        ours[3],
        b'/',
        partners[0],
        partners[1],
        partners[2],
        partners[3],
        hundreds,
        tens,
        ones,
    ]
}

// The record that a text is held against: of its number only the lengths and the figure count.
fn with_number(r: Record, n: usize) -> Record
    ensures { result ≡ held n r }
{
    let number = Number {
        sender: 4,
        receiver: 4,
        digits: 3,
    };
    let mut parts = r.parts;
    parts.number = number;
    let mut figures = r.figures;
    figures.number = n;
    let mut q = r;
    q.parts = parts;
    q.figures = figures;
    q
}

// Writes the text of a record into a buffer, under the number n from ours to partners.
pub fn draft(
    text: &mut [u8],
    ours: &[u8],
    partners: &[u8],
    n: usize,
    r: Record,
    d: &[u8],
) -> Drafting
    requires { (length text.old ≡ 1077) × (length ours.now ≡ 4) × (length partners.now ≡ 4) × (n ≤ 999) }
    ensures { Draws ours.now partners.now n d.now r text.old result text.new }
{
    let number = number_bytes(ours, partners, n);
    let k = r.kind;
    let Some(end) = compose::lay_as(text, &number, d, k, r.parts) else {
        return Drafting::BreaksRule;
    };
    let q = with_number(r, n);
    if !reads_back(&text[..end], q) {
        return Drafting::BreaksRule;
    }
    Drafting::Written(end)
}
