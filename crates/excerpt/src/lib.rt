// The texts that a flight's record keeps of a message, field by field: each is laid at the start of a buffer, and its length
// is answered. Aircraft, code, departure, time and destination are parts of the message as they stand.
#![tactic(auto)]

ghost use Rattle.std.specs.Prelude.{◌≡◌, ◌≤◌, length};
ghost use Rattle.reader.specs.Reading.{cut};
ghost use Rattle.pen.specs.Listed.{Inside};
ghost use Rattle.excerpt.specs.Excerpt.{texts_of, field14_of, FitsIn, Fits14, Starts};

use changes::Plan;
use pen::Sheet;
use scan::Span;
use types::Estimate;

// A part that is a text by itself.
pub fn text_in(w: &[u8], q: Span) -> &[u8]
    requires { Inside w.now q }
    ensures { result.now ≡ cut w.now q }
{
    let at = (q / 65536) as usize;
    let len = (q % 65536) as usize;
    w.get(at..at + len).unwrap_or(&[])
}

// Each of these is a sheet from its start to its end. One function that takes what lies between as a closure is no plainer: its contract
// would name, as ghost values of each call, the blocks that the closure lays out and the parts in them.
pub fn text_08(out: &mut [u8], w: &[u8], p: Plan) -> usize
    requires { FitsIn w.now p × (2 ≤ length out.old) }
    ensures { Starts (texts_of w.now p).field08 out.old out.new result }
{
    let mut sheet = Sheet::start(out, w);
    sheet.add_pair(b"", p.rules, p.flight);
    sheet.end.unwrap_or(0)
}

pub fn text_09(out: &mut [u8], w: &[u8], p: Plan) -> usize
    requires { FitsIn w.now p × (8 ≤ length out.old) }
    ensures { Starts (texts_of w.now p).field09 out.old out.new result }
{
    let mut sheet = Sheet::start(out, w);
    sheet.add_09(b"", p.count, p.model, p.wake);
    sheet.end.unwrap_or(0)
}

pub fn text_10(out: &mut [u8], w: &[u8], p: Plan) -> usize
    requires { FitsIn w.now p × (61 ≤ length out.old) }
    ensures { Starts (texts_of w.now p).field10 out.old out.new result }
{
    let mut sheet = Sheet::start(out, w);
    sheet.add_10(b"", p.equipment, p.surveillance);
    sheet.end.unwrap_or(0)
}

pub fn text_14(out: &mut [u8], w: &[u8], e: Estimate) -> usize
    requires { Fits14 w.now e × (27 ≤ length out.old) }
    ensures { Starts (field14_of w.now e) out.old out.new result }
{
    let mut sheet = Sheet::start(out, w);
    sheet.add_14(b"", e.point, e.over, e.crossing, e.second, e.sense);
    sheet.end.unwrap_or(0)
}

pub fn text_15(out: &mut [u8], w: &[u8], p: Plan) -> usize
    requires { FitsIn w.now p × (300 ≤ length out.old) }
    ensures { Starts (texts_of w.now p).field15 out.old out.new result }
{
    let mut sheet = Sheet::start(out, w);
    sheet.add_15(b"", p.speed, p.level, p.route);
    sheet.end.unwrap_or(0)
}

// Field 16 from its fifth byte.
pub fn rest_16(out: &mut [u8], w: &[u8], p: Plan) -> usize
    requires { FitsIn w.now p × (14 ≤ length out.old) }
    ensures { Starts (texts_of w.now p).rest16 out.old out.new result }
{
    let mut sheet = Sheet::start(out, w);
    sheet.add_led(b"", p.elapsed);
    sheet.add_alternates(p.alternate, p.alternate2);
    sheet.end.unwrap_or(0)
}

pub fn text_18(out: &mut [u8], w: &[u8], p: Plan) -> usize
    requires { FitsIn w.now p × (300 ≤ length out.old) }
    ensures { Starts (texts_of w.now p).field18 out.old out.new result }
{
    let mut sheet = Sheet::start(out, w);
    sheet.add_18(b"", p.indicator, p.other);
    sheet.end.unwrap_or(0)
}
