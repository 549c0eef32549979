// The text of an answer to a message that was read, laid out from that message's own parts.
#![tactic(auto)]

ghost use Rattle.std.specs.Prelude.{◌≤◌, ◌<◌, length};
ghost use Rattle.reader.specs.Reading.{Judged};
ghost use Rattle.message.specs.declared.Verdict.TheVariants.{Read};
ghost use Rattle.pen.specs.Laying.{Adds, Lays, end_of, start};
ghost use Rattle.excerpt.specs.Excerpt.{Starts};
ghost use Rattle.deeds.specs.Message.{message_of};
ghost use Rattle.response.specs.Answering.{answer_text};
ghost use Rattle.response.specs.Blocks.{number_blocks, number_spans, lam_blocks, rla_blocks, rla_spans, lrm_blocks};

use message::{Kind, Record};
use pen::{Pen, Sheet};
use scan::Span;
use types::Number;

// The answer's own number, and as its reference the number that it answers.
fn add_numbers(sheet: &mut Sheet, n: Number)
    ensures { Lays sheet.old (λ d. number_blocks d n) (number_spans n) sheet.new }
{
    sheet.add_number(n.receiver, n.sender, n.digits);
    sheet.add_number(n.sender, n.receiver, n.digits);
}

fn lay_lam(text: &mut [u8], w: &[u8], n: Number) -> Pen
    ensures { Adds w.now text.old start (lam_blocks w.now n) (number_spans n) text.new (end_of result) }
{
    let mut sheet = Sheet::start(text, w);
    compose::open_text(&mut sheet, Kind::Lam);
    add_numbers(&mut sheet, n);
    sheet.add(b")");
    sheet.end
}

fn lay_rla(text: &mut [u8], w: &[u8], n: Number, sector: Span) -> Pen
    ensures { Adds w.now text.old start (rla_blocks w.now n sector) (rla_spans n sector) text.new (end_of result) }
{
    let mut sheet = Sheet::start(text, w);
    compose::open_text(&mut sheet, Kind::Rla);
    add_numbers(&mut sheet, n);
    sheet.add_led(b"-", sector);
    sheet.add(b")");
    sheet.end
}

fn lay_lrm(text: &mut [u8], w: &[u8], n: Number, v: u8) -> Pen
    ensures { Adds w.now text.old start (lrm_blocks w.now n v) (number_spans n) text.new (end_of result) }
{
    let reason = [b'0' + v / 10, b'0' + v % 10];
    let mut sheet = Sheet::start(text, w);
    compose::open_text(&mut sheet, Kind::Lrm);
    add_numbers(&mut sheet, n);
    sheet.add(b"-RMK/");
    sheet.add(&reason);
    sheet.add(b")");
    sheet.end
}

// Lays the text of an answer at the start of a buffer, and answers its length.
pub fn lay_answer(text: &mut [u8], w: &[u8], r: Record, v: u8) -> usize
    requires { Judged w.now Read r × (50 ≤ length text.old) × (v < 100) }
    ensures { Starts (answer_text (message_of w.now r) v) text.old text.new result }
{
    if v == 1 {
        return lay_lam(text, w, r.parts.number).unwrap_or(0);
    }
    if v == 2 {
        return lay_rla(text, w, r.parts.number, r.parts.sector).unwrap_or(0);
    }
    lay_lrm(text, w, r.parts.number, v).unwrap_or(0)
}
