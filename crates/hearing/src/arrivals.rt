// A message that arrives again, and one that arrives first and crosses nothing.
ghost use Rattle.std.specs.Prelude.{◌≡◌, ◌≤◌, ◌<◌, length};
ghost use Rattle.reader.specs.Reading.{Judged};
ghost use Rattle.message.specs.declared.Verdict.TheVariants.{Read};
ghost use Rattle.flights.specs.Formed.{TableFormed};
ghost use Rattle.flights.specs.Decoded.{flights_in, table_of};
ghost use Rattle.deeds.specs.Message.{message_of};
ghost use Rattle.deeds.specs.Deeds.{deed_of};
ghost use Rattle.deeds.specs.Applying.{decision, applied};
ghost use Rattle.memory.specs.End.{Memory, Formed, end_of};
ghost use Rattle.rules.specs.Answers.{answer_to};
ghost use Rattle.rules.specs.Receiving.{hear_again};
ghost use Rattle.rules.specs.Calls.{Comes};
ghost use Rattle.hearing.specs.Hearing.{Does};

use head::Head;
use message::Record;
use rules::{Answer, Outcome};

// An old number that was answered gets that answer again, and nothing changes. RLA is for an RTI only.
pub(crate) fn hear_again(h: Head, v: u8, w: &[u8], r: Record, out: &mut [u8]) -> Outcome
    requires { Judged w.now Read r × (v < 100) }
    ensures { (m : Memory) → Formed h m → Comes (hear_again (length out.old) (message_of w.now r) v (end_of h m)) h m out.old result m out.new }
{
    if (v == 2) & !rules::is_offering(deeds::deed_of(w, r)) {
        return Outcome {
            answer: Answer::Stale,
            head: h,
        };
    }
    let mut text = [0u8; 50];
    let n = response::lay_answer(&mut text, w, r, v);
    rules::give(h, &text[..n], out)
}

// A first arrival is decided on the table that it is about, done there and answered.
pub(crate) fn hear_on(
    h: Head,
    fresh: bool,
    w: &[u8],
    r: Record,
    table: &mut [u8],
    answers: &mut [u8],
    out: &mut [u8],
) -> Outcome
    requires { Judged w.now Read r × TableFormed table.old × (length answers.old ≡ 1000) × (h.highest ≤ 999) }
    ensures { Does h fresh (message_of w.now r) (answer_to (deed_of (message_of w.now r)) (decision (message_of w.now r) (flights_in table.old))) (table.new ≡ table_of (applied (message_of w.now r) (flights_in table.old))) (table.new ≡ table.old) answers.old out.old result answers.new out.new }
{
    let c = deeds::decide(table, w, r);
    let v = rules::answer_to(deeds::deed_of(w, r), c);
    let mut text = [0u8; 50];
    let k = response::lay_answer(&mut text, w, r, v);
    let room = out.len();
    if room < k {
        return Outcome {
            answer: Answer::NoRoom,
            head: h,
        };
    }
    perform::follow(c, table, w, r);
    crate::replying::reply(h, fresh, r.figures.number, v, &text[..k], answers, out)
}
