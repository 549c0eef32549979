// A message that is no answer comes to an end of a link. Whatever is decided is decided before anything is written: the last
// check is that of the room for the answer.
#![tactic(auto)]

ghost use Rattle.std.specs.Prelude.{◌≡◌, true, List, ℕ, ◌≤◌, length};
ghost use Rattle.scan.specs.Grammar.{Derives};
ghost use Rattle.types.specs.Messages.{message as a_message};
ghost use Rattle.reader.specs.Reading.{Judged};
ghost use Rattle.message.specs.declared.Verdict.TheVariants.{Read};
ghost use Rattle.head.specs.Head.{standing};
ghost use Rattle.flights.specs.Formed.{TableFormed};
ghost use Rattle.unanswered.specs.Waiting.{UnansweredFormed};
ghost use Rattle.deeds.specs.Message.{message_of};
ghost use Rattle.deeds.specs.Deeds.{deed_of};
ghost use Rattle.memory.specs.End.{lent, Formed, end_of};
ghost use Rattle.rules.specs.Answers.{is_acceptance};
ghost use Rattle.rules.specs.Receiving.{hear_first, hear_message};
ghost use Rattle.rules.specs.Calls.{Comes};
ghost use Rattle.hearing.specs.Hearing.{begun};

mod arrivals;
mod crossing;
mod replying;
pub mod settling;

use head::{Head, Standing};
use message::Record;
use rules::{Answer, Outcome};

// The record of a text that is kept, which is one that is read.
fn kept_record(t: &[u8]) -> Record
    requires { Derives a_message t.now }
    ensures { Judged t.now Read result }
{
    let q = reader::read(t);
    q.record
}

// A first arrival of an acceptance is about a flight that we sent. If our offer of that flight still waits for its answer, under
// the number that the acceptance refers to, the offer is settled first, as RLA would.
fn hear_acceptance(
    h: Head,
    fresh: bool,
    w: &[u8],
    r: Record,
    sent: &mut [u8],
    unanswered: &mut [u8],
    answers: &mut [u8],
    out: &mut [u8],
) -> Outcome
    requires { Judged w.now Read r × TableFormed sent.old × UnansweredFormed h.ours h.partners unanswered.old × (length answers.old ≡ 1000) × (h.highest ≤ 999) × (is_acceptance (deed_of (message_of w.now r)) ≡ true) }
    ensures { (R : List ℕ) → Formed h (lent sent.old R unanswered.old answers.old) → Comes (hear_first (length out.old) (message_of w.now r) (begun fresh r.figures.number (end_of h (lent sent.old R unanswered.old answers.old)))) h (lent sent.old R unanswered.old answers.old) out.old result (lent sent.new R unanswered.new answers.new) out.new }
{
    let p = unanswered::find(unanswered, r.figures.reference);
    match p {
        Some(i) => {
            let t = unanswered::text(unanswered, i);
            let q = kept_record(t);
            if rules::retires(w, r, t, q) {
                return crossing::hear_crossing(
                    h, fresh, i, q, w, r, sent, unanswered, answers, out,
                );
            }
            arrivals::hear_on(h, fresh, w, r, sent, answers, out)
        }
        None => arrivals::hear_on(h, fresh, w, r, sent, answers, out),
    }
}

// A first arrival, or an old number that was never answered.
fn hear_first(
    h: Head,
    fresh: bool,
    w: &[u8],
    r: Record,
    sent: &mut [u8],
    received: &mut [u8],
    unanswered: &mut [u8],
    answers: &mut [u8],
    out: &mut [u8],
) -> Outcome
    requires { Formed h (lent sent.old received.old unanswered.old answers.old) × Judged w.now Read r }
    ensures { Comes (hear_first (length out.old) (message_of w.now r) (begun fresh r.figures.number (end_of h (lent sent.old received.old unanswered.old answers.old)))) h (lent sent.old received.old unanswered.old answers.old) out.old result (lent sent.new received.new unanswered.new answers.new) out.new }
{
    if rules::is_acceptance(deeds::deed_of(w, r)) {
        return hear_acceptance(h, fresh, w, r, sent, unanswered, answers, out);
    }
    arrivals::hear_on(h, fresh, w, r, received, answers, out)
}

// A message that is no answer is heard: a new number is a first arrival, an old one is answered as it was, a stale one refused.
pub fn hear_message(
    h: Head,
    w: &[u8],
    r: Record,
    sent: &mut [u8],
    received: &mut [u8],
    unanswered: &mut [u8],
    answers: &mut [u8],
    out: &mut [u8],
) -> Outcome
    requires { Formed h (lent sent.old received.old unanswered.old answers.old) × Judged w.now Read r }
    ensures { Comes (hear_message (standing h.highest r.figures.number) (length out.old) (message_of w.now r) (end_of h (lent sent.old received.old unanswered.old answers.old))) h (lent sent.old received.old unanswered.old answers.old) out.old result (lent sent.new received.new unanswered.new answers.new) out.new }
{
    let n = r.figures.number;
    let s = h.judge(n);
    match s {
        Standing::New => hear_first(h, true, w, r, sent, received, unanswered, answers, out),
        Standing::Old => {
            let v = answers[n];
            if v == 0 {
                return hear_first(h, false, w, r, sent, received, unanswered, answers, out);
            }
            arrivals::hear_again(h, v, w, r, out)
        }
        Standing::Stale => Outcome {
            answer: Answer::Stale,
            head: h,
        },
    }
}
