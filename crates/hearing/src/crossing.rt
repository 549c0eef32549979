// An acceptance that crosses the answer to our offer.
ghost use Rattle.std.specs.Prelude.{◌≡◌, true, ◌*◌, ◌≤◌, ◌<◌, length};
ghost use Rattle.reader.specs.Reading.{Judged};
ghost use Rattle.message.specs.declared.Verdict.TheVariants.{Read};
ghost use Rattle.splice.specs.Splice.{splice as spliced};
ghost use Rattle.places.specs.Bytes.{number_at};
ghost use Rattle.flights.specs.Formed.{TableFormed};
ghost use Rattle.flights.specs.Decoded.{flights_in, table_of};
ghost use Rattle.unanswered.specs.Waiting.{free_bytes, waiting_of, place};
ghost use Rattle.deeds.specs.declared.Decision.TheVariants.{Done};
ghost use Rattle.deeds.specs.Message.{message_of};
ghost use Rattle.deeds.specs.Deeds.{deed_of};
ghost use Rattle.deeds.specs.Applying.{decision, done_at, applied};
ghost use Rattle.rules.specs.Answers.{answer_to, is_offering, is_acceptance};
ghost use Rattle.hearing.specs.Hearing.{Does};
ghost use Rattle.hearing.specs.Crosses.{crossed, Crosses};

use deeds::{Decision, Deed};
use head::Head;
use message::Record;
use rules::{Answer, Outcome};

// An offer and its acceptance, both done at one place.
fn cross(sent: &mut [u8], i: usize, t: &[u8], q: Record, w: &[u8], r: Record)
    requires { Judged t.now Read q × Judged w.now Read r × TableFormed sent.old × (decision (message_of t.now q) (flights_in sent.old) ≡ Done i) × (is_offering (deed_of (message_of t.now q)) ≡ true) × (is_acceptance (deed_of (message_of w.now r)) ≡ true) }
    ensures { sent.new ≡ table_of (done_at i (message_of w.now r) (done_at i (message_of t.now q) (flights_in sent.old))) }
{
    perform::carry_out(Deed::Offers, sent, i, t, q);
    perform::carry_out(Deed::Accepts, sent, i, w, r);
}

// What is decided of an acceptance once the offer that it retires was applied: where that is done at a place, so is this.
fn decide_after(first: Decision, sent: &[u8], w: &[u8], r: Record) -> Decision
    requires { Judged w.now Read r }
    ensures { result ≡ crossed first (decision (message_of w.now r) (flights_in sent.now)) }
{
    match first {
        Decision::Fails => deeds::decide(sent, w, r),
        Decision::Full => deeds::decide(sent, w, r),
        Decision::Done(i) => Decision::Done(i),
    }
}

// Does what was decided of the two.
fn follow_both(
    first: Decision,
    c: Decision,
    sent: &mut [u8],
    t: &[u8],
    q: Record,
    w: &[u8],
    r: Record,
)
    requires { Judged t.now Read q × Judged w.now Read r × TableFormed sent.old × Crosses (message_of t.now q) (message_of w.now r) × (first ≡ decision (message_of t.now q) (flights_in sent.old)) × (c ≡ crossed first (decision (message_of w.now r) (flights_in sent.old))) }
    ensures { sent.new ≡ table_of (applied (message_of w.now r) (applied (message_of t.now q) (flights_in sent.old))) }
{
    match first {
        Decision::Fails => perform::follow(c, sent, w, r),
        Decision::Full => perform::follow(c, sent, w, r),
        Decision::Done(i) => cross(sent, i, t, q, w, r),
    }
}

// An acceptance that crossed the answer to our offer, which waits at place i and whose record is q: the offer is settled first.
pub(crate) fn hear_crossing(
    h: Head,
    fresh: bool,
    i: usize,
    q: Record,
    w: &[u8],
    r: Record,
    sent: &mut [u8],
    unanswered: &mut [u8],
    answers: &mut [u8],
    out: &mut [u8],
) -> Outcome
    requires { Judged w.now Read r × TableFormed sent.old × (length unanswered.old ≡ 20480) × (i < 16) × (number_at 3 (place i unanswered.old) ≤ 1275) × (length answers.old ≡ 1000) × (h.highest ≤ 999) × Judged (waiting_of (place i unanswered.old)).text Read q × Crosses (message_of (waiting_of (place i unanswered.old)).text q) (message_of w.now r) }
    ensures { Does h fresh (message_of w.now r) (answer_to (deed_of (message_of w.now r)) (decision (message_of w.now r) (applied (message_of (waiting_of (place i unanswered.old)).text q) (flights_in sent.old)))) ((sent.new ≡ table_of (applied (message_of w.now r) (applied (message_of (waiting_of (place i unanswered.old)).text q) (flights_in sent.old)))) × (unanswered.new ≡ spliced (i * 1280) free_bytes unanswered.old)) ((sent.new ≡ sent.old) × (unanswered.new ≡ unanswered.old)) answers.old out.old result answers.new out.new }
{
    let t = unanswered::text(unanswered, i);
    let first = deeds::decide(sent, t, q);
    let c = decide_after(first, sent, w, r);
    let v = rules::answer_to(deeds::deed_of(w, r), c);
    let mut text = [0u8; 50];
    let n = response::lay_answer(&mut text, w, r, v);
    if out.len() < n {
        return Outcome {
            answer: Answer::NoRoom,
            head: h,
        };
    }
    follow_both(first, c, sent, t, q, w, r);
    unanswered::free(unanswered, i);
    crate::replying::reply(h, fresh, r.figures.number, v, &text[..n], answers, out)
}
