// A message that may be sent is kept and handed over.
ghost use Rattle.std.specs.Prelude.{◌≡◌, ◌≤◌, ◌<◌, true, length};
ghost use Rattle.message.specs.declared.Verdict.TheVariants.{Read};
ghost use Rattle.reader.specs.Reading.{Judged};
ghost use Rattle.flights.specs.Formed.{TableFormed};
ghost use Rattle.flights.specs.Decoded.{flights_in, table_of};
ghost use Rattle.head.specs.Sound.{HeadFormed};
ghost use Rattle.unanswered.specs.Waiting.{UnansweredFormed};
ghost use Rattle.deeds.specs.Message.{message_of};
ghost use Rattle.deeds.specs.Deeds.{deed_of};
ghost use Rattle.deeds.specs.Applying.{decision};
ghost use Rattle.rules.specs.Answers.{is_acceptance};
ghost use Rattle.sending.specs.Sent.{accepted, Handed};

use deeds::Decision;
use head::Head;
use message::Record;
use rules::{Answer, Outcome};

// THE WRITES, once nothing refuses.

// An acceptance is applied on sending.
fn accept(c: Decision, received: &mut [u8], w: &[u8], r: Record)
    requires { Judged w.now Read r × TableFormed received.old × (is_acceptance (deed_of (message_of w.now r)) ≡ true → c ≡ decision (message_of w.now r) (flights_in received.old)) }
    ensures { received.new ≡ table_of (accepted (message_of w.now r) (flights_in received.old)) }
{
    if !rules::is_acceptance(deeds::deed_of(w, r)) {
        return;
    }
    perform::follow(c, received, w, r);
}

// The text is kept at place i and given, with the next number.
pub(crate) fn hand_over(
    i: usize,
    c: Decision,
    h: Head,
    w: &[u8],
    r: Record,
    received: &mut [u8],
    unanswered: &mut [u8],
    out: &mut [u8],
) -> Outcome
    requires { (i < 16) × Judged w.now Read r × HeadFormed h × TableFormed received.old × UnansweredFormed h.ours h.partners unanswered.old × (length w.now ≤ length out.old) × (is_acceptance (deed_of (message_of w.now r)) ≡ true → c ≡ decision (message_of w.now r) (flights_in received.old)) }
    ensures { Handed i (message_of w.now r) h w.now received.old unanswered.old out.old result received.new unanswered.new out.new }
{
    accept(c, received, w, r);
    unanswered::store(unanswered, i, h.next, w);
    let n = splice::put(out, 0, w);
    let g = h.give();
    let head = g.head;
    Outcome {
        answer: Answer::Done(n),
        head,
    }
}
