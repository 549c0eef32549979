// An answer comes to a message that waits for one.
ghost use Rattle.std.specs.Prelude.{◌≡◌, ◌<◌};
ghost use Rattle.message.specs.declared.Verdict.TheVariants.{Read};
ghost use Rattle.reader.specs.Reader.{Ruled};
ghost use Rattle.flights.specs.Formed.{TableFormed};
ghost use Rattle.flights.specs.Decoded.{flights_in, table_of};
ghost use Rattle.unanswered.specs.Waiting.{UnansweredFormed};
ghost use Rattle.places.specs.Place.{At};
ghost use Rattle.deeds.specs.Deeds.{deed_of};
ghost use Rattle.deeds.specs.Applying.{applied};
ghost use Rattle.memory.specs.End.{waiting_in};
ghost use Rattle.memory.specs.Held.{UsedAt};
ghost use Rattle.rules.specs.Reads.{message_in};
ghost use Rattle.rules.specs.Receiving.{settled_sent, waiting_at, settle_at};
ghost use Rattle.hearing.specs.Settles.{Settles};

use deeds::Deed;
use head::Head;
use message::Kind;
use rules::{Answer, Outcome};

// What a kept message does.
fn kept_deed(w: &[u8]) -> Deed
    requires { Ruled w.now Read }
    ensures { result ≡ deed_of (message_in w.now) }
{
    let q = crate::kept_record(w);
    deeds::deed_of(w, q)
}

// Applies a kept message to the flights sent. Its condition may no longer hold, and then nothing is done.
fn apply_kept(sent: &mut [u8], w: &[u8])
    requires { TableFormed sent.old × Ruled w.now Read }
    ensures { sent.new ≡ table_of (applied (message_in w.now) (flights_in sent.old)) }
{
    let q = crate::kept_record(w);
    let c = deeds::decide(sent, w, q);
    perform::follow(c, sent, w, q);
}

// What the answer does to the flights sent. An acceptance was applied on sending.
fn settle_sent(k: Kind, d: Deed, sent: &mut [u8], w: &[u8])
    requires { TableFormed sent.old × Ruled w.now Read × (d ≡ deed_of (message_in w.now)) }
    ensures { sent.new ≡ table_of (settled_sent k (message_in w.now) (flights_in sent.old)) }
{
    if rules::is_good(k) & !rules::is_acceptance(d) {
        apply_kept(sent, w);
    }
}

// The message at place i is answered, if an answer of this type is one to it.
fn settle(h: Head, k: Kind, i: usize, sent: &mut [u8], unanswered: &mut [u8]) -> Outcome
    requires { TableFormed sent.old × UnansweredFormed h.ours h.partners unanswered.old × (i < 16) × UsedAt h.ours h.partners unanswered.old i }
    ensures { Settles (settle_at (At i) k) h sent.old unanswered.old result sent.new unanswered.new }
{
    let d = kept_deed(unanswered::text(unanswered, i));
    if !rules::proper(k, d) {
        return Outcome {
            answer: Answer::WrongAnswer,
            head: h,
        };
    }
    settle_sent(k, d, sent, unanswered::text(unanswered, i));
    unanswered::free(unanswered, i);
    Outcome {
        answer: Answer::Done(0),
        head: h,
    }
}

// AN ANSWER COMES, of type k to the message with number n.
pub fn hear_answer(h: Head, k: Kind, n: usize, sent: &mut [u8], unanswered: &mut [u8]) -> Outcome
    requires { TableFormed sent.old × UnansweredFormed h.ours h.partners unanswered.old }
    ensures { Settles (settle_at (waiting_at n (waiting_in unanswered.old)) k) h sent.old unanswered.old result sent.new unanswered.new }
{
    let p = unanswered::find(unanswered, n);
    match p {
        Some(i) => settle(h, k, i, sent, unanswered),
        None => Outcome {
            answer: Answer::NothingUnanswered,
            head: h,
        },
    }
}
