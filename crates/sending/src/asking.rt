// What is asked of a message before it is sent.
ghost use Rattle.std.specs.Prelude.{◌≡◌, ◌≤◌, ◌<◌, true};
ghost use Rattle.message.specs.declared.Verdict.TheVariants.{Read};
ghost use Rattle.reader.specs.Reading.{Judged};
ghost use Rattle.flights.specs.Formed.{TableFormed};
ghost use Rattle.flights.specs.Decoded.{flights_in};
ghost use Rattle.unanswered.specs.Waiting.{place};
ghost use Rattle.deeds.specs.Message.{message_of};
ghost use Rattle.memory.specs.End.{waiting_in};
ghost use Rattle.rules.specs.Sending.{any_waiting, too_old};
ghost use Rattle.sending.specs.Asked.{Waits, used_with};
ghost use Rattle.sending.specs.Deciding.{holds as holds_of, decided_on, table_filled};

use deeds::Decision;
use message::Record;

// 9: Whether place i has a message 400 or more numbers back from the next.
fn is_old(u: &[u8], i: usize, next: usize) -> bool
    requires { Waits u.now × (i < 16) × (next ≤ 999) }
    ensures { result ≡ used_with (too_old next) (place i u.now) }
{
    let a = i * 1280;
    if u[a] == 0 {
        return false;
    }
    let d = (next + 1000 - places::number_at(&u[a..a + 1280], 1)) % 1000;
    (d == 0) | (400 <= d)
}

pub(crate) fn too_far_back(u: &[u8], next: usize) -> bool
    requires { Waits u.now × (next ≤ 999) }
    ensures { result ≡ any_waiting (too_old next) (waiting_in u.now) }
{
    let mut i = 0;
    while i < 16 {
        if is_old(u, i, next) {
            return true;
        }
        i += 1;
    }
    false
}

// 10: Whether the condition holds, from what was decided.
pub(crate) fn holds(c: Decision) -> bool
    ensures { result ≡ holds_of c }
{
    match c {
        Decision::Fails => false,
        Decision::Full => true,
        Decision::Done(i) => true,
    }
}

// An acceptance is decided on the flights received, all else on those sent.
pub(crate) fn decide(sent: &[u8], received: &[u8], w: &[u8], r: Record) -> Decision
    requires { Judged w.now Read r }
    ensures { result ≡ decided_on (message_of w.now r) (flights_in sent.now) (flights_in received.now) }
{
    if rules::is_acceptance(deeds::deed_of(w, r)) {
        return deeds::decide(received, w, r);
    }
    deeds::decide(sent, w, r)
}

// 11: Whether flights sent and unanswered messages that make one fill the table.
pub(crate) fn is_filled(sent: &[u8], makers: usize, w: &[u8], r: Record) -> bool
    requires { Judged w.now Read r × TableFormed sent.now × (makers ≤ 16) }
    ensures { result ≡ table_filled (message_of w.now r) sent.now makers }
{
    if !deeds::makes(deeds::deed_of(w, r)) {
        return false;
    }
    sent.len() / 768 <= flights::finding::used(sent) + makers
}
