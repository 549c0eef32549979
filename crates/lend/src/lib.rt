// The calls on a head that is lent: whoever keeps an end lends its head to be changed where it lies, as it lends the memory and the
// buffer. Each copies the head out, makes the call of `link` on the copy and puts back the head that comes with the answer.
// Nothing is decided here: what a call does, and that a refusal changes nothing, is what `link` ensures.
#![tactic(auto)]

ghost use Rattle.std.specs.Prelude.{length};
ghost use Rattle.memory.specs.End.{lent};
ghost use Rattle.rules.specs.Receiving.{receive as receive_of};
ghost use Rattle.rules.specs.Sending.{resend as resend_of};
ghost use Rattle.rules.specs.Calls.{Called};
ghost use Rattle.link.specs.SetUp.{SetsUp};
ghost use Rattle.link.specs.Sends.{Sent};
ghost use Rattle.lend.specs.Outcome.{outcome};

use head::Head;
use message::Record;
use rules::Answer;

// SETTING UP an end, over whatever stands in the memory and in the head.
pub fn set_up(
    head: &mut Head,
    ours: &[u8],
    partners: &[u8],
    sent: &mut [u8],
    received: &mut [u8],
    unanswered: &mut [u8],
    answers: &mut [u8],
) -> Answer
    ensures { SetsUp ours.now partners.now head.old (lent sent.old received.old unanswered.old answers.old) (outcome result head.new) (lent sent.new received.new unanswered.new answers.new) }
{
    let h = *head;
    let r = link::beginning::set_up(h, ours, partners, sent, received, unanswered, answers);
    *head = r.head;
    r.answer
}

// SENDING what a record over the bytes d says, under the next number.
pub fn send(
    head: &mut Head,
    r: Record,
    d: &[u8],
    sent: &[u8],
    received: &mut [u8],
    unanswered: &mut [u8],
    answers: &[u8],
    out: &mut [u8],
) -> Answer
    ensures { Sent d.now r head.old (lent sent.now received.old unanswered.old answers.now) out.old (outcome result head.new) (lent sent.now received.new unanswered.new answers.now) out.new }
{
    let h = *head;
    let o = link::dispatch::send(h, r, d, sent, received, unanswered, answers, out);
    *head = o.head;
    o.answer
}

// RECEIVING: a text from the partner.
pub fn receive(
    head: &mut Head,
    text: &[u8],
    sent: &mut [u8],
    received: &mut [u8],
    unanswered: &mut [u8],
    answers: &mut [u8],
    out: &mut [u8],
) -> Answer
    ensures { Called (receive_of (length out.old) text.now) head.old (lent sent.old received.old unanswered.old answers.old) out.old (outcome result head.new) (lent sent.new received.new unanswered.new answers.new) out.new }
{
    let h = *head;
    let r = link::receive(h, text, sent, received, unanswered, answers, out);
    *head = r.head;
    r.answer
}

// RESENDING: the kept text of an unanswered number. Nothing else changes.
pub fn resend(
    head: &mut Head,
    n: usize,
    sent: &[u8],
    received: &[u8],
    unanswered: &[u8],
    answers: &[u8],
    out: &mut [u8],
) -> Answer
    ensures { Called (resend_of (length out.old) n) head.old (lent sent.now received.now unanswered.now answers.now) out.old (outcome result head.new) (lent sent.now received.now unanswered.now answers.now) out.new }
{
    let h = *head;
    let r = link::resend(h, n, sent, received, unanswered, answers, out);
    *head = r.head;
    r.answer
}
