// One end of a link: a text comes, or is asked for again. Setting up stands in beginning, sending in dispatch.
#![tactic(auto)]

ghost use Rattle.std.specs.Prelude.{length};
ghost use Rattle.reader.specs.Reading.{Judged};
ghost use Rattle.message.specs.declared.Verdict.TheVariants.{Read};
ghost use Rattle.memory.specs.End.{lent, Formed, end_of};
ghost use Rattle.deeds.specs.Message.{message_of};
ghost use Rattle.rules.specs.Receiving.{hear as hear_of, receive as receive_of};
ghost use Rattle.rules.specs.Sending.{resend as resend_of};
ghost use Rattle.rules.specs.Calls.{Comes, Called};

pub mod beginning;
pub mod dispatch;

use head::Head;
use message::{Record, Verdict};
use rules::{Answer, Outcome};

// RESENDING: the kept text of an unanswered number. Nothing else changes.
pub fn resend(
    h: Head,
    n: usize,
    sent: &[u8],
    received: &[u8],
    unanswered: &[u8],
    answers: &[u8],
    out: &mut [u8],
) -> Outcome
    ensures { Called (resend_of (length out.old) n) h (lent sent.now received.now unanswered.now answers.now) out.old result (lent sent.now received.now unanswered.now answers.now) out.new }
{
    if !memory::is_sound(h, sent, received, unanswered, answers) {
        return Outcome {
            answer: Answer::NotFormed,
            head: h,
        };
    }
    let p = unanswered::find(unanswered, n);
    match p {
        Some(i) => rules::give(h, unanswered::text(unanswered, i), out),
        None => Outcome {
            answer: Answer::NothingUnanswered,
            head: h,
        },
    }
}

// A text that is read: an answer, or a message.
fn hear(
    h: Head,
    text: &[u8],
    r: Record,
    sent: &mut [u8],
    received: &mut [u8],
    unanswered: &mut [u8],
    answers: &mut [u8],
    out: &mut [u8],
) -> Outcome
    requires { Formed h (lent sent.old received.old unanswered.old answers.old) × Judged text.now Read r }
    ensures { Comes (hear_of (length out.old) (message_of text.now r) (end_of h (lent sent.old received.old unanswered.old answers.old))) h (lent sent.old received.old unanswered.old answers.old) out.old result (lent sent.new received.new unanswered.new answers.new) out.new }
{
    if !rules::directed(text, r, h) {
        return Outcome {
            answer: Answer::WrongUnits,
            head: h,
        };
    }
    let kind = r.kind;
    if unanswered::is_answer(kind) {
        return hearing::settling::hear_answer(h, kind, r.figures.number, sent, unanswered);
    }
    hearing::hear_message(h, text, r, sent, received, unanswered, answers, out)
}

// RECEIVING: a text from the partner.
pub fn receive(
    h: Head,
    text: &[u8],
    sent: &mut [u8],
    received: &mut [u8],
    unanswered: &mut [u8],
    answers: &mut [u8],
    out: &mut [u8],
) -> Outcome
    ensures { Called (receive_of (length out.old) text.now) h (lent sent.old received.old unanswered.old answers.old) out.old result (lent sent.new received.new unanswered.new answers.new) out.new }
{
    if !memory::is_sound(h, &sent[..], &received[..], &unanswered[..], &answers[..]) {
        return Outcome {
            answer: Answer::NotFormed,
            head: h,
        };
    }
    let q = reader::read(text);
    let r = q.record;
    let v = q.verdict;
    match v {
        Verdict::Refused(place, before) => Outcome {
            answer: Answer::NotRead(place, before),
            head: h,
        },
        Verdict::Read => hear(h, text, r, sent, received, unanswered, answers, out),
    }
}
