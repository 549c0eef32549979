// An end of a link is asked to send.
ghost use Rattle.std.specs.Prelude.{List, ℕ, length};
ghost use Rattle.message.specs.declared.Verdict.TheVariants.{Read};
ghost use Rattle.reader.specs.Reader.{Ruled};
ghost use Rattle.head.specs.Sound.{HeadFormed};
ghost use Rattle.flights.specs.Formed.{TableFormed};
ghost use Rattle.answers.specs.Given.{AnswersFormed};
ghost use Rattle.memory.specs.End.{lent};
ghost use Rattle.rules.specs.Sending.{send as send_of};
ghost use Rattle.rules.specs.Calls.{Called};
ghost use Rattle.link.specs.Sends.{Sent};
ghost use Rattle.link.specs.Sending.{Refuses};

use head::Head;
use message::Record;
use rules::{Answer, Outcome};
use writer::Drafting;

// What has no text to send is refused by 13; 12 for the unanswered messages comes before.
fn refuse(h: Head, unanswered: &[u8]) -> Outcome
    ensures { Refuses h unanswered.now result }
{
    let ours = h.ours;
    let partners = h.partners;
    if unanswered::is_unanswered(unanswered, &ours, &partners) {
        return Outcome {
            answer: Answer::BreaksRule,
            head: h,
        };
    }
    Outcome {
        answer: Answer::NotFormed,
        head: h,
    }
}

// A text that was laid out is sent; it is read again for its record.
fn send_draft(
    h: Head,
    w: &[u8],
    sent: &[u8],
    received: &mut [u8],
    unanswered: &mut [u8],
    out: &mut [u8],
) -> Outcome
    requires { Ruled w.now Read × HeadFormed h × TableFormed sent.now × TableFormed received.old }
    ensures { (A : List ℕ) → AnswersFormed A → Called (send_of (length out.old) w.now) h (lent sent.now received.old unanswered.old A) out.old result (lent sent.now received.new unanswered.new A) out.new }
{
    let q = reader::read(w);
    sending::send_text(h, w, q.record, sent, received, unanswered, out)
}

// SENDING what a record over the bytes d says, under the next number. The unanswered messages are looked at with its text at
// hand, each once; nothing lent is written before.
pub fn send(
    h: Head,
    r: Record,
    d: &[u8],
    sent: &[u8],
    received: &mut [u8],
    unanswered: &mut [u8],
    answers: &[u8],
    out: &mut [u8],
) -> Outcome
    ensures { Sent d.now r h (lent sent.now received.old unanswered.old answers.now) out.old result (lent sent.now received.new unanswered.new answers.now) out.new }
{
    if !memory::is_sound_beside(h, sent, received, answers) {
        return Outcome {
            answer: Answer::NotFormed,
            head: h,
        };
    }
    let k = r.kind;
    let answer = unanswered::is_answer(k);
    if answer {
        return refuse(h, unanswered);
    }
    let ours = h.ours;
    let partners = h.partners;
    let mut text = [0u8; 1077];
    let v = writer::draft(&mut text, &ours, &partners, h.next, r, d);
    match v {
        Drafting::Written(n) => send_draft(h, &text[..n], sent, received, unanswered, out),
        Drafting::BreaksRule => refuse(h, unanswered),
    }
}
