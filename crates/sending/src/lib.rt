// Sending a message whose text is laid out already: everything is decided before anything is written.
#![tactic(auto)]

ghost use Rattle.std.specs.Prelude.{◌≡◌, ℕ, ◌<◌, List, true, length};
ghost use Rattle.message.specs.declared.Verdict.TheVariants.{Read};
ghost use Rattle.reader.specs.Reading.{Judged};
ghost use Rattle.flights.specs.Formed.{TableFormed};
ghost use Rattle.head.specs.Sound.{HeadFormed};
ghost use Rattle.places.specs.Place.{At};
ghost use Rattle.unanswered.specs.Waiting.{UnansweredFormed};
ghost use Rattle.deeds.specs.Message.{message_of};
ghost use Rattle.answers.specs.Given.{AnswersFormed};
ghost use Rattle.memory.specs.End.{lent};
ghost use Rattle.rules.specs.Sending.{send};
ghost use Rattle.rules.specs.Calls.{Called};
ghost use Rattle.sending.specs.Survey.{Sees, Counted, Surveys};
ghost use Rattle.sending.specs.Sent.{Sends};

mod asking;
mod handing;

use head::Head;
use message::Record;
use rules::{Answer, Outcome};
use unanswered::Shown;

// What one place shows: whether it is well formed, and whether its message names this one's flight, or makes one.
#[derive(Clone, Copy)]
struct Seen {
    sound: bool,
    named: bool,
    makes: bool,
}

// What all 16 show: whether they are well formed (12), whether a message names this one's flight (7), how many make one (11).
#[derive(Clone, Copy)]
struct Surveyed {
    sound: bool,
    named: bool,
    makers: usize,
}

// Place i, for the message r of the text w. Its own text is read once.
fn see<'a>(u: &'a [u8], i: usize, ours: &[u8], partners: &[u8], w: &'a [u8], r: Record) -> Seen
    requires { (length u.now ≡ 20480) × (i < 16) × Judged w.now Read r }
    ensures { Sees ours.now partners.now (message_of w.now r) u.now i result }
{
    let l = unanswered::look(u, i);
    match l {
        Shown::Broken => Seen {
            sound: false,
            named: false,
            makes: false,
        },
        Shown::Empty => Seen {
            sound: true,
            named: false,
            makes: false,
        },
        Shown::Message => {
            let s = unanswered::text(u, i);
            let q = reader::read(s);
            let its = q.record;
            if !unanswered::is_proper(u, i, its, ours, partners) {
                return Seen {
                    sound: false,
                    named: false,
                    makes: false,
                };
            }
            Seen {
                sound: true,
                named: rules::names_one(w, r, s, its),
                makes: deeds::makes(deeds::deed_of(s, its)),
            }
        }
    }
}

// The 16 places, once.
fn survey<'a>(u: &'a [u8], ours: &[u8], partners: &[u8], w: &'a [u8], r: Record) -> Surveyed
    requires { Judged w.now Read r }
    ensures { Surveys ours.now partners.now (message_of w.now r) u.now result }
{
    let mut named = false;
    let mut makers = 0;
    if u.len() != 20480 {
        return Surveyed {
            sound: false,
            named,
            makers,
        };
    }
    let mut i = 0;
    while i < 16 {
        let x = see(u, i, ours, partners, w, r);
        if !x.sound {
            return Surveyed {
                sound: false,
                named,
                makers,
            };
        }
        named = named | x.named;
        if x.makes {
            makers += 1;
        }
        i += 1;
    }
    Surveyed {
        sound: true,
        named,
        makers,
    }
}

// THE CALL

// Checks 9, 7, 10, 11 and 2, and then the writes.
fn send_at(
    i: usize,
    h: Head,
    w: &[u8],
    r: Record,
    x: Surveyed,
    sent: &[u8],
    received: &mut [u8],
    unanswered: &mut [u8],
    out: &mut [u8],
) -> Outcome
    requires { (i < 16) × Judged w.now Read r × HeadFormed h × TableFormed sent.now × TableFormed received.old × UnansweredFormed h.ours h.partners unanswered.old × Counted (message_of w.now r) unanswered.old x }
    ensures { Sends (At i) (message_of w.now r) h w.now sent.now received.old unanswered.old out.old result received.new unanswered.new out.new }
{
    if asking::too_far_back(unanswered, h.next) {
        return Outcome {
            answer: Answer::TooFarBack,
            head: h,
        };
    }
    if x.named {
        return Outcome {
            answer: Answer::NamedAlready,
            head: h,
        };
    }
    let c = asking::decide(sent, received, w, r);
    if !asking::holds(c) {
        return Outcome {
            answer: Answer::ConditionFails,
            head: h,
        };
    }
    if asking::is_filled(sent, x.makers, w, r) {
        return Outcome {
            answer: Answer::TableFull,
            head: h,
        };
    }
    if out.len() < w.len() {
        return Outcome {
            answer: Answer::NoRoom,
            head: h,
        };
    }
    handing::hand_over(i, c, h, w, r, received, unanswered, out)
}

// A text with the next number is sent, or it is refused by the first check that fails: 12 for the unanswered messages, 8, 9, 7,
// 10, 11, 2.
pub fn send_text(
    h: Head,
    w: &[u8],
    r: Record,
    sent: &[u8],
    received: &mut [u8],
    unanswered: &mut [u8],
    out: &mut [u8],
) -> Outcome
    requires { Judged w.now Read r × HeadFormed h × TableFormed sent.now × TableFormed received.old }
    ensures { (A : List ℕ) → AnswersFormed A → Called (send (length out.old) w.now) h (lent sent.now received.old unanswered.old A) out.old result (lent sent.now received.new unanswered.new A) out.new }
{
    let ours = h.ours;
    let partners = h.partners;
    let x = survey(unanswered, &ours, &partners, w, r);
    if !x.sound {
        return Outcome {
            answer: Answer::NotFormed,
            head: h,
        };
    }
    let p = unanswered::lowest_free(unanswered);
    match p {
        Some(i) => send_at(i, h, w, r, x, sent, received, unanswered, out),
        None => Outcome {
            answer: Answer::TooManyUnanswered,
            head: h,
        },
    }
}
