// An end of a link is set up.
ghost use Rattle.std.specs.Prelude.{◌≡◌, length, replicate};
ghost use Rattle.scan.specs.Bools.{Decides};
ghost use Rattle.memory.specs.End.{lent};
ghost use Rattle.head.specs.Sound.{Names};
ghost use Rattle.link.specs.SetUp.{Sized, Sizes, first_head, SetsUp};

use head::Head;
use rules::{Answer, Outcome};

// Whether a table is of 1 to 32 places.
fn is_sized(t: &[u8]) -> bool
    ensures { Decides result (Sized t.now) }
{
    let n = t.len() / 768;
    (1 <= n) & (n <= 32) & (t.len() == n * 768)
}

// Whether all that is lent has its size. What stands in it does not count: it is written over.
fn are_sizes(sent: &[u8], received: &[u8], unanswered: &[u8], answers: &[u8]) -> bool
    ensures { Decides result (Sizes (lent sent.now received.now unanswered.now answers.now)) }
{
    is_sized(sent) & is_sized(received) & (unanswered.len() == 20480) & (answers.len() == 1000)
}

// The head of a fresh end.
fn first_head(ours: &[u8], partners: &[u8]) -> Head
    requires { (length ours.now ≡ 4) × (length partners.now ≡ 4) }
    ensures { result ≡ first_head ours.now partners.now }
{
    Head {
        ours: [ours[0], ours[1], ours[2], ours[3]],
        partners: [partners[0], partners[1], partners[2], partners[3]],
        next: 0,
        highest: 999,
    }
}

// Whether the two names are those of two ends.
fn are_names(ours: &[u8], partners: &[u8]) -> bool
    ensures { Decides result (Names ours.now partners.now) }
{
    if ours.len() != 4 {
        return false;
    }
    if partners.len() != 4 {
        return false;
    }
    let h = first_head(ours, partners);
    h.is_sound()
}

// Makes every byte zero.
fn clear(t: &mut [u8])
    ensures { t.new ≡ replicate (length t.old) 0 }
{
    let n = t.len();
    splice::fill(t, 0, n, 0);
}

// SETTING UP an end, over whatever stands in the memory.
pub fn set_up(
    h: Head,
    ours: &[u8],
    partners: &[u8],
    sent: &mut [u8],
    received: &mut [u8],
    unanswered: &mut [u8],
    answers: &mut [u8],
) -> Outcome
    ensures { SetsUp ours.now partners.now h (lent sent.old received.old unanswered.old answers.old) result (lent sent.new received.new unanswered.new answers.new) }
{
    if !are_sizes(sent, received, unanswered, answers) {
        return Outcome {
            answer: Answer::NotFormed,
            head: h,
        };
    }
    if !are_names(ours, partners) {
        return Outcome {
            answer: Answer::BadNames,
            head: h,
        };
    }
    clear(sent);
    clear(received);
    clear(unanswered);
    clear(answers);
    Outcome {
        answer: Answer::Done(0),
        head: first_head(ours, partners),
    }
}
