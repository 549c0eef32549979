// An answer is given to a message, and noted.
ghost use Rattle.std.specs.Prelude.{◌≡◌, cond, ◌≤◌, length};
ghost use Rattle.head.specs.Head.{received as raised_to};
ghost use Rattle.answers.specs.Given.{forgotten};
ghost use Rattle.rules.specs.Receiving.{given};
ghost use Rattle.hearing.specs.Hearing.{Replied};

use head::Head;
use rules::{Answer, Outcome};

// Where n is the highest so far, the answers to the numbers that it passed are forgotten.
fn forget_passed(answers: &mut [u8], fresh: bool, highest: usize, n: usize)
    requires { (length answers.old ≡ 1000) × (highest ≤ 999) × (n ≤ 999) }
    ensures { answers.new ≡ cond fresh (forgotten highest n answers.old) answers.old }
{
    if fresh {
        answers::forget(answers, highest, n);
    }
}

// Notes the answer v to the number n.
fn note(answers: &mut [u8], fresh: bool, highest: usize, n: usize, v: u8)
    requires { (length answers.old ≡ 1000) × (highest ≤ 999) × (n ≤ 999) }
    ensures { answers.new ≡ given n v (cond fresh (forgotten highest n answers.old) answers.old) }
{
    forget_passed(answers, fresh, highest, n);
    answers[n] = v;
}

// The head once the number n was heard.
fn heard(h: Head, fresh: bool, n: usize) -> Head
    ensures { result ≡ cond fresh (raised_to h n) h }
{
    if fresh {
        return h.receive(n);
    }
    h
}

// Gives the answer v, whose text there is room for, and notes it.
pub(crate) fn reply(
    h: Head,
    fresh: bool,
    n: usize,
    v: u8,
    text: &[u8],
    answers: &mut [u8],
    out: &mut [u8],
) -> Outcome
    requires { (length answers.old ≡ 1000) × (h.highest ≤ 999) × (n ≤ 999) × (length text.now ≤ length out.old) }
    ensures { Replied h fresh n v text.now answers.old out.old result answers.new out.new }
{
    note(answers, fresh, h.highest, n, v);
    let k = splice::put(out, 0, text);
    Outcome {
        answer: Answer::Done(k),
        head: heard(h, fresh, n),
    }
}
