// The answers that were given: 1,000 bytes, one for each number.
#![tactic(auto)]

ghost use Rattle.std.specs.Prelude.{◌≡◌, ◌≤◌, length};
ghost use Rattle.scan.specs.Bools.{Decides};
ghost use Rattle.answers.specs.Given.{AnswersFormed, forgotten};

// Whether every byte has a value that it may have. It looks at each before it answers: so it becomes vector code.
pub fn is_answers(a: &[u8]) -> bool
    ensures { Decides result (AnswersFormed a.now) }
{
    if a.len() != 1000 {
        return false;
    }
    let mut ok = true;
    let mut i = 0;
    while i < 1000 {
        let b = a[i];
        ok = ok & ((b == 0) | (b == 1) | (b == 2) | (b == 57) | (b == 62));
        i += 1;
    }
    ok
}

// Forgets the answers to the numbers after h, up to and with n.
pub fn forget(a: &mut [u8], h: usize, n: usize)
    requires { (length a.old ≡ 1000) × (h ≤ 999) × (n ≤ 999) }
    ensures { a.new ≡ forgotten h n a.old }
{
    if h <= n {
        splice::fill(a, h + 1, n - h, 0);
        return;
    }
    splice::fill(a, h + 1, 999 - h, 0);
    splice::fill(a, 0, n + 1, 0);
}
