// Words and the single blanks between them, by blocks of sixteen bytes.
#![tactic(auto)]

ghost use Rattle.std.specs.Prelude.{◌≡◌, false, ◌≤◌, ◌<◌, length};
ghost use Rattle.scan.specs.Grammar.{is_in, words as words_g};
ghost use Rattle.scan.specs.declared.Class.TheVariants.{Word};
ghost use Rattle.words.specs.Blocks.{clean_from};
ghost use Rattle.words.specs.Tail.{Tail};
ghost use Rattle.scan.specs.Scanner.{words_at, scan};

use scan::{Class, Scan};

// Where words stand after some of their bytes: the next byte, how many still fit, and whether a word byte stands just before.
#[derive(Clone, Copy)]
struct Ahead {
    next: usize,
    left: usize,
    mid: bool,
}

// The word bytes from 39 to 90, a bit for each, the lowest for 39.
const WORDS: u64 = 4503599578087345;

// Whether a byte is a word byte. Outside of the blocks bytes go one by one: most are letters, and of the others a bit of a number costs the
// least.
fn is_word(b: u8) -> bool
    ensures { result ≡ is_in Word b }
{
    if 65 <= b {
        return b <= 90;
    }
    if b < 39 {
        return false;
    }
    (WORDS >> (b - 39)) % 2 == 1
}

// Whether each byte after the first is a word byte, or a blank after a byte that is no blank.
// It looks at every byte before it answers: a loop with no way out becomes vector code.
// The flag is kept by `&`: with an `if` around `bad = 1` the compiler made no vectors of so many tests.
fn words_block(t: &[u8]) -> bool
    requires { 0 < length t.now }
    ensures { result ≡ clean_from t.now 1 }
{
    let mut ok = true;
    let mut j = 1;
    while j < t.len() {
        let w = scan::is_in(Class::Word, t[j]);
        let b = scan::is_in(Class::Byte(b' '), t[j]);
        let p = scan::is_in(Class::Byte(b' '), t[j - 1]);
        ok = ok & (w | (!p & b));
        j += 1;
    }
    ok
}

// How far words go by blocks of sixteen bytes. Each block is seen with the byte before it, so the first byte goes alone.
// A block is passed only where a byte more fits, so a blank at its end is within the limit.
fn words_ahead(s: &[u8], i: usize, k: usize) -> Ahead
    ensures { words_at result.left result.mid s.now result.next ≡ words_at k false s.now i }
{
    if k <= 17 {
        return Ahead {
            next: i,
            left: k,
            mid: false,
        };
    }
    if s.len() <= i {
        return Ahead {
            next: i,
            left: k,
            mid: false,
        };
    }
    if !scan::is_in(Class::Word, s[i]) {
        return Ahead {
            next: i,
            left: k,
            mid: false,
        };
    }
    let mut j = i;
    let mut left = k - 1;
    while 16 < left {
        if s.len() < j + 17 {
            break;
        }
        if !words_block(&s[j..j + 17]) {
            break;
        }
        j += 16;
        left -= 16;
    }
    let blank = scan::is_in(Class::Byte(b' '), s[j]);
    Ahead {
        next: j + 1,
        left,
        mid: !blank,
    }
}

// The last bytes, one by one, up to `end`: there the text ends and more would fit, or no more fits. So one place is held against
// another for each byte, and how many fit is asked at a blank only.
fn words_to(s: &[u8], at: usize, end: usize, more: bool, mid: bool) -> Scan
    requires { end ≤ length s.now }
    ensures { Tail more s.now at end mid result }
{
    let mut i = at;
    let mut m = mid;
    while i < end {
        let b = s[i];
        if is_word(b) {
            m = true;
            i += 1;
        } else {
            let blank = scan::is_in(Class::Byte(b' '), b);
            if m & blank & (more | (i + 1 < end)) {
                m = false;
                i += 1;
            } else {
                return Scan { next: i, ok: m };
            }
        }
    }
    Scan { next: i, ok: m }
}

// Runs of word bytes with one blank between, at most k bytes.
pub fn words(s: &[u8], r: Scan, k: usize) -> Scan
    ensures { result ≡ scan (words_g k) s.now r }
{
    if !r.ok {
        return r;
    }
    let a = words_ahead(s, r.next, k);
    if s.len() <= a.next {
        return Scan {
            next: a.next,
            ok: a.mid,
        };
    }
    if a.left <= s.len() - a.next {
        return words_to(s, a.next, a.next + a.left, false, a.mid);
    }
    words_to(s, a.next, s.len(), true, a.mid)
}
