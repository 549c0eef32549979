// Scanners that mirror a grammar: each gives where the longest viable beginning ends, and whether it is whole.
#![tactic(auto)]

ghost use Rattle.std.specs.Prelude.{◌≡◌, cond, eqb, false, ◌≤◌, ◌<◌};
ghost use Rattle.scan.specs.Grammar.{is_in, all, none as none_of, place_of, size_of, run as run_g, Derives};
ghost use Rattle.scan.specs.declared.Class.TheVariants.{Word};
ghost use Rattle.scan.specs.Laws.{Whole};
ghost use Rattle.scan.specs.Scanner.{run_at, scan, longer as longer_of, leads as leads_of, between16};
ghost use Rattle.scan.specs.Texts.{lit as lit_g, byte as byte_g, one as one_g};
ghost use Rattle.scan.specs.Bools.{Decides};

// Where a scan stopped, and whether what it passed is whole.
#[derive(Clone, Copy)]
pub struct Scan {
    pub next: usize,
    pub ok: bool,
}

// Where a part of a text stands and its length, as one number: a record has 54 of them, and numbers are handed on at less cost
// than structs. An absent part is 0.
pub type Span = u32;

// A class of bytes.
#[derive(Clone, Copy)]
pub enum Class {
    Letter,
    Digit,
    Octal,
    Alnum,
    Word,
    Byte(u8),
    Range(u8, u8),
    Two(u8, u8, u8, u8),
    Of(u8, u8, u8, u8, u8),
}

pub fn is_in(k: Class, b: u8) -> bool
    ensures { result ≡ is_in k b }
{
    match k {
        Class::Letter => (65 <= b) & (b <= 90),
        Class::Digit => (48 <= b) & (b <= 57),
        Class::Octal => (48 <= b) & (b <= 55),
        Class::Alnum => ((48 <= b) & (b <= 57)) | ((65 <= b) & (b <= 90)),
        Class::Word => {
            ((63 <= b) & (b <= 63))
                | ((39 <= b) & (b <= 39))
                | ((43 <= b) & (b <= 44))
                | ((46 <= b) & (b <= 58))
                | ((65 <= b) & (b <= 90))
        }
        Class::Byte(x) => (x <= b) & (b <= x),
        Class::Range(x, y) => (x <= b) & (b <= y),
        Class::Two(a, z, c, y) => ((c <= b) & (b <= y)) | ((a <= b) & (b <= z)),
        Class::Of(v, w, x, y, z) => {
            ((z <= b) & (b <= z))
                | ((y <= b) & (b <= y))
                | ((x <= b) & (b <= x))
                | ((w <= b) & (b <= w))
                | ((v <= b) & (b <= v))
        }
    }
}

// Whether a byte is from a to z or from b to y. Where bytes go one by one, a way out after each test costs less than all tests.
fn in_two(x: u8, a: u8, z: u8, b: u8, y: u8) -> bool
    ensures { result ≡ is_in (Class.Two a z b y) x }
{
    if x < a {
        return (b <= x) & (x <= y);
    }
    if x <= z {
        return true;
    }
    (b <= x) & (x <= y)
}

// How far bytes from a to z or from b to y go on, at most hi of them. The ranges are numbers and no class, so that they
// stand in registers.
fn reach(s: &[u8], at: usize, hi: usize, a: u8, z: u8, b: u8, y: u8) -> usize
    ensures { result ≡ run_at (Class.Two a z b y) hi s.now at }
{
    let mut i = at;
    let mut left = hi;
    while 0 < left {
        if s.len() <= i {
            return i;
        }
        if !in_two(s[i], a, z, b, y) {
            return i;
        }
        i += 1;
        left -= 1;
    }
    i
}

// Whether each byte is from a to z or from b to y. As in words_block, the loop has no way out.
pub fn all_in(t: &[u8], a: u8, z: u8, b: u8, y: u8) -> bool
    ensures { result ≡ all (Class.Two a z b y) t.now }
{
    let mut ok = true;
    let mut j = 0;
    while j < t.len() {
        ok = ok & is_in(Class::Two(a, z, b, y), t[j]);
        j += 1;
    }
    ok
}

// From lo to hi bytes from a to z or from b to y: by blocks of eight bytes, then one by one.
fn run_two(s: &[u8], r: Scan, lo: usize, hi: usize, a: u8, z: u8, b: u8, y: u8) -> Scan
    ensures { result ≡ scan (run_g (Class.Two a z b y) lo hi) s.now r }
{
    if !r.ok {
        return r;
    }
    let at = r.next;
    let mut i = at;
    let mut left = hi;
    while 8 <= left {
        if s.len() < 8 {
            break;
        }
        if s.len() - 8 < i {
            break;
        }
        if !all_in(&s[i..i + 8], a, z, b, y) {
            break;
        }
        i += 8;
        left -= 8;
    }
    let j = reach(s, i, left, a, z, b, y);
    Scan {
        next: j,
        ok: lo <= j - at,
    }
}

// Whether the k bytes from `at` on are there and each is from a to z.
fn all_there(s: &[u8], at: usize, k: usize, a: u8, z: u8) -> bool
    ensures { Whole (Class.Two a z a z) k s.now at result }
{
    if s.len() < at {
        return false;
    }
    if s.len() - at < k {
        return false;
    }
    all_in(&s[at..at + k], a, z, a, z)
}

// Exactly k bytes from a to z. Nearly always they are there, so all are looked at together; only if not, one by one, and
// then it is plain that the run is not whole.
fn exactly(s: &[u8], r: Scan, k: usize, a: u8, z: u8) -> Scan
    ensures { result ≡ scan (run_g (Class.Two a z a z) k k) s.now r }
{
    if !r.ok {
        return r;
    }
    let at = r.next;
    if all_there(s, at, k, a, z) {
        return Scan {
            next: at + k,
            ok: true,
        };
    }
    Scan {
        next: reach(s, at, k, a, z, a, z),
        ok: k == 0,
    }
}

// Exactly k bytes of a class: a function for each class, as for one byte.
pub fn letters(s: &[u8], r: Scan, k: usize) -> Scan
    ensures { result ≡ scan (run_g Class.Letter k k) s.now r }
{
    exactly(s, r, k, b'A', b'Z')
}

// Whether a text is a name of four letters, a unit's or a place's.
pub fn is_name(t: &[u8]) -> bool
    ensures { Decides result (Derives (run_g Class.Letter 4 4) t.now) }
{
    let q = letters(t, Scan { next: 0, ok: true }, 4);
    q.ok & (q.next == t.len())
}

pub fn digits(s: &[u8], r: Scan, k: usize) -> Scan
    ensures { result ≡ scan (run_g Class.Digit k k) s.now r }
{
    exactly(s, r, k, b'0', b'9')
}

pub fn octals(s: &[u8], r: Scan, k: usize) -> Scan
    ensures { result ≡ scan (run_g Class.Octal k k) s.now r }
{
    exactly(s, r, k, b'0', b'7')
}

// From lo to hi letters or digits.
pub fn alnums(s: &[u8], r: Scan, lo: usize, hi: usize) -> Scan
    ensures { result ≡ scan (run_g Class.Alnum lo hi) s.now r }
{
    run_two(s, r, lo, hi, b'A', b'Z', b'0', b'9')
}

// One byte of a class. There is a function for each kind of class, with its bytes as numbers, so that each becomes a
// few instructions where it is called.
pub fn in_range(s: &[u8], r: Scan, a: u8, z: u8) -> Scan
    ensures { result ≡ scan (one_g (Class.Range a z)) s.now r }
{
    if !r.ok {
        return r;
    }
    let at = r.next;
    if s.len() <= at {
        return Scan {
            next: at,
            ok: false,
        };
    }
    if is_in(Class::Range(a, z), s[at]) {
        return Scan {
            next: at + 1,
            ok: true,
        };
    }
    Scan {
        next: at,
        ok: false,
    }
}

pub fn digit(s: &[u8], r: Scan) -> Scan
    ensures { result ≡ scan (one_g Class.Digit) s.now r }
{
    in_range(s, r, b'0', b'9')
}

pub fn letter(s: &[u8], r: Scan) -> Scan
    ensures { result ≡ scan (one_g Class.Letter) s.now r }
{
    in_range(s, r, b'A', b'Z')
}

pub fn one_of(s: &[u8], r: Scan, a: u8, b: u8, c: u8, d: u8, e: u8) -> Scan
    ensures { result ≡ scan (one_g (Class.Of a b c d e)) s.now r }
{
    if !r.ok {
        return r;
    }
    let at = r.next;
    if s.len() <= at {
        return Scan {
            next: at,
            ok: false,
        };
    }
    if is_in(Class::Of(a, b, c, d, e), s[at]) {
        return Scan {
            next: at + 1,
            ok: true,
        };
    }
    Scan {
        next: at,
        ok: false,
    }
}

// One given byte.
pub fn byte(s: &[u8], r: Scan, b: u8) -> Scan
    ensures { result ≡ scan (byte_g b) s.now r }
{
    if !r.ok {
        return r;
    }
    let at = r.next;
    if s.len() <= at {
        return Scan {
            next: at,
            ok: false,
        };
    }
    if s[at] == b {
        return Scan {
            next: at + 1,
            ok: true,
        };
    }
    Scan {
        next: at,
        ok: false,
    }
}

// A given text.
pub fn lit<'a>(s: &'a [u8], r: Scan, w: &'a [u8]) -> Scan
    ensures { result ≡ scan (lit_g w.now) s.now r }
{
    let mut q = r;
    let mut i = 0;
    while i < w.len() {
        q = byte(s, q, w[i]);
        i += 1;
    }
    q
}

// The longer of two.
pub fn longer(a: Scan, b: Scan) -> Scan
    ensures { result ≡ longer_of a b }
{
    if a.next < b.next {
        return b;
    }
    if b.next < a.next {
        return a;
    }
    Scan {
        next: a.next,
        ok: a.ok | b.ok,
    }
}

// Whether the longer of two is the first.
pub fn leads(a: Scan, b: Scan) -> bool
    ensures { result ≡ leads_of a b }
{
    if a.next < b.next {
        return false;
    }
    if b.next < a.next {
        return true;
    }
    a.ok
}

// An absent part.
pub fn none() -> Span
    ensures { result ≡ none_of }
{
    0
}

// The part between two scans, absent where the second is not whole.
pub fn between(a: Scan, b: Scan) -> Span
    requires { a.next ≤ b.next }
    ensures { result ≡ between16 a b }
{
    if b.ok {
        return (a.next % 65536 * 65536 + (b.next - a.next) % 65536) as u32;
    }
    0
}

// The one where the first scan leads, else the other.
pub fn either(a: Scan, b: Scan, x: Span, y: Span) -> Span
    ensures { result ≡ cond (leads_of a b) x y }
{
    if leads(a, b) {
        return x;
    }
    y
}

// A byte as a number of a slice's width.
pub fn wide(x: u8) -> usize
    ensures { (result ≡ x) × (result < 256) }
{
    x as usize
}

// Where a part stands.
pub fn place(p: Span) -> usize
    ensures { (result ≡ place_of p) × (result < 65536) }
{
    (p / 65536) as usize
}

// How many bytes a part has.
pub fn size(p: Span) -> usize
    ensures { (result ≡ size_of p) × (result < 65536) }
{
    (p % 65536) as usize
}

// Whether a part is absent.
pub fn is_absent(p: Span) -> bool
    ensures { result ≡ eqb (size_of p) 0 }
{
    p % 65536 == 0
}
