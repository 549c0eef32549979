// Message numbers and the fields of a plan, each with its parts.
#![tactic(auto, using(fields::specs::Forth::goes_forth, crate::specs::Exits::exits), unfolding(fields::specs::Found::found_rules, crate::specs::Exits::found_model))]

ghost use Rattle.std.specs.Prelude.{◌≡◌, true, ◌≤◌};
ghost use Rattle.scan.specs.Scanner.{scan as scan_g};
ghost use Rattle.fields.specs.Fields.{rest16 as rest16_g};
ghost use Rattle.fields.specs.Numbers.{Numbered};
ghost use Rattle.plan_fields.specs.Exits.{found_model};
ghost use Rattle.fields.specs.Found.{found_number, found07, found08, found09, found10, found13, found13o, found_routed, found_after15, found_sped, found15, found_alternates, found16};

use fields::{Found, Found07, Found08, Found09, Found10, Found13, Found15, Found16, Number};
use scan::{Class, Scan, Span};

// Whether a whole number stands at `at`. One test for all twelve bytes costs less than one for each piece.
fn numbered(s: &[u8], at: usize) -> bool
    ensures { result ≡ true → Numbered s.now at }
{
    if s.len() < 12 || s.len() - 12 < at {
        return false;
    }
    let a = scan::all_in(&s[at..at + 4], b'A', b'Z', b'A', b'Z');
    let b = scan::is_in(Class::Byte(b'/'), s[at + 4]);
    let c = scan::all_in(&s[at + 5..at + 9], b'A', b'Z', b'A', b'Z');
    let d = scan::all_in(&s[at + 9..at + 12], b'0', b'9', b'0', b'9');
    a & b & c & d
}

// A message number, or a reference. Nearly always it is whole; only if not, piece by piece.
pub fn number(s: &[u8], r: Scan) -> Found<Number>
    ensures { result ≡ found_number s.now r }
{
    let at = r.next;
    if r.ok & numbered(s, at) {
        let a = Scan {
            next: at + 4,
            ok: true,
        };
        let b = Scan {
            next: at + 5,
            ok: true,
        };
        let c = Scan {
            next: at + 9,
            ok: true,
        };
        let d = Scan {
            next: at + 12,
            ok: true,
        };
        Found {
            end: d,
            parts: Number {
                sender: scan::between(r, a),
                receiver: scan::between(b, c),
                digits: scan::between(c, d),
            },
        }
    } else {
        let a = scan::letters(s, r, 4);
        let b = scan::byte(s, a, b'/');
        let c = scan::letters(s, b, 4);
        let d = scan::digits(s, c, 3);
        Found {
            end: d,
            parts: Number {
                sender: scan::between(r, a),
                receiver: scan::between(b, c),
                digits: scan::between(c, d),
            },
        }
    }
}

pub fn field07(s: &[u8], r: Scan) -> Found07
    ensures { result ≡ found07 0 s.now r }
{
    let a = scan::alnums(s, r, 2, 7);
    let n = scan::none();
    if !a.ok {
        return Found07 {
            end: a,
            aircraft: n,
            code: n,
        };
    }
    let aircraft = scan::between(r, a);
    let b = scan::byte(s, a, b'/');
    if !b.ok {
        return Found07 {
            end: a,
            aircraft,
            code: n,
        };
    }
    let x = scan::byte(s, b, b'A');
    let c = scan::octals(s, x, 4);
    Found07 {
        end: c,
        aircraft,
        code: scan::between(x, c),
    }
}

pub fn field08(s: &[u8], r: Scan) -> Found08
    ensures { result ≡ found08 0 s.now r }
{
    let a = scan::one_of(s, r, b'I', b'V', b'Y', b'Z', b'Z');
    let n = scan::none();
    if !a.ok {
        return Found08 {
            end: a,
            rules: n,
            flight: n,
        };
    }
    let rules = scan::between(r, a);
    let b = scan::one_of(s, a, b'S', b'N', b'G', b'M', b'X');
    if !b.ok {
        return Found08 {
            end: a,
            rules,
            flight: n,
        };
    }
    Found08 {
        end: b,
        rules,
        flight: scan::between(a, b),
    }
}

// Field 09 from its second part on, with the count that was found before.
fn modelled(s: &[u8], r: Scan, count: Span) -> Found09
    ensures { result ≡ found_model s.now r count }
{
    let l = scan::letter(s, r);
    let a = scan::alnums(s, l, 1, 3);
    if !a.ok {
        let n = scan::none();
        return Found09 {
            end: a,
            count,
            model: n,
            wake: n,
        };
    }
    let model = scan::between(r, a);
    let c = scan::byte(s, a, b'/');
    let d = scan::one_of(s, c, b'L', b'M', b'H', b'H', b'H');
    let wake = scan::between(c, d);
    Found09 {
        end: d,
        count,
        model,
        wake,
    }
}

// Where it begins with a letter, there is no count.
pub fn field09(s: &[u8], r: Scan) -> Found09
    ensures { result ≡ found09 0 s.now r }
{
    let l = scan::letter(s, r);
    let none = scan::none();
    if l.ok {
        return modelled(s, r, none);
    }
    let n = fields::counted(s, r);
    let count = scan::either(r, n, none, scan::between(r, n));
    modelled(s, scan::longer(r, n), count)
}

pub fn field10(s: &[u8], r: Scan) -> Found10
    ensures { result ≡ found10 0 s.now r }
{
    let a = scan::alnums(s, r, 1, 40);
    let n = scan::none();
    if !a.ok {
        return Found10 {
            end: a,
            equipment: n,
            surveillance: n,
        };
    }
    let equipment = scan::between(r, a);
    let b = scan::byte(s, a, b'/');
    if !b.ok {
        return Found10 {
            end: b,
            equipment,
            surveillance: n,
        };
    }
    let c = scan::alnums(s, b, 1, 20);
    Found10 {
        end: c,
        equipment,
        surveillance: scan::between(b, c),
    }
}

pub fn field13(s: &[u8], r: Scan) -> Found13
    ensures { result ≡ found13 0 s.now r }
{
    let a = scan::letters(s, r, 4);
    if !a.ok {
        let n = scan::none();
        return Found13 {
            end: a,
            departure: n,
            time: n,
        };
    }
    let departure = scan::between(r, a);
    let b = fields::time(s, a);
    let time = scan::between(a, b);
    Found13 {
        end: b,
        departure,
        time,
    }
}

// The time is optional.
pub fn field13o(s: &[u8], r: Scan) -> Found13
    ensures { result ≡ found13o s.now r }
{
    let a = scan::letters(s, r, 4);
    let n = scan::none();
    if !a.ok {
        return Found13 {
            end: a,
            departure: n,
            time: n,
        };
    }
    let departure = scan::between(r, a);
    let b = fields::time(s, a);
    if b.next == a.next {
        return Found13 {
            end: a,
            departure,
            time: n,
        };
    }
    Found13 {
        end: b,
        departure,
        time: scan::between(a, b),
    }
}

// A level that was scanned from r to l, then a blank and words of at most k bytes.
#[tactic(auto, using(fields::specs::Forth::goes_forth), unfolding(fields::specs::Found::found_routed))]
fn routed(s: &[u8], r: Scan, l: Scan, k: usize) -> Found15
    requires { r.next ≤ l.next }
    ensures { result ≡ found_routed s.now r l k }
{
    let b = scan::byte(s, l, b' ');
    let w = words::words(s, b, k);
    Found15 {
        end: w,
        speed: scan::none(),
        level: scan::between(r, l),
        route: scan::between(b, w),
    }
}

// Field 15 after its speed, of which k bytes are left. The first byte says which kind of level it can be.
fn after15(s: &[u8], r: Scan, k: usize) -> Found15
    requires { 7 ≤ k }
    ensures { result ≡ found_after15 k s.now r }
{
    let a = scan::one_of(s, r, b'F', b'A', b'A', b'A', b'A');
    if a.ok {
        routed(s, r, scan::digits(s, a, 3), k - 5)
    } else {
        let b = scan::one_of(s, r, b'S', b'M', b'M', b'M', b'M');
        if b.ok {
            routed(s, r, scan::digits(s, b, 4), k - 6)
        } else {
            routed(s, r, scan::lit(s, r, b"VFR"), k - 4)
        }
    }
}

// Field 15 with a speed that was scanned from r to v, and k bytes left.
#[tactic(auto, unfolding(fields::specs::Found::found_sped))]
fn sped(s: &[u8], r: Scan, v: Scan, k: usize) -> Found15
    requires { (7 ≤ k) × (r.next ≤ v.next) }
    ensures { result ≡ found_sped s.now r v k }
{
    Found15 {
        speed: scan::between(r, v),
        ..after15(s, v, k)
    }
}

pub fn field15(s: &[u8], r: Scan) -> Found15
    ensures { result ≡ found15 0 s.now r }
{
    let a = scan::one_of(s, r, b'K', b'N', b'N', b'N', b'N');
    if a.ok {
        sped(s, r, scan::digits(s, a, 4), 295)
    } else {
        sped(s, r, scan::digits(s, scan::byte(s, r, b'M'), 3), 296)
    }
}

// Up to two alternates, each a blank and four letters.
fn alternates(s: &[u8], r: Scan) -> Found16
    ensures { result ≡ found_alternates s.now r }
{
    let a = scan::byte(s, r, b' ');
    let b = scan::letters(s, a, 4);
    let c = scan::byte(s, b, b' ');
    let d = scan::letters(s, c, 4);
    let e = scan::longer(b, d);
    let two = scan::either(b, d, scan::none(), scan::between(c, d));
    Found16 {
        end: scan::longer(r, e),
        destination: scan::none(),
        elapsed: scan::none(),
        alternate: scan::either(r, e, scan::none(), scan::between(a, b)),
        alternate2: scan::either(r, e, scan::none(), two),
    }
}

// Field 16 from its fifth byte: an elapsed time or none, and the alternates.
pub fn rest16(s: &[u8], r: Scan) -> Scan
    ensures { result ≡ scan_g (rest16_g 0) s.now r }
{
    let h = scan::digits(s, r, 2);
    let b = fields::minute(s, h);
    alternates(s, scan::longer(r, b)).end
}

pub fn field16(s: &[u8], r: Scan) -> Found16
    ensures { result ≡ found16 0 s.now r }
{
    let a = scan::letters(s, r, 4);
    let n = scan::none();
    if !a.ok {
        return Found16 {
            end: a,
            destination: n,
            elapsed: n,
            alternate: n,
            alternate2: n,
        };
    }
    let destination = scan::between(r, a);
    let h = scan::digits(s, a, 2);
    let b = fields::minute(s, h);
    let elapsed = scan::either(a, b, n, scan::between(a, b));
    let l = scan::longer(a, b);
    let x = scan::byte(s, l, b' ');
    if !x.ok {
        return Found16 {
            end: l,
            destination,
            elapsed,
            alternate: n,
            alternate2: n,
        };
    }
    Found16 {
        destination,
        elapsed,
        ..alternates(s, l)
    }
}
