// Document 01's fields: each function mirrors the grammar of one field and notes where its parts stand.
#![tactic(auto, using(crate::specs::Chosen::choices, crate::specs::Forth::goes_forth), unfolding(crate::specs::Fields::field_rules, crate::specs::Found::found_rules))]

ghost use Rattle.std.specs.Prelude.{◌≡◌};
ghost use Rattle.scan.specs.Scanner.{scan as scan_g};
ghost use Rattle.fields.specs.Fields.{counted as counted_g, hour as hour_g, minute as minute_g, timed, levelled, bearing as bearing_g};
ghost use Rattle.fields.specs.Found.{found18};

use scan::{Scan, Span};

// Where a scan ended, and the parts that it found.
#[derive(Clone, Copy)]
pub struct Found<T> {
    pub end: Scan,
    pub parts: T,
}

// The parts of a message number or a reference.
#[derive(Clone, Copy, Default)]
pub struct Number {
    pub sender: Span,
    pub receiver: Span,
    pub digits: Span,
}

// The parts of field 14.
#[derive(Clone, Copy, Default)]
pub struct Estimate {
    pub point: Span,
    pub over: Span,
    pub crossing: Span,
    pub second: Span,
    pub sense: Span,
}

// The fields of a plan: their parts are copied into a plan one by one, and are no struct elsewhere, so each names them beside its end.
#[derive(Clone, Copy)]
pub struct Found07 {
    pub end: Scan,
    pub aircraft: Span,
    pub code: Span,
}

#[derive(Clone, Copy)]
pub struct Found08 {
    pub end: Scan,
    pub rules: Span,
    pub flight: Span,
}

#[derive(Clone, Copy)]
pub struct Found09 {
    pub end: Scan,
    pub count: Span,
    pub model: Span,
    pub wake: Span,
}

#[derive(Clone, Copy)]
pub struct Found10 {
    pub end: Scan,
    pub equipment: Span,
    pub surveillance: Span,
}

#[derive(Clone, Copy)]
pub struct Found13 {
    pub end: Scan,
    pub departure: Span,
    pub time: Span,
}

#[derive(Clone, Copy)]
pub struct Found15 {
    pub end: Scan,
    pub speed: Span,
    pub level: Span,
    pub route: Span,
}

#[derive(Clone, Copy)]
pub struct Found16 {
    pub end: Scan,
    pub destination: Span,
    pub elapsed: Span,
    pub alternate: Span,
    pub alternate2: Span,
}

#[derive(Clone, Copy)]
pub struct Found18 {
    pub end: Scan,
    pub indicator: Span,
    pub other: Span,
}

// A number 2 to 99 without leading zero.
pub fn counted(s: &[u8], r: Scan) -> Scan
    ensures { result ≡ scan_g counted_g s.now r }
{
    let a = scan::in_range(s, r, b'2', b'9');
    let b = scan::in_range(s, r, b'1', b'9');
    scan::longer(a, scan::digit(s, b))
}

fn hour(s: &[u8], r: Scan) -> Scan
    ensures { result ≡ scan_g hour_g s.now r }
{
    let a = scan::in_range(s, r, b'0', b'1');
    if a.ok {
        scan::digit(s, a)
    } else {
        scan::in_range(s, scan::byte(s, r, b'2'), b'0', b'3')
    }
}

pub fn minute(s: &[u8], r: Scan) -> Scan
    ensures { result ≡ scan_g minute_g s.now r }
{
    let a = scan::in_range(s, r, b'0', b'5');
    scan::digit(s, a)
}

// 0000 to 2359.
pub fn time(s: &[u8], r: Scan) -> Scan
    ensures { result ≡ scan_g timed s.now r }
{
    minute(s, hour(s, r))
}

// F or A with three digits, or S or M with four.
pub fn level(s: &[u8], r: Scan) -> Scan
    ensures { result ≡ scan_g levelled s.now r }
{
    let a = scan::one_of(s, r, b'F', b'A', b'A', b'A', b'A');
    if a.ok {
        scan::digits(s, a, 3)
    } else {
        scan::digits(s, scan::one_of(s, r, b'S', b'M', b'M', b'M', b'M'), 4)
    }
}

// 000 to 360.
pub fn bearing(s: &[u8], r: Scan) -> Scan
    ensures { result ≡ scan_g bearing_g s.now r }
{
    let a = scan::in_range(s, r, b'0', b'2');
    if a.ok {
        scan::digits(s, a, 2)
    } else {
        let c = scan::byte(s, r, b'3');
        let d = scan::in_range(s, c, b'0', b'5');
        if d.ok {
            scan::digit(s, d)
        } else {
            scan::lit(s, c, b"60")
        }
    }
}

// Three letters and a slash leave no room for a fourth letter, and what stops three letters stops four.
pub fn field18(s: &[u8], r: Scan) -> Found18
    ensures { result ≡ found18 0 s.now r }
{
    let a = scan::byte(s, r, b'0');
    if a.ok {
        Found18 {
            end: a,
            indicator: scan::between(r, a),
            other: scan::none(),
        }
    } else {
        let b = scan::letters(s, r, 3);
        let c = scan::byte(s, b, b'/');
        if c.ok {
            let d = words::words(s, c, 296);
            Found18 {
                end: d,
                indicator: scan::between(r, b),
                other: scan::between(c, d),
            }
        } else {
            let e = scan::letters(s, r, 4);
            let f = scan::byte(s, e, b'/');
            let g = words::words(s, f, 295);
            Found18 {
                end: g,
                indicator: scan::between(r, e),
                other: scan::between(f, g),
            }
        }
    }
}
