// The ten types of message: each function mirrors one line of document 01's table and notes where the parts stand.
#![tactic(auto, using(fields::specs::Forth::goes_forth, crate::specs::Scanned::endings), unfolding(crate::specs::Scanned::scanned_rules))]

ghost use Rattle.std.specs.Prelude.{◌≡◌, [], ◌∷◌, ◌<◌, get_or};
ghost use Rattle.scan.specs.Grammar.{none};
ghost use Rattle.scan.specs.Texts.{lit};
ghost use Rattle.scan.specs.Scanner.{scan_at};
ghost use Rattle.types.specs.Messages.{opened as opened_g, referring as referring_g, fpl as fpl_g, cpl as cpl_g, est as est_g, chg as chg_g, cnl as cnl_g, rti as rti_g, rta as rta_g, rla as rla_g, lam as lam_g, lrm as lrm_g, message as message_g};
ghost use Rattle.types.specs.Scanned.{parts_of, opened_by, front_of, scanned_by, stopped_at};
ghost use Rattle.types.specs.Arms.{keys_of};
ghost use Rattle.types.specs.Picking.{unknown_of, fpl_arm, other_arms, letters_of};

use changes::Plan;
use fields::Found;
pub use fields::{Estimate, Number};
use scan::{Scan, Span};

// Where every part stands. `own` are the message's fields 07 to 18, `changes` those within field 22, `sector` is
// field 31, `track` field 32, `reason` the digits of an LRM.
#[derive(Clone, Copy)]
pub struct Parts {
    pub number: Number,
    pub reference: Number,
    pub own: Plan,
    pub estimate: Estimate,
    pub changes: Plan,
    pub sector: Span,
    pub track: Span,
    pub reason: Span,
}

// The numbers with which a text begins.
#[derive(Clone, Copy)]
struct Heading {
    number: Number,
    reference: Number,
}

// "(" and the three letters of the type.
fn opens(s: &[u8], a: u8, b: u8, c: u8) -> Scan
    ensures { result ≡ scan_at (lit (40 ∷ a ∷ b ∷ c ∷ [])) s.now 0 }
{
    let r = scan::byte(s, Scan { next: 0, ok: true }, b'(');
    let x = scan::byte(s, r, a);
    let y = scan::byte(s, x, b);
    scan::byte(s, y, c)
}

// The same, and the number. It and the reference are taken apart and put together anew: where they are moved as they come, the compiler
// moves them byte by byte.
fn opened(s: &[u8], a: u8, b: u8, c: u8) -> Found<Heading>
    ensures { result ≡ opened_by (opened_g a b c) s.now }
{
    let Found {
        end,
        parts: Number {
            sender,
            receiver,
            digits,
        },
    } = plan_fields::number(s, opens(s, a, b, c));
    Found {
        end,
        parts: Heading {
            number: Number {
                sender,
                receiver,
                digits,
            },
            reference: Number::default(),
        },
    }
}

// The same, and the reference.
#[tactic(auto, unfolding(fields::specs::Fields::in_numbered, crate::specs::Scanned::scanned_rules))]
fn referring(s: &[u8], a: u8, b: u8, c: u8) -> Found<Heading>
    ensures { result ≡ opened_by (referring_g a b c) s.now }
{
    let h = opened(s, a, b, c);
    let Found {
        end,
        parts: Number {
            sender,
            receiver,
            digits,
        },
    } = plan_fields::number(s, h.end);
    Found {
        end,
        parts: Heading {
            number: h.parts.number,
            reference: Number {
                sender,
                receiver,
                digits,
            },
        },
    }
}

// Fields 07 to 10.
fn front(s: &[u8], r: Scan) -> Found<Plan>
    ensures { result ≡ front_of s.now r }
{
    let a = plan_fields::field07(s, r);
    let b = plan_fields::field08(s, scan::byte(s, a.end, b'-'));
    let c = plan_fields::field09(s, scan::byte(s, b.end, b'-'));
    let d = plan_fields::field10(s, scan::byte(s, c.end, b'-'));
    Found {
        end: d.end,
        parts: Plan {
            aircraft: a.aircraft,
            code: a.code,
            rules: b.rules,
            flight: b.flight,
            count: c.count,
            model: c.model,
            wake: c.wake,
            equipment: d.equipment,
            surveillance: d.surveillance,
            ..changes::no_plan()
        },
    }
}

pub fn no_parts() -> Parts
    ensures { result ≡ parts_of (λ _. none) }
{
    Parts {
        number: Number::default(),
        reference: Number::default(),
        own: changes::no_plan(),
        estimate: Estimate::default(),
        changes: changes::no_plan(),
        sector: scan::none(),
        track: scan::none(),
        reason: scan::none(),
    }
}

// A text that stops at `end`: it has no parts.
fn stopped(end: Scan) -> Found<Parts>
    ensures { result ≡ stopped_at end }
{
    Found {
        end,
        parts: no_parts(),
    }
}

// ---- the ten types. Most texts that are refused stop before their last fields, so the longer types have a way out on the way. Each is
// inlined where it is picked: else the parts are made even for a caller that only asks whether a text is read.

#[inline(always)]
fn fpl(s: &[u8]) -> Found<Parts>
    ensures { result ≡ scanned_by fpl_g s.now }
{
    let h = opened(s, b'F', b'P', b'L');
    let f = front(s, scan::byte(s, h.end, b'-'));
    if !f.end.ok {
        return stopped(f.end);
    }
    let d = plan_fields::field13(s, scan::byte(s, f.end, b'-'));
    let r = plan_fields::field15(s, scan::byte(s, d.end, b'-'));
    let a = plan_fields::field16(s, scan::byte(s, r.end, b'-'));
    let o = fields::field18(s, scan::byte(s, a.end, b'-'));
    let end = scan::byte(s, o.end, b')');
    if !end.ok {
        return stopped(end);
    }
    Found {
        end,
        parts: Parts {
            number: h.parts.number,
            reference: h.parts.reference,
            own: Plan {
                departure: d.departure,
                time: d.time,
                speed: r.speed,
                level: r.level,
                route: r.route,
                destination: a.destination,
                elapsed: a.elapsed,
                alternate: a.alternate,
                alternate2: a.alternate2,
                indicator: o.indicator,
                other: o.other,
                ..f.parts
            },
            ..no_parts()
        },
    }
}

#[inline(always)]
fn cpl(s: &[u8]) -> Found<Parts>
    ensures { result ≡ scanned_by cpl_g s.now }
{
    let h = opened(s, b'C', b'P', b'L');
    let f = front(s, scan::byte(s, h.end, b'-'));
    if !f.end.ok {
        return stopped(f.end);
    }
    let e2 = scan::byte(s, f.end, b'-');
    let e3 = scan::letters(s, e2, 4);
    let x = points::field14(s, scan::byte(s, e3, b'-'));
    let r = plan_fields::field15(s, scan::byte(s, x.end, b'-'));
    let e6 = scan::byte(s, r.end, b'-');
    let e7 = scan::letters(s, e6, 4);
    let o = fields::field18(s, scan::byte(s, e7, b'-'));
    let end = scan::byte(s, o.end, b')');
    if !end.ok {
        return stopped(end);
    }
    Found {
        end,
        parts: Parts {
            number: h.parts.number,
            reference: h.parts.reference,
            own: Plan {
                departure: scan::between(e2, e3),
                speed: r.speed,
                level: r.level,
                route: r.route,
                destination: scan::between(e6, e7),
                indicator: o.indicator,
                other: o.other,
                ..f.parts
            },
            estimate: x.parts,
            ..no_parts()
        },
    }
}

#[inline(always)]
fn est(s: &[u8]) -> Found<Parts>
    ensures { result ≡ scanned_by est_g s.now }
{
    let h = referring(s, b'E', b'S', b'T');
    let i = plan_fields::field07(s, scan::byte(s, h.end, b'-'));
    let e2 = scan::byte(s, i.end, b'-');
    let e3 = scan::letters(s, e2, 4);
    if !e3.ok {
        return stopped(e3);
    }
    let x = points::field14(s, scan::byte(s, e3, b'-'));
    let e5 = scan::byte(s, x.end, b'-');
    let e6 = scan::letters(s, e5, 4);
    let end = scan::byte(s, e6, b')');
    if !end.ok {
        return stopped(end);
    }
    Found {
        end,
        parts: Parts {
            number: h.parts.number,
            reference: h.parts.reference,
            own: Plan {
                aircraft: i.aircraft,
                code: i.code,
                departure: scan::between(e2, e3),
                destination: scan::between(e5, e6),
                ..changes::no_plan()
            },
            estimate: x.parts,
            ..no_parts()
        },
    }
}

#[inline(always)]
fn chg(s: &[u8]) -> Found<Parts>
    ensures { result ≡ scanned_by chg_g s.now }
{
    let h = referring(s, b'C', b'H', b'G');
    let e1 = scan::byte(s, h.end, b'-');
    let e2 = scan::alnums(s, e1, 2, 7);
    let d = plan_fields::field13o(s, scan::byte(s, e2, b'-'));
    let e4 = scan::byte(s, d.end, b'-');
    let e5 = scan::letters(s, e4, 4);
    if !e5.ok {
        return stopped(e5);
    }
    let c = changes::changed(s, scan::byte(s, e5, b'-'));
    let end = scan::byte(s, c.end, b')');
    if !end.ok {
        return stopped(end);
    }
    Found {
        end,
        parts: Parts {
            number: h.parts.number,
            reference: h.parts.reference,
            own: Plan {
                aircraft: scan::between(e1, e2),
                departure: d.departure,
                time: d.time,
                destination: scan::between(e4, e5),
                indicator: c.indicator,
                other: c.other,
                ..changes::no_plan()
            },
            changes: c.plan,
            ..no_parts()
        },
    }
}

#[inline(always)]
fn cnl(s: &[u8]) -> Found<Parts>
    ensures { result ≡ scanned_by cnl_g s.now }
{
    let h = referring(s, b'C', b'N', b'L');
    let e1 = scan::byte(s, h.end, b'-');
    let e2 = scan::alnums(s, e1, 2, 7);
    let d = plan_fields::field13o(s, scan::byte(s, e2, b'-'));
    let e4 = scan::byte(s, d.end, b'-');
    let e5 = scan::letters(s, e4, 4);
    if !e5.ok {
        return stopped(e5);
    }
    let o = fields::field18(s, scan::byte(s, e5, b'-'));
    let end = scan::byte(s, o.end, b')');
    if !end.ok {
        return stopped(end);
    }
    Found {
        end,
        parts: Parts {
            number: h.parts.number,
            reference: h.parts.reference,
            own: Plan {
                aircraft: scan::between(e1, e2),
                departure: d.departure,
                time: d.time,
                destination: scan::between(e4, e5),
                indicator: o.indicator,
                other: o.other,
                ..changes::no_plan()
            },
            ..no_parts()
        },
    }
}

#[inline(always)]
fn rti(s: &[u8]) -> Found<Parts>
    ensures { result ≡ scanned_by rti_g s.now }
{
    let h = referring(s, b'R', b'T', b'I');
    let i = plan_fields::field07(s, scan::byte(s, h.end, b'-'));
    let e2 = scan::byte(s, i.end, b'-');
    let e3 = scan::letters(s, e2, 4);
    let e4 = scan::byte(s, e3, b'-');
    let e5 = scan::letters(s, e4, 4);
    if !e5.ok {
        return stopped(e5);
    }
    let e6 = scan::byte(s, e5, b'-');
    let e7 = words::words(s, e6, 20);
    let e8 = scan::byte(s, e7, b'-');
    let e9 = words::words(s, e8, 60);
    let end = scan::byte(s, e9, b')');
    if !end.ok {
        return stopped(end);
    }
    Found {
        end,
        parts: Parts {
            number: h.parts.number,
            reference: h.parts.reference,
            own: Plan {
                aircraft: i.aircraft,
                code: i.code,
                departure: scan::between(e2, e3),
                destination: scan::between(e4, e5),
                ..changes::no_plan()
            },
            sector: scan::between(e6, e7),
            track: scan::between(e8, e9),
            ..no_parts()
        },
    }
}

#[inline(always)]
fn rta(s: &[u8]) -> Found<Parts>
    ensures { result ≡ scanned_by rta_g s.now }
{
    let h = referring(s, b'R', b'T', b'A');
    let e1 = scan::byte(s, h.end, b'-');
    let e2 = scan::alnums(s, e1, 2, 7);
    let e3 = scan::byte(s, e2, b'-');
    let e4 = scan::letters(s, e3, 4);
    let e5 = scan::byte(s, e4, b'-');
    let e6 = scan::letters(s, e5, 4);
    if !e6.ok {
        return stopped(e6);
    }
    let e7 = scan::byte(s, e6, b'-');
    let e8 = words::words(s, e7, 20);
    let end = scan::byte(s, e8, b')');
    if !end.ok {
        return stopped(end);
    }
    Found {
        end,
        parts: Parts {
            number: h.parts.number,
            reference: h.parts.reference,
            own: Plan {
                aircraft: scan::between(e1, e2),
                departure: scan::between(e3, e4),
                destination: scan::between(e5, e6),
                ..changes::no_plan()
            },
            sector: scan::between(e7, e8),
            ..no_parts()
        },
    }
}

#[inline(always)]
fn rla(s: &[u8]) -> Found<Parts>
    ensures { result ≡ scanned_by rla_g s.now }
{
    let h = referring(s, b'R', b'L', b'A');
    let e1 = scan::byte(s, h.end, b'-');
    let e2 = words::words(s, e1, 20);
    let end = scan::byte(s, e2, b')');
    if !end.ok {
        return stopped(end);
    }
    Found {
        end,
        parts: Parts {
            number: h.parts.number,
            reference: h.parts.reference,
            sector: scan::between(e1, e2),
            ..no_parts()
        },
    }
}

#[inline(always)]
fn lam(s: &[u8]) -> Found<Parts>
    ensures { result ≡ scanned_by lam_g s.now }
{
    let h = referring(s, b'L', b'A', b'M');
    let end = scan::byte(s, h.end, b')');
    if !end.ok {
        return stopped(end);
    }
    Found {
        end,
        parts: Parts {
            number: h.parts.number,
            reference: h.parts.reference,
            ..no_parts()
        },
    }
}

#[inline(always)]
fn lrm(s: &[u8]) -> Found<Parts>
    ensures { result ≡ scanned_by lrm_g s.now }
{
    let h = referring(s, b'L', b'R', b'M');
    let e1 = scan::byte(s, h.end, b'-');
    let e2 = scan::lit(s, e1, b"RMK/");
    let e3 = scan::digits(s, e2, 2);
    let end = scan::byte(s, e3, b')');
    if !end.ok {
        return stopped(end);
    }
    Found {
        end,
        parts: Parts {
            number: h.parts.number,
            reference: h.parts.reference,
            reason: scan::between(e2, e3),
            ..no_parts()
        },
    }
}

// How much of s some type begins with.
#[tactic(auto, unfolding(crate::specs::Picking::arms))]
fn keys(s: &[u8]) -> Scan
    ensures { result ≡ scan_at (keys_of fpl_arm other_arms) s.now 0 }
{
    let a = opens(s, b'F', b'P', b'L');
    let b = opens(s, b'C', b'P', b'L');
    let c = opens(s, b'E', b'S', b'T');
    let d = opens(s, b'C', b'H', b'G');
    let e = opens(s, b'C', b'N', b'L');
    let f = opens(s, b'R', b'T', b'I');
    let g = opens(s, b'R', b'T', b'A');
    let h = opens(s, b'R', b'L', b'A');
    let i = opens(s, b'L', b'A', b'M');
    let j = opens(s, b'L', b'R', b'M');
    let k = scan::longer(i, j);
    let l = scan::longer(h, k);
    let m = scan::longer(g, l);
    let n = scan::longer(f, m);
    let o = scan::longer(e, n);
    let p = scan::longer(d, o);
    let q = scan::longer(c, p);
    let t = scan::longer(b, q);
    scan::longer(a, t)
}

// No type begins as s does.
fn unknown(s: &[u8]) -> Found<Parts>
    ensures { result ≡ unknown_of s.now }
{
    stopped(keys(s))
}

// The byte at i as a number, 0 past the end.
fn number_at(s: &[u8], i: usize) -> usize
    ensures { (result ≡ get_or s.now i 0) × (result < 256) }
{
    scan::wide(s.get(i).copied().unwrap_or(0))
}

// The three letters of the type as one number.
pub fn letters(s: &[u8]) -> usize
    ensures { result ≡ letters_of s.now }
{
    number_at(s, 1) * 65536 + number_at(s, 2) * 256 + number_at(s, 3)
}

// The scan of the one type that has the letters. The types are called from here and from no function between, so that
// the parts are written where the caller wants them.
#[tactic(auto, using(crate::specs::Picking::picks))]
pub fn scan_any(s: &[u8]) -> Found<Parts>
    ensures { result ≡ scanned_by message_g s.now }
{
    match s {
        [b'(', b'F', b'P', b'L', ..] => fpl(s),
        [b'(', b'C', b'P', b'L', ..] => cpl(s),
        [b'(', b'E', b'S', b'T', ..] => est(s),
        [b'(', b'C', b'H', b'G', ..] => chg(s),
        [b'(', b'C', b'N', b'L', ..] => cnl(s),
        [b'(', b'R', b'T', b'I', ..] => rti(s),
        [b'(', b'R', b'T', b'A', ..] => rta(s),
        [b'(', b'R', b'L', b'A', ..] => rla(s),
        [b'(', b'L', b'A', b'M', ..] => lam(s),
        [b'(', b'L', b'R', b'M', ..] => lrm(s),
        _ => unknown(s),
    }
}
