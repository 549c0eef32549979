// Points, and field 14 that begins with one.
#![tactic(auto, using(fields::specs::Forth::goes_forth, crate::specs::Exits::exits), unfolding(fields::specs::Found::found_rules))]

ghost use Rattle.std.specs.Prelude.{◌≡◌, ◌&&◌, not};
ghost use Rattle.scan.specs.declared.Class.TheVariants.{Alnum};
ghost use Rattle.scan.specs.Texts.{one as one_g};
ghost use Rattle.scan.specs.Scanner.{scan as scan_g};
ghost use Rattle.fields.specs.Fields.{bearing_from, degrees as degrees_g, minutes as minutes_g, pointed};
ghost use Rattle.fields.specs.Chosen.{OfPoint};
ghost use Rattle.fields.specs.Found.{found14};

use fields::{Estimate, Found};
use scan::Scan;

// A name of k letters or digits, with bearing and distance.
#[tactic(auto, using(crate::specs::Exits::exits), unfolding(fields::specs::Fields::bearing_from))]
fn bearing_from(s: &[u8], r: Scan, k: usize) -> Scan
    ensures { result ≡ scan_g (bearing_from k) s.now r }
{
    let a = scan::alnums(s, r, k, k);
    if !a.ok {
        return a;
    }
    let b = fields::bearing(s, a);
    scan::digits(s, b, 3)
}

// As 46N078W.
#[tactic(auto, using(crate::specs::Exits::exits), unfolding(fields::specs::Fields::degrees))]
fn degrees(s: &[u8], r: Scan) -> Scan
    ensures { result ≡ scan_g degrees_g s.now r }
{
    let a = scan::in_range(s, r, b'0', b'8');
    let b = scan::digit(s, a);
    let c = scan::longer(b, scan::lit(s, r, b"90"));
    if !c.ok {
        return c;
    }
    let d = scan::one_of(s, c, b'N', b'S', b'S', b'S', b'S');
    let e = scan::byte(s, d, b'0');
    let f = scan::digits(s, e, 2);
    let g = scan::byte(s, d, b'1');
    let h = scan::in_range(s, g, b'0', b'7');
    let i = scan::digit(s, h);
    let j = scan::longer(i, scan::lit(s, g, b"80"));
    let k = scan::longer(f, j);
    scan::one_of(s, k, b'E', b'W', b'W', b'W', b'W')
}

// As 4620N07805W.
#[tactic(auto, using(crate::specs::Exits::exits), unfolding(fields::specs::Fields::minutes))]
fn minutes(s: &[u8], r: Scan) -> Scan
    ensures { result ≡ scan_g minutes_g s.now r }
{
    let a = scan::in_range(s, r, b'0', b'8');
    let b = fields::minute(s, scan::digit(s, a));
    let c = scan::longer(b, scan::lit(s, r, b"9000"));
    if !c.ok {
        return c;
    }
    let d = scan::one_of(s, c, b'N', b'S', b'S', b'S', b'S');
    let e = scan::byte(s, d, b'0');
    let f = fields::minute(s, scan::digits(s, e, 2));
    let g = scan::byte(s, d, b'1');
    let h = scan::in_range(s, g, b'0', b'7');
    let i = fields::minute(s, scan::digit(s, h));
    let j = scan::longer(i, scan::lit(s, g, b"8000"));
    let k = scan::longer(f, j);
    scan::one_of(s, k, b'E', b'W', b'W', b'W', b'W')
}

// Whether r is whole and neither letter nor digit follows. All forms of a point consist of these, so none goes on there.
fn ended(s: &[u8], r: Scan) -> bool
    ensures { result ≡ (r.ok && not (scan_g (one_g Alnum) s.now r).ok) }
{
    let z = scan::alnums(s, r, 1, 1);
    r.ok & !z.ok
}

// A form of a point that has n letters or digits more than a name of five.
fn form_of(s: &[u8], r: Scan, n: usize) -> Scan
    ensures { OfPoint s.now r result }
{
    match n {
        2 => degrees(s, r),
        3..=5 => bearing_from(s, r, n - 1),
        _ => {
            let m = minutes(s, r);
            if m.ok { m } else { bearing_from(s, r, 5) }
        }
    }
}

// All forms of a point.
#[tactic(auto, using(crate::specs::Exits::exits), unfolding(fields::specs::Fields::pointed))]
fn any_point(s: &[u8], r: Scan) -> Scan
    ensures { result ≡ scan_g pointed s.now r }
{
    let a = scan::alnums(s, r, 2, 5);
    let b = bearing_from(s, r, 2);
    let c = bearing_from(s, r, 3);
    let d = bearing_from(s, r, 4);
    let e = bearing_from(s, r, 5);
    let f = scan::longer(b, scan::longer(c, scan::longer(d, e)));
    let g = scan::longer(degrees(s, r), minutes(s, r));
    scan::longer(a, scan::longer(f, g))
}

// Where a form has ended, no other goes further. So the number of letters and digits says which form to try, and only
// where that one has not ended, all are.
fn point(s: &[u8], r: Scan) -> Scan
    ensures { result ≡ scan_g pointed s.now r }
{
    let a = scan::alnums(s, r, 2, 5);
    if ended(s, a) {
        return a;
    }
    let z = scan::alnums(s, a, 0, 7);
    let b = form_of(s, r, z.next - a.next);
    if ended(s, b) {
        return b;
    }
    any_point(s, r)
}

// Most have one level, and then no letter follows it.
pub fn field14(s: &[u8], r: Scan) -> Found<Estimate>
    ensures { result ≡ found14 s.now r }
{
    let a = point(s, r);
    if !a.ok {
        return Found {
            end: a,
            parts: Estimate::default(),
        };
    }
    let point = scan::between(r, a);
    let b = scan::byte(s, a, b'/');
    let c = fields::time(s, b);
    let over = scan::between(b, c);
    let d = fields::level(s, c);
    let first = Estimate {
        point,
        over,
        crossing: scan::between(c, d),
        ..Estimate::default()
    };
    if !d.ok {
        return Found {
            end: d,
            parts: first,
        };
    }
    let e = fields::level(s, d);
    if !e.ok && e.next == d.next {
        return Found {
            end: d,
            parts: first,
        };
    }
    let f = scan::one_of(s, e, b'A', b'B', b'B', b'B', b'B');
    let n = scan::none();
    Found {
        end: scan::longer(d, f),
        parts: Estimate {
            second: scan::either(d, f, n, scan::between(d, e)),
            sense: scan::either(d, f, n, scan::between(e, f)),
            ..first
        },
    }
}
