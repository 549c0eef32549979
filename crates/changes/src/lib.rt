// What may stand in a CHG after field 16: its own field 18 or none, then one or more fields 22 in ascending order.
#![tactic(auto)]

ghost use Rattle.std.specs.Prelude.{◌≡◌, ◌+◌, ◌≤◌};
ghost use Rattle.scan.specs.Grammar.{G};
ghost use Rattle.scan.specs.Scanner.{scan as scan_g};
ghost use Rattle.scan.specs.Texts.{◌⨾◌, byte, opt};
ghost use Rattle.fields.specs.Fields.{nothing18, ◌─◌};
ghost use Rattle.changes.specs.Changes.{from18 as from18_g, from16 as from16_g, from15 as from15_g, from13 as from13_g, from10 as from10_g, from09 as from09_g, from08 as from08_g, letters18, changes as changes_g, changed as changed_g};
ghost use Rattle.changes.specs.Found.{no_plan, found22, nothing22, Finds, Past, found_tail, either_found_tail};

use scan::{Scan, Span};

// Where the parts of fields 07 to 18 stand.
#[derive(Clone, Copy, Default, PartialEq, Eq, Debug)]
pub struct Plan {
    pub aircraft: Span,
    pub code: Span,
    pub rules: Span,
    pub flight: Span,
    pub count: Span,
    pub model: Span,
    pub wake: Span,
    pub equipment: Span,
    pub surveillance: Span,
    pub departure: Span,
    pub time: Span,
    pub speed: Span,
    pub level: Span,
    pub route: Span,
    pub destination: Span,
    pub elapsed: Span,
    pub alternate: Span,
    pub alternate2: Span,
    pub indicator: Span,
    pub other: Span,
}

// Fields 22: where they end, and their parts.
#[derive(Clone, Copy)]
pub struct Found22 {
    pub end: Scan,
    pub plan: Plan,
}

// The same, with the parts of the message's own field 18.
#[derive(Clone, Copy)]
pub struct FoundTail {
    pub end: Scan,
    pub indicator: Span,
    pub other: Span,
    pub plan: Plan,
}

// Every part absent.
pub fn no_plan() -> Plan
    ensures { result ≡ no_plan }
{
    Plan::default()
}

fn nothing(r: Scan) -> Found22
    ensures { result ≡ nothing22 r }
{
    Found22 {
        end: r,
        plan: no_plan(),
    }
}

// The numbers differ in their two digits: once a number is there, no other field 22 can be, and where it is not, the
// scan of the later numbers is taken unless it is behind.

// What the later numbers find, unless they end before a, up to which this number is there.
fn past(a: Scan, later: Found22) -> Found22
    ensures { Past a later result }
{
    if a.next <= later.end.next {
        later
    } else {
        nothing(a)
    }
}

// What may follow a field 22: a hyphen and a later number, or nothing.
fn after<F: FnOnce(&[u8], Scan) -> Found22>(s: &[u8], r: Scan, later: F) -> Found22
    requires { F.IsAlwaysCallable later }
    ensures { (g : G) → Finds (F.post later s.entry) g s.now (scan_g (byte 45) s.now r) → result ≡ found22 (opt (byte 45 ⨾ g)) s.now r }
{
    let b = scan::byte(s, r, b'-');
    if b.ok { later(s, b) } else { nothing(r) }
}

// Fields 22 from number 18 on.
fn from18(s: &[u8], r: Scan) -> Found22
    ensures { result ≡ found22 from18_g s.now r }
{
    let a = scan::lit(s, r, b"18/");
    let f = fields::field18(s, a);
    Found22 {
        end: f.end,
        plan: Plan {
            indicator: f.indicator,
            other: f.other,
            ..no_plan()
        },
    }
}

// A function for each number from 16 down to 08. One for all would take a trait with an impl for each number: its text, what follows it and
// which numbers may, three laws, and the field with its parts. Only the first four lines of each would be said once.

// Fields 22 from number 16 on.
fn from16(s: &[u8], r: Scan) -> Found22
    ensures { result ≡ found22 from16_g s.now r }
{
    let a = scan::lit(s, r, b"16/");
    if !a.ok {
        return past(a, from18(s, r));
    }
    let f = plan_fields::field16(s, a);
    let t = after(s, f.end, from18);
    Found22 {
        plan: Plan {
            destination: f.destination,
            elapsed: f.elapsed,
            alternate: f.alternate,
            alternate2: f.alternate2,
            ..t.plan
        },
        ..t
    }
}

// Fields 22 from number 15 on.
fn from15(s: &[u8], r: Scan) -> Found22
    ensures { result ≡ found22 from15_g s.now r }
{
    let a = scan::lit(s, r, b"15/");
    if !a.ok {
        return past(a, from16(s, r));
    }
    let f = plan_fields::field15(s, a);
    let t = after(s, f.end, from16);
    Found22 {
        plan: Plan {
            speed: f.speed,
            level: f.level,
            route: f.route,
            ..t.plan
        },
        ..t
    }
}

// Fields 22 from number 13 on.
fn from13(s: &[u8], r: Scan) -> Found22
    ensures { result ≡ found22 from13_g s.now r }
{
    let a = scan::lit(s, r, b"13/");
    if !a.ok {
        return past(a, from15(s, r));
    }
    let f = plan_fields::field13(s, a);
    let t = after(s, f.end, from15);
    Found22 {
        plan: Plan {
            departure: f.departure,
            time: f.time,
            ..t.plan
        },
        ..t
    }
}

// Fields 22 from number 10 on.
fn from10(s: &[u8], r: Scan) -> Found22
    ensures { result ≡ found22 from10_g s.now r }
{
    let a = scan::lit(s, r, b"10/");
    if !a.ok {
        return past(a, from13(s, r));
    }
    let f = plan_fields::field10(s, a);
    let t = after(s, f.end, from13);
    Found22 {
        plan: Plan {
            equipment: f.equipment,
            surveillance: f.surveillance,
            ..t.plan
        },
        ..t
    }
}

// Fields 22 from number 09 on.
fn from09(s: &[u8], r: Scan) -> Found22
    ensures { result ≡ found22 from09_g s.now r }
{
    let a = scan::lit(s, r, b"09/");
    if !a.ok {
        return past(a, from10(s, r));
    }
    let f = plan_fields::field09(s, a);
    let t = after(s, f.end, from10);
    Found22 {
        plan: Plan {
            count: f.count,
            model: f.model,
            wake: f.wake,
            ..t.plan
        },
        ..t
    }
}

// Fields 22 from number 08 on.
fn from08(s: &[u8], r: Scan) -> Found22
    ensures { result ≡ found22 from08_g s.now r }
{
    let a = scan::lit(s, r, b"08/");
    if !a.ok {
        return past(a, from09(s, r));
    }
    let f = plan_fields::field08(s, a);
    let t = after(s, f.end, from09);
    Found22 {
        plan: Plan {
            rules: f.rules,
            flight: f.flight,
            ..t.plan
        },
        ..t
    }
}

// One or more fields 22; 07 stands alone.
fn changes(s: &[u8], r: Scan) -> Found22
    ensures { result ≡ found22 changes_g s.now r }
{
    if !r.ok {
        return nothing(r);
    }
    let a = scan::lit(s, r, b"07/");
    if !a.ok {
        return past(a, from08(s, r));
    }
    let f = plan_fields::field07(s, a);
    Found22 {
        end: f.end,
        plan: Plan {
            aircraft: f.aircraft,
            code: f.code,
            ..no_plan()
        },
    }
}

// Of two ways to go on the one that leads.
fn either_tail(a: FoundTail, b: FoundTail) -> FoundTail
    ensures { result ≡ either_found_tail a b }
{
    let end = scan::longer(a.end, b.end);
    if scan::leads(a.end, b.end) {
        FoundTail { end, ..a }
    } else {
        FoundTail { end, ..b }
    }
}

// No field 18.
fn without18(s: &[u8], r: Scan) -> FoundTail
    ensures { result ≡ found_tail changes_g s.now r }
{
    let f = changes(s, r);
    FoundTail {
        end: f.end,
        indicator: scan::none(),
        other: scan::none(),
        plan: f.plan,
    }
}

// Field 18 is "0".
fn with_nothing18(s: &[u8], r: Scan) -> FoundTail
    ensures { result ≡ found_tail (nothing18 0 ─ changes_g) s.now r }
{
    let a = scan::byte(s, r, b'0');
    let f = changes(s, scan::byte(s, a, b'-'));
    FoundTail {
        end: f.end,
        indicator: scan::between(r, a),
        other: scan::none(),
        plan: f.plan,
    }
}

// Field 18 begins with N letters.
fn with_letters18<const N: usize>(s: &[u8], r: Scan) -> FoundTail
    requires { N ≤ 299 }
    ensures { result ≡ found_tail (letters18 N ─ changes_g) s.now r }
{
    let a = scan::letters(s, r, N);
    let b = scan::byte(s, a, b'/');
    let c = words::words(s, b, 299 - N);
    let f = changes(s, scan::byte(s, c, b'-'));
    FoundTail {
        end: f.end,
        indicator: scan::between(r, a),
        other: scan::between(b, c),
        plan: f.plan,
    }
}

// All ways to begin, compared. Few texts need it.
#[cold]
fn any_way(s: &[u8], r: Scan) -> FoundTail
    ensures { result ≡ found_tail changed_g s.now r }
{
    let a = without18(s, r);
    let b = with_nothing18(s, r);
    let c = with_letters18::<3>(s, r);
    let d = with_letters18::<4>(s, r);
    either_tail(a, either_tail(b, either_tail(c, d)))
}

// What one way found, where it goes on so far that no other does; else all ways are compared.
fn this_way(s: &[u8], r: Scan, f: FoundTail, least: usize) -> FoundTail
    requires { r.next ≤ f.end.next }
    ensures { (r.next + least ≤ f.end.next → f ≡ found_tail changed_g s.now r) → result ≡ found_tail changed_g s.now r }
{
    if least <= f.end.next - r.next {
        f
    } else {
        any_way(s, r)
    }
}

// Field 18 or none, then one or more fields 22. The first bytes say which way it can be: three letters and a slash, four letters, "0-", or
// a number.
pub fn changed(s: &[u8], r: Scan) -> FoundTail
    ensures { result ≡ found_tail changed_g s.now r }
{
    if scan::letter(s, r).ok {
        if scan::byte(s, scan::letters(s, r, 3), b'/').ok {
            this_way(s, r, with_letters18::<3>(s, r), 4)
        } else {
            this_way(s, r, with_letters18::<4>(s, r), 4)
        }
    } else if scan::byte(s, scan::byte(s, r, b'0'), b'-').ok {
        this_way(s, r, with_nothing18(s, r), 2)
    } else {
        this_way(s, r, without18(s, r), 2)
    }
}
