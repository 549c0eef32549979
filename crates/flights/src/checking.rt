// Whether the bytes of one place of a table are well formed.
ghost use Rattle.std.specs.Prelude.{◌≡◌, length};
ghost use Rattle.scan.specs.Bools.{Decides};
ghost use Rattle.scan.specs.declared.Class.TheVariants.{Octal, Alnum};
ghost use Rattle.scan.specs.Grammar.{Derives, run};
ghost use Rattle.scan.specs.Texts.{opt};
ghost use Rattle.fields.specs.Fields.{timed, in08, in09, in10, in14, in15, rest16, in18};
ghost use Rattle.flights.specs.Flight.{flight_of, WellFormed};
ghost use Rattle.flights.specs.Checked.{Used, Texts, Filed, Active};
ghost use Rattle.scan.specs.Theory.{passed};

use scan::Scan;

// Whether a scan is whole and went to the end.
fn whole(q: Scan, t: &[u8]) -> bool
    ensures { result ≡ passed t.now q }
{
    q.ok & (q.next == t.len())
}

// The field rules, each for a text by itself.
fn is_aircraft(t: &[u8]) -> bool
    ensures { Decides result (Derives (run Alnum 2 7) t.now) }
{
    whole(scan::alnums(t, Scan { next: 0, ok: true }, 2, 7), t)
}

fn is_code(t: &[u8]) -> bool
    ensures { Decides result (Derives (opt (run Octal 4 4)) t.now) }
{
    let r = Scan { next: 0, ok: true };
    whole(scan::longer(r, scan::octals(t, r, 4)), t)
}

fn is_time(t: &[u8]) -> bool
    ensures { Decides result (Derives timed t.now) }
{
    whole(fields::time(t, Scan { next: 0, ok: true }), t)
}

fn is_08(t: &[u8]) -> bool
    ensures { Decides result (Derives (in08 0) t.now) }
{
    let f = plan_fields::field08(t, Scan { next: 0, ok: true });
    whole(f.end, t)
}

fn is_09(t: &[u8]) -> bool
    ensures { Decides result (Derives (in09 0) t.now) }
{
    let f = plan_fields::field09(t, Scan { next: 0, ok: true });
    whole(f.end, t)
}

fn is_10(t: &[u8]) -> bool
    ensures { Decides result (Derives (in10 0) t.now) }
{
    let f = plan_fields::field10(t, Scan { next: 0, ok: true });
    whole(f.end, t)
}

fn is_14(t: &[u8]) -> bool
    ensures { Decides result (Derives in14 t.now) }
{
    let f = points::field14(t, Scan { next: 0, ok: true });
    whole(f.end, t)
}

fn is_rest16(t: &[u8]) -> bool
    ensures { Decides result (Derives (rest16 0) t.now) }
{
    whole(plan_fields::rest16(t, Scan { next: 0, ok: true }), t)
}

fn is_15(t: &[u8]) -> bool
    ensures { Decides result (Derives (in15 0) t.now) }
{
    let f = plan_fields::field15(t, Scan { next: 0, ok: true });
    whole(f.end, t)
}

fn is_18(t: &[u8]) -> bool
    ensures { Decides result (Derives (in18 0) t.now) }
{
    let f = fields::field18(t, Scan { next: 0, ok: true });
    whole(f.end, t)
}

// Whether the texts are sound that every flight has.
fn texts_sound(b: &[u8]) -> bool
    requires { length b.now ≡ 768 }
    ensures { Decides result (Texts (flight_of b.now)) }
{
    is_aircraft(crate::text_at(b, 6, 7))
        & is_code(crate::text_at(b, 13, 4))
        & scan::is_name(crate::text_at(b, 17, 4))
        & scan::is_name(crate::text_at(b, 25, 4))
        & is_08(crate::text_at(b, 29, 2))
        & is_09(crate::text_at(b, 31, 8))
        & is_10(crate::text_at(b, 39, 61))
        & is_rest16(crate::text_at(b, 127, 14))
        & is_15(crate::text_at(b, 141, 300))
        & is_18(crate::text_at(b, 441, 300))
}

// What else a filed flight has: a time, no field 14, no handoff and no offer number.
fn filed_sound(b: &[u8]) -> bool
    requires { length b.now ≡ 768 }
    ensures { Decides result (Filed b.now) }
{
    let estimate = crate::text_at(b, 100, 27);
    (b[1] == 0)
        & (places::number_at(b, 4) == 0)
        & is_time(crate::text_at(b, 21, 4))
        & (estimate.len() == 0)
}

// And an active one: a time or none, and field 14.
fn active_sound(b: &[u8]) -> bool
    requires { length b.now ≡ 768 }
    ensures { Decides result (Active b.now) }
{
    let time = crate::text_at(b, 21, 4);
    (b[1] <= 2)
        & (places::number_at(b, 4) <= 999)
        & ((time.len() == 0) | is_time(time))
        & is_14(crate::text_at(b, 100, 27))
}

// Whether a record is that of a flight.
fn is_flight(b: &[u8]) -> bool
    requires { length b.now ≡ 768 }
    ensures { Decides result (Used b.now) }
{
    let status = b[0];
    let first = places::number_at(b, 2);
    let texts = texts_sound(b);
    let rest = places::all_are(&b[741..768], 0);
    if status == 1 {
        return (first <= 999) & texts & rest & filed_sound(b);
    }
    if status == 2 {
        return (first <= 999) & texts & rest & active_sound(b);
    }
    false
}

// Whether a record is well formed: free, or that of a flight.
pub fn is_well_formed(b: &[u8]) -> bool
    ensures { Decides result (WellFormed b.now) }
{
    if b.len() != 768 {
        return false;
    }
    if b[0] == 0 {
        return places::all_are(b, 0);
    }
    is_flight(b)
}
