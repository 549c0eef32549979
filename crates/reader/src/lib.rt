// The reader: a text is read or refused with a place, and its words are lent as part of it.
#![tactic(auto)]

ghost use Rattle.std.specs.Prelude.{◌≡◌, ◌+◌, ◌≤◌, ◌<◌, length};
ghost use Rattle.scan.specs.Grammar.{place_of, size_of};
ghost use Rattle.message.specs.Record.{blank as blank_of};
ghost use Rattle.reader.specs.Reading.{hyphens as hyphens_of, Judged, cut, Words, route as route_of, other as other_of};
ghost use Rattle.reader.specs.Reader.{verdict as verdict_of};

use message::{Figures, Kind, Level, LevelKind, Outcome, PlanFigures, PointForm, Record, Verdict};
use scan::Span;

// How many hyphens s has, which is short. The count is as wide as a byte, so that sixteen bytes are counted at once.
#[tactic(auto, using(crate::specs::Hyphens::steps))]
fn few_hyphens(s: &[u8]) -> u8
    requires { length s.now < 256 }
    ensures { result ≡ hyphens_of s.now }
{
    let mut n: u8 = 0;
    for &b in s {
        if b == b'-' {
            n += 1;
        }
    }
    n
}

// How many hyphens s has.
#[tactic(auto, using(crate::specs::Hyphens::parts))]
fn hyphens(s: &[u8]) -> usize
    ensures { result ≡ hyphens_of s.now }
{
    let mut n = 0;
    for block in s.chunks(224) {
        n += scan::wide(few_hyphens(block));
    }
    n
}

// The record of no message.
fn blank() -> Record
    ensures { result ≡ blank_of }
{
    let level = Level {
        kind: LevelKind::Absent,
        figure: 0,
    };
    let plan = PlanFigures { count: 0, level };
    Record {
        kind: Kind::None,
        parts: types::no_parts(),
        figures: Figures {
            number: 0,
            reference: 0,
            own: plan,
            form: PointForm::NoPoint,
            crossing: level,
            second: level,
            changes: plan,
            reason: 0,
        },
    }
}

// THE READER: what document 01 says of a text, and its record.
pub fn read(s: &[u8]) -> Outcome
    ensures { Judged s.now result.verdict result.record }
{
    let q = types::scan_any(s);
    let end = q.end;
    let place = end.next;
    if end.ok & (place == s.len()) {
        // a copy of its own for the numbers, so that the parts go to the record in one piece
        let figures = message::decoded(s, q.parts);
        let its = message::kind_in(s);
        let parts = q.parts;
        return Outcome {
            verdict: Verdict::Read,
            record: Record {
                kind: its,
                parts,
                figures,
            },
        };
    }
    let before = hyphens(&s[..place]);
    Outcome {
        verdict: Verdict::Refused(place, before),
        record: blank(),
    }
}

// Where the words of field 15 stand; in a CHG, within field 22.
#[tactic(auto, unfolding(message::specs::Record::is_chg))]
pub fn route_in(r: Record) -> Span
    ensures { result ≡ route_of r }
{
    if r.kind == Kind::Chg {
        return r.parts.changes.route;
    }
    r.parts.own.route
}

// Where the words of field 18 stand; in a CHG, within field 22.
#[tactic(auto, unfolding(message::specs::Record::is_chg))]
pub fn other_in(r: Record) -> Span
    ensures { result ≡ other_of r }
{
    if r.kind == Kind::Chg {
        return r.parts.changes.other;
    }
    r.parts.own.other
}

// The bytes of a part.
pub fn part_of(s: &[u8], p: Span) -> &[u8]
    requires { place_of p + size_of p ≤ length s.now }
    ensures { result.now ≡ cut s.now p }
{
    let at = scan::place(p);
    &s[at..at + scan::size(p)]
}

// The words of field 15, as the very part of the text; an empty part where there are none or the text is refused.
pub fn route(s: &[u8]) -> &[u8]
    ensures { Words route_of s.now result.now }
{
    let q = read(s);
    let p = route_in(q.record);
    part_of(s, p)
}

// The words of field 18, likewise.
pub fn other(s: &[u8]) -> &[u8]
    ensures { Words other_of s.now result.now }
{
    let q = read(s);
    let p = other_in(q.record);
    part_of(s, p)
}

// The verdict alone, for those who list texts.
pub fn judge(s: &[u8]) -> Verdict
    ensures { result ≡ verdict_of s.now }
{
    let q = types::scan_any(s);
    let end = q.end;
    let place = end.next;
    if end.ok & (place == s.len()) {
        return Verdict::Read;
    }
    Verdict::Refused(place, hyphens(&s[..place]))
}
