// The record of a message as 246 bytes: a row of 123 numbers, two bytes for each, high byte first.
#![tactic(auto)]

ghost use Rattle.std.specs.Prelude.{◌≡◌, [], ◌∷◌, ◌++◌, ◌+◌, ◌*◌, ◌≤◌, length, drop};
ghost use Rattle.packed.specs.Packed.{span_numbers, part_spans, parts_numbers, level_numbers, plan_figure_numbers, figure_numbers, packed_of};
ghost use Rattle.packed.specs.Laid.{Puts};

use message::{Figures, Kind, Level, LevelKind, PlanFigures, PointForm, Record};
use scan::Span;
use types::Parts;

pub mod head_bytes;
pub mod unpacked;

// Writes n as the k-th number, and answers the place behind it. So do the others, for several.
pub(crate) fn put_one(out: &mut [u8], k: usize, n: usize) -> usize
    requires { 2 * k + 2 ≤ length out.old }
    ensures { Puts k (n ∷ []) out.old out.new result }
{
    let at = 2 * k;
    out[at] = (n / 256 % 256) as u8;
    out[at + 1] = (n % 256) as u8;
    k + 1
}

// The parts in their order, so that one loop writes them all.
fn parts_row(p: Parts) -> [Span; 54]
    ensures { result ≡ part_spans p }
{
    [
        p.number.sender,
        p.number.receiver,
        p.number.digits,
        p.reference.sender,
        p.reference.receiver,
        p.reference.digits,
        p.own.aircraft,
        p.own.code,
        p.own.rules,
        p.own.flight,
        p.own.count,
        p.own.model,
        p.own.wake,
        p.own.equipment,
        p.own.surveillance,
        p.own.departure,
        p.own.time,
        p.own.speed,
        p.own.level,
        p.own.route,
        p.own.destination,
        p.own.elapsed,
        p.own.alternate,
        p.own.alternate2,
        p.own.indicator,
        p.own.other,
        p.estimate.point,
        p.estimate.over,
        p.estimate.crossing,
        p.estimate.second,
        p.estimate.sense,
        p.changes.aircraft,
        p.changes.code,
        p.changes.rules,
        p.changes.flight,
        p.changes.count,
        p.changes.model,
        p.changes.wake,
        p.changes.equipment,
        p.changes.surveillance,
        p.changes.departure,
        p.changes.time,
        p.changes.speed,
        p.changes.level,
        p.changes.route,
        p.changes.destination,
        p.changes.elapsed,
        p.changes.alternate,
        p.changes.alternate2,
        p.changes.indicator,
        p.changes.other,
        p.sector,
        p.track,
        p.reason,
    ]
}

// The parts of a row, one after the other. The two numbers of a part stand side by side, so that one store of four bytes writes both.
fn put_row(out: &mut [u8], k: usize, row: &[Span]) -> usize
    requires { 2 * k + 4 * length row.now ≤ length out.old }
    ensures { Puts k (span_numbers row.now) out.old out.new result }
{
    let mut i = 0;
    while i < row.len() {
        let p = row[i];
        let m = put_one(out, k + 2 * i, (p / 65536) as usize);
        put_one(out, m, (p % 65536) as usize);
        i += 1;
    }
    k + 2 * i
}

fn put_parts(out: &mut [u8], k: usize, p: Parts) -> usize
    requires { 2 * k + 216 ≤ length out.old }
    ensures { Puts k (parts_numbers p) out.old out.new result }
{
    let row = parts_row(p);
    put_row(out, k, &row)
}

fn put_level(out: &mut [u8], k: usize, l: Level) -> usize
    requires { 2 * k + 4 ≤ length out.old }
    ensures { Puts k (level_numbers l) out.old out.new result }
{
    let kind = l.kind;
    let a = put_one(out, k, message::numbered::level_number(kind));
    put_one(out, a, l.figure)
}

fn put_plan_figures(out: &mut [u8], k: usize, p: PlanFigures) -> usize
    requires { 2 * k + 6 ≤ length out.old }
    ensures { Puts k (plan_figure_numbers p) out.old out.new result }
{
    let a = put_one(out, k, p.count);
    put_level(out, a, p.level)
}

fn put_figures(out: &mut [u8], k: usize, f: Figures) -> usize
    requires { 2 * k + 28 ≤ length out.old }
    ensures { Puts k (figure_numbers f) out.old out.new result }
{
    let form = f.form;
    let a = put_one(out, k, f.number);
    let b = put_one(out, a, f.reference);
    let c = put_plan_figures(out, b, f.own);
    let d = put_one(out, c, message::numbered::form_number(form));
    let e = put_level(out, d, f.crossing);
    let g = put_level(out, e, f.second);
    let h = put_plan_figures(out, g, f.changes);
    put_one(out, h, f.reason)
}

// Writes a record at the start of a buffer, which keeps its other bytes.
pub fn put(out: &mut [u8], r: Record)
    requires { 246 ≤ length out.old }
    ensures { out.new ≡ packed_of r ++ drop 246 out.old }
{
    let kind = r.kind;
    let a = put_one(out, 0, message::numbered::kind_number(kind));
    let b = put_parts(out, a, r.parts);
    put_figures(out, b, r.figures);
}
