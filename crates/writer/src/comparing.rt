// Whether two records say the same.
ghost use Rattle.std.specs.Prelude.{◌≡◌, true};
ghost use Rattle.scan.specs.Bools.{Decides};
ghost use Rattle.writer.specs.Comparing.{evenly};
ghost use Rattle.writer.specs.Writer.{Alike};
ghost use Rattle.pen.specs.Listed.{number_parts, plan_parts, rest_parts, parts_in};

use changes::Plan;
use message::{Figures, Kind, Level, LevelKind, PlanFigures, PointForm, Record};
use types::{Number, Parts};

fn same_level(a: Level, b: Level) -> bool
    ensures { Decides result (a ≡ b) }
{
    let x = a.kind;
    let y = b.kind;
    (message::numbered::level_number(x) == message::numbered::level_number(y))
        & (a.figure == b.figure)
}

fn same_plan_figures(a: PlanFigures, b: PlanFigures) -> bool
    ensures { Decides result (a ≡ b) }
{
    (a.count == b.count) & same_level(a.level, b.level)
}

fn same_figures(a: Figures, b: Figures) -> bool
    ensures { Decides result (a ≡ b) }
{
    let x = a.form;
    let y = b.form;
    let own = same_plan_figures(a.own, b.own);
    let form = message::numbered::form_number(x) == message::numbered::form_number(y);
    let crossing = same_level(a.crossing, b.crossing);
    let second = same_level(a.second, b.second);
    let changes = same_plan_figures(a.changes, b.changes);
    (a.number == b.number)
        & (a.reference == b.reference)
        & own
        & form
        & crossing
        & second
        & changes
        & (a.reason == b.reason)
}

// Whether the parts have the same lengths, for each struct of them.
fn same_number(a: Number, b: Number) -> bool
    ensures { result ≡ evenly true (number_parts 0 0 0 a) (number_parts 0 0 0 b) }
{
    (a.sender % 65536 == b.sender % 65536)
        & (a.receiver % 65536 == b.receiver % 65536)
        & (a.digits % 65536 == b.digits % 65536)
}

fn same_plan(a: Plan, b: Plan) -> bool
    ensures { result ≡ evenly true (plan_parts 0 a) (plan_parts 0 b) }
{
    (a.aircraft % 65536 == b.aircraft % 65536)
        & (a.code % 65536 == b.code % 65536)
        & (a.rules % 65536 == b.rules % 65536)
        & (a.flight % 65536 == b.flight % 65536)
        & (a.count % 65536 == b.count % 65536)
        & (a.model % 65536 == b.model % 65536)
        & (a.wake % 65536 == b.wake % 65536)
        & (a.equipment % 65536 == b.equipment % 65536)
        & (a.surveillance % 65536 == b.surveillance % 65536)
        & (a.departure % 65536 == b.departure % 65536)
        & (a.time % 65536 == b.time % 65536)
        & (a.speed % 65536 == b.speed % 65536)
        & (a.level % 65536 == b.level % 65536)
        & (a.route % 65536 == b.route % 65536)
        & (a.destination % 65536 == b.destination % 65536)
        & (a.elapsed % 65536 == b.elapsed % 65536)
        & (a.alternate % 65536 == b.alternate % 65536)
        & (a.alternate2 % 65536 == b.alternate2 % 65536)
        & (a.indicator % 65536 == b.indicator % 65536)
        & (a.other % 65536 == b.other % 65536)
}

fn same_rest(a: Parts, b: Parts) -> bool
    ensures { result ≡ evenly true (rest_parts a) (rest_parts b) }
{
    let e = a.estimate;
    let f = b.estimate;
    (e.point % 65536 == f.point % 65536)
        & (e.over % 65536 == f.over % 65536)
        & (e.crossing % 65536 == f.crossing % 65536)
        & (e.second % 65536 == f.second % 65536)
        & (e.sense % 65536 == f.sense % 65536)
        & (a.sector % 65536 == b.sector % 65536)
        & (a.track % 65536 == b.track % 65536)
        & (a.reason % 65536 == b.reason % 65536)
}

fn same_lengths(a: Parts, b: Parts) -> bool
    ensures { result ≡ evenly true (parts_in a) (parts_in b) }
{
    same_number(a.number, b.number)
        & same_number(a.reference, b.reference)
        & same_plan(a.own, b.own)
        & same_plan(a.changes, b.changes)
        & same_rest(a, b)
}

pub(crate) fn alike(a: Record, b: Record) -> bool
    ensures { Decides result (Alike a b) }
{
    let x = a.kind;
    let y = b.kind;
    (message::numbered::kind_number(x) == message::numbered::kind_number(y))
        & same_lengths(a.parts, b.parts)
        & same_figures(a.figures, b.figures)
}
