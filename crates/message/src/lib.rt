// A text is read, with its record, or refused with its place.
#![tactic(auto)]

ghost use Rattle.std.specs.Prelude.{◌≡◌, ◌+◌, ◌-◌, ◌≤◌, ◌<◌, get_or};
ghost use Rattle.scan.specs.Grammar.{place_of, size_of};
ghost use Rattle.types.specs.Picking.{letters_of};
ghost use Rattle.message.specs.Record.{kind_of, level_kind_of, figure_at, level_in, form_in, figures_of, plan_figures_of};

use changes::Plan;
use scan::Span;
use types::Parts;

pub mod numbered;

// The types; None is that of no message.
#[derive(Clone, Copy, PartialEq, Eq, Debug)]
pub enum Kind {
    None,
    Fpl,
    Cpl,
    Est,
    Chg,
    Cnl,
    Rti,
    Rta,
    Rla,
    Lam,
    Lrm,
}

#[derive(Clone, Copy, PartialEq, Eq, Debug)]
pub enum LevelKind {
    Absent,
    FlightLevel,
    Altitude,
    MetricLevel,
    MetricAltitude,
    Vfr,
}

#[derive(Clone, Copy, PartialEq, Eq, Debug)]
pub enum PointForm {
    NoPoint,
    Name,
    Bearing,
    Degrees,
    Minutes,
}

#[derive(Clone, Copy, PartialEq, Eq, Debug)]
pub struct Level {
    pub kind: LevelKind,
    pub figure: usize,
}

// What those parts of fields 07 to 18 say that are numbers.
#[derive(Clone, Copy, PartialEq, Eq, Debug)]
pub struct PlanFigures {
    pub count: usize,
    pub level: Level,
}

// What the parts say that are numbers.
#[derive(Clone, Copy, PartialEq, Eq, Debug)]
pub struct Figures {
    pub number: usize,
    pub reference: usize,
    pub own: PlanFigures,
    pub form: PointForm,
    pub crossing: Level,
    pub second: Level,
    pub changes: PlanFigures,
    pub reason: usize,
}

#[derive(Clone, Copy)]
pub struct Record {
    pub kind: Kind,
    pub parts: Parts,
    pub figures: Figures,
}

// What is said of a text.
#[derive(Clone, Copy)]
pub enum Verdict {
    Read,
    // The place, and the hyphens before it.
    Refused(usize, usize),
}

// What is said of a text, and its record, which is blank where it is refused.
#[derive(Clone, Copy)]
pub struct Outcome {
    pub verdict: Verdict,
    pub record: Record,
}

// What absent parts say.
const NO_LEVEL: Level = Level {
    kind: LevelKind::Absent,
    figure: 0,
};

const NO_PLAN: PlanFigures = PlanFigures {
    count: 0,
    level: NO_LEVEL,
};

// The byte at i, 0 past the end.
#[tactic(auto, using(crate::specs::Figures::get_d_past))]
fn byte_at(s: &[u8], i: usize) -> u8
    ensures { result ≡ get_or s.now i 0 }
{
    s.get(i).copied().unwrap_or(0)
}

// The number that a digit stands for.
fn value(b: u8) -> usize
    ensures { (result ≡ b - 48) × (result < 256) }
{
    scan::wide(b).saturating_sub(48)
}

fn digit(s: &[u8], i: usize) -> usize
    ensures { (result ≡ get_or s.now i 0 - 48) × (result < 256) }
{
    value(byte_at(s, i))
}

// The number that the digits at `at` stand for; none has more than four.
#[tactic(auto, using(crate::specs::Figures::figures))]
fn figure(s: &[u8], at: usize, len: usize) -> usize
    requires { at ≤ 65536 }
    ensures { result ≡ figure_at len s.now at }
{
    if len == 0 {
        return 0;
    }
    let a = digit(s, at);
    if len == 1 {
        return a;
    }
    let b = a * 10 + digit(s, at + 1);
    if len == 2 {
        return b;
    }
    let c = b * 10 + digit(s, at + 2);
    if len == 3 {
        return c;
    }
    let d = c * 10 + digit(s, at + 3);
    if len == 4 {
        return d;
    }
    0
}

// Three digits, as the number of a message and most levels have: where they stand is tested once.
#[tactic(auto, using(crate::specs::Figures::figure_3))]
fn three(s: &[u8], at: usize) -> usize
    requires { at ≤ 65536 }
    ensures { result ≡ figure_at 3 s.now at }
{
    if at + 3 <= s.len() {
        let a = value(s[at]);
        let b = a * 10 + value(s[at + 1]);
        return b * 10 + value(s[at + 2]);
    }
    figure(s, at, 3)
}

#[tactic(auto, unfolding(crate::specs::Record::level_kind_of))]
fn level_kind(b: u8) -> LevelKind
    ensures { result ≡ level_kind_of b }
{
    match b {
        b'F' => LevelKind::FlightLevel,
        b'A' => LevelKind::Altitude,
        b'S' => LevelKind::MetricLevel,
        b'M' => LevelKind::MetricAltitude,
        _ => LevelKind::Absent,
    }
}

#[tactic(auto, unfolding(crate::specs::Record::level_in))]
fn level_in(s: &[u8], p: Span) -> Level
    ensures { result ≡ level_in s.now p }
{
    match scan::size(p) {
        0 => NO_LEVEL,
        3 => Level {
            kind: LevelKind::Vfr,
            figure: 0,
        },
        len => {
            let at = scan::place(p);
            let figure = if len == 4 {
                three(s, at + 1)
            } else {
                figure(s, at + 1, len - 1)
            };
            Level {
                kind: level_kind(byte_at(s, at)),
                figure,
            }
        }
    }
}

#[tactic(auto, unfolding(crate::specs::Record::form_in))]
fn form_in(s: &[u8], p: Span) -> PointForm
    ensures { result ≡ form_in s.now p }
{
    match scan::size(p) {
        0 => PointForm::NoPoint,
        1..=5 => PointForm::Name,
        7 => PointForm::Degrees,
        len if b'A' <= byte_at(s, scan::place(p) + len - 1) => PointForm::Minutes,
        _ => PointForm::Bearing,
    }
}

fn plan_figures(s: &[u8], p: Plan) -> PlanFigures
    ensures { result ≡ plan_figures_of s.now p }
{
    PlanFigures {
        count: figure(s, scan::place(p.count), scan::size(p.count)),
        level: level_in(s, p.level),
    }
}

fn number_figure(s: &[u8], p: Span) -> usize
    ensures { result ≡ figure_at (size_of p) s.now (place_of p) }
{
    match scan::size(p) {
        3 => three(s, scan::place(p)),
        len => figure(s, scan::place(p), len),
    }
}

// Only an LRM has the part p, so it is mostly told at once that it is absent.
#[tactic(auto, using(crate::specs::Figures::absent_figure))]
fn seldom_figure(s: &[u8], p: Span) -> usize
    ensures { result ≡ figure_at (size_of p) s.now (place_of p) }
{
    if scan::is_absent(p) {
        return 0;
    }
    number_figure(s, p)
}

// A type has figures of its own fields or of those within field 22, so of one of the two it is told at once that they are absent.
#[tactic(auto, using(crate::specs::Figures::no_plan_figures))]
fn some_figures(s: &[u8], p: Plan) -> PlanFigures
    ensures { result ≡ plan_figures_of s.now p }
{
    if scan::is_absent(p.count) & scan::is_absent(p.level) {
        return NO_PLAN;
    }
    plan_figures(s, p)
}

// Most types have neither levels nor a point nor a count, and one test of all says so.
#[tactic(auto, using(crate::specs::Figures::plain_figures))]
pub fn decoded(s: &[u8], p: Parts) -> Figures
    ensures { result ≡ figures_of s.now p }
{
    let number = number_figure(s, p.number.digits);
    let reference = number_figure(s, p.reference.digits);
    let reason = seldom_figure(s, p.reason);
    let plans = scan::is_absent(p.own.count)
        & scan::is_absent(p.own.level)
        & scan::is_absent(p.changes.count)
        & scan::is_absent(p.changes.level);
    let point = scan::is_absent(p.estimate.point)
        & scan::is_absent(p.estimate.crossing)
        & scan::is_absent(p.estimate.second);
    if plans & point {
        return Figures {
            number,
            reference,
            own: NO_PLAN,
            form: PointForm::NoPoint,
            crossing: NO_LEVEL,
            second: NO_LEVEL,
            changes: NO_PLAN,
            reason,
        };
    }
    Figures {
        number,
        reference,
        own: some_figures(s, p.own),
        form: form_in(s, p.estimate.point),
        crossing: level_in(s, p.estimate.crossing),
        second: level_in(s, p.estimate.second),
        changes: some_figures(s, p.changes),
        reason,
    }
}

// The type that the letters after the first byte name, where there are three.
#[tactic(auto, using(crate::specs::Figures::no_kind, crate::specs::Figures::get_d_past), unfolding(crate::specs::Record::kind_of))]
pub fn kind_in(s: &[u8]) -> Kind
    ensures { result ≡ kind_of (letters_of s.now) }
{
    match s {
        [_, b'F', b'P', b'L', ..] => Kind::Fpl,
        [_, b'C', b'P', b'L', ..] => Kind::Cpl,
        [_, b'E', b'S', b'T', ..] => Kind::Est,
        [_, b'C', b'H', b'G', ..] => Kind::Chg,
        [_, b'C', b'N', b'L', ..] => Kind::Cnl,
        [_, b'R', b'T', b'I', ..] => Kind::Rti,
        [_, b'R', b'T', b'A', ..] => Kind::Rta,
        [_, b'R', b'L', b'A', ..] => Kind::Rla,
        [_, b'L', b'A', b'M', ..] => Kind::Lam,
        [_, b'L', b'R', b'M', ..] => Kind::Lrm,
        _ => Kind::None,
    }
}
