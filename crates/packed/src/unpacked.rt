// A record taken from its 246 bytes.
ghost use Rattle.std.specs.Prelude.{◌≡◌, ◌+◌, ◌*◌, ◌≤◌, ◌<◌, length};
ghost use Rattle.packed.specs.Numbers.{held};
ghost use Rattle.packed.specs.Packed.{span_by, number_by, plan_by, estimate_by, level_by, plan_figures_by, parts_by, figures_by, known, kind_by, record_in};
ghost use Rattle.message.specs.Numbered.{numbered_kind, numbered_level, numbered_form};

use changes::Plan;
use message::{Figures, Kind, Level, LevelKind, PlanFigures, PointForm, Record};
use scan::Span;
use types::{Estimate, Number, Parts};

// What number stands for which kind; the first where none does.
fn kind_in(n: usize) -> Kind
    ensures { result ≡ numbered_kind n }
{
    if n == 1 {
        return Kind::Fpl;
    }
    if n == 2 {
        return Kind::Cpl;
    }
    if n == 3 {
        return Kind::Est;
    }
    if n == 4 {
        return Kind::Chg;
    }
    if n == 5 {
        return Kind::Cnl;
    }
    if n == 6 {
        return Kind::Rti;
    }
    if n == 7 {
        return Kind::Rta;
    }
    if n == 8 {
        return Kind::Rla;
    }
    if n == 9 {
        return Kind::Lam;
    }
    if n == 10 {
        return Kind::Lrm;
    }
    Kind::None
}

fn level_kind_in(n: usize) -> LevelKind
    ensures { result ≡ numbered_level n }
{
    if n == 1 {
        return LevelKind::FlightLevel;
    }
    if n == 2 {
        return LevelKind::Altitude;
    }
    if n == 3 {
        return LevelKind::MetricLevel;
    }
    if n == 4 {
        return LevelKind::MetricAltitude;
    }
    if n == 5 {
        return LevelKind::Vfr;
    }
    LevelKind::Absent
}

fn form_in(n: usize) -> PointForm
    ensures { result ≡ numbered_form n }
{
    if n == 1 {
        return PointForm::Name;
    }
    if n == 2 {
        return PointForm::Bearing;
    }
    if n == 3 {
        return PointForm::Degrees;
    }
    if n == 4 {
        return PointForm::Minutes;
    }
    PointForm::NoPoint
}

fn wide(b: u8) -> u16
    ensures { (result ≡ b) × (result < 256) }
{
    b as u16
}

// The k-th number. So the others, from the k-th on.
fn one_in(b: &[u8], k: usize) -> u16
    requires { 2 * k + 2 ≤ length b.now }
    ensures { result ≡ held b.now k }
{
    let at = 2 * k;
    wide(b[at]) * 256 + wide(b[at + 1])
}

pub(crate) fn figure_in(b: &[u8], k: usize) -> usize
    requires { 2 * k + 2 ≤ length b.now }
    ensures { result ≡ held b.now k }
{
    one_in(b, k) as usize
}

fn span_in(b: &[u8], k: usize) -> Span
    requires { 2 * k + 4 ≤ length b.now }
    ensures { result ≡ span_by (held b.now) k }
{
    one_in(b, k) as u32 * 65536 + one_in(b, k + 1) as u32
}

fn number_in(b: &[u8], k: usize) -> Number
    requires { 2 * k + 12 ≤ length b.now }
    ensures { result ≡ number_by (held b.now) k }
{
    Number {
        sender: span_in(b, k),
        receiver: span_in(b, k + 2),
        digits: span_in(b, k + 4),
    }
}

fn plan_in(b: &[u8], k: usize) -> Plan
    requires { 2 * k + 80 ≤ length b.now }
    ensures { result ≡ plan_by (held b.now) k }
{
    Plan {
        aircraft: span_in(b, k),
        code: span_in(b, k + 2),
        rules: span_in(b, k + 4),
        flight: span_in(b, k + 6),
        count: span_in(b, k + 8),
        model: span_in(b, k + 10),
        wake: span_in(b, k + 12),
        equipment: span_in(b, k + 14),
        surveillance: span_in(b, k + 16),
        departure: span_in(b, k + 18),
        time: span_in(b, k + 20),
        speed: span_in(b, k + 22),
        level: span_in(b, k + 24),
        route: span_in(b, k + 26),
        destination: span_in(b, k + 28),
        elapsed: span_in(b, k + 30),
        alternate: span_in(b, k + 32),
        alternate2: span_in(b, k + 34),
        indicator: span_in(b, k + 36),
        other: span_in(b, k + 38),
    }
}

fn estimate_in(b: &[u8], k: usize) -> Estimate
    requires { 2 * k + 20 ≤ length b.now }
    ensures { result ≡ estimate_by (held b.now) k }
{
    Estimate {
        point: span_in(b, k),
        over: span_in(b, k + 2),
        crossing: span_in(b, k + 4),
        second: span_in(b, k + 6),
        sense: span_in(b, k + 8),
    }
}

fn level_in(b: &[u8], k: usize) -> Level
    requires { 2 * k + 4 ≤ length b.now }
    ensures { result ≡ level_by (held b.now) k }
{
    let kind = level_kind_in(figure_in(b, k));
    Level {
        kind,
        figure: figure_in(b, k + 1),
    }
}

fn plan_figures_in(b: &[u8], k: usize) -> PlanFigures
    requires { 2 * k + 6 ≤ length b.now }
    ensures { result ≡ plan_figures_by (held b.now) k }
{
    PlanFigures {
        count: figure_in(b, k),
        level: level_in(b, k + 1),
    }
}

fn parts_in(b: &[u8]) -> Parts
    requires { length b.now ≡ 246 }
    ensures { result ≡ parts_by (held b.now) }
{
    Parts {
        number: number_in(b, 1),
        reference: number_in(b, 7),
        own: plan_in(b, 13),
        estimate: estimate_in(b, 53),
        changes: plan_in(b, 63),
        sector: span_in(b, 103),
        track: span_in(b, 105),
        reason: span_in(b, 107),
    }
}

fn figures_in(b: &[u8]) -> Figures
    requires { length b.now ≡ 246 }
    ensures { result ≡ figures_by (held b.now) }
{
    let form = form_in(figure_in(b, 114));
    Figures {
        number: figure_in(b, 109),
        reference: figure_in(b, 110),
        own: plan_figures_in(b, 111),
        form,
        crossing: level_in(b, 115),
        second: level_in(b, 117),
        changes: plan_figures_in(b, 119),
        reason: figure_in(b, 122),
    }
}

// Whether the numbers that say what a level or a point is have one of their values.
fn are_known(b: &[u8]) -> bool
    requires { length b.now ≡ 246 }
    ensures { result ≡ known (held b.now) }
{
    (figure_in(b, 112) <= 5)
        & (figure_in(b, 114) <= 4)
        & (figure_in(b, 115) <= 5)
        & (figure_in(b, 117) <= 5)
        & (figure_in(b, 120) <= 5)
}

// The type. What a level or a point cannot be is in no message.
fn kind_of(b: &[u8]) -> Kind
    requires { length b.now ≡ 246 }
    ensures { result ≡ kind_by (held b.now) }
{
    if are_known(b) {
        return kind_in(figure_in(b, 0));
    }
    Kind::None
}

// The record that was written so.
pub fn take(b: &[u8]) -> Record
    requires { length b.now ≡ 246 }
    ensures { result ≡ record_in b.now }
{
    let kind = kind_of(b);
    let parts = parts_in(b);
    let figures = figures_in(b);
    Record {
        kind,
        parts,
        figures,
    }
}
