// Types, levels and points as numbers.
ghost use Rattle.std.specs.Prelude.{◌≡◌};
ghost use Rattle.message.specs.Numbered.{kind_number, level_number, form_number};

use crate::{Kind, LevelKind, PointForm};

pub fn kind_number(k: Kind) -> usize
    ensures { result ≡ kind_number k }
{
    match k {
        Kind::None => 0,
        Kind::Fpl => 1,
        Kind::Cpl => 2,
        Kind::Est => 3,
        Kind::Chg => 4,
        Kind::Cnl => 5,
        Kind::Rti => 6,
        Kind::Rta => 7,
        Kind::Rla => 8,
        Kind::Lam => 9,
        Kind::Lrm => 10,
    }
}

pub fn level_number(k: LevelKind) -> usize
    ensures { result ≡ level_number k }
{
    match k {
        LevelKind::Absent => 0,
        LevelKind::FlightLevel => 1,
        LevelKind::Altitude => 2,
        LevelKind::MetricLevel => 3,
        LevelKind::MetricAltitude => 4,
        LevelKind::Vfr => 5,
    }
}

pub fn form_number(k: PointForm) -> usize
    ensures { result ≡ form_number k }
{
    match k {
        PointForm::NoPoint => 0,
        PointForm::Name => 1,
        PointForm::Bearing => 2,
        PointForm::Degrees => 3,
        PointForm::Minutes => 4,
    }
}
