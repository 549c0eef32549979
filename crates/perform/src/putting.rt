// Texts of a flight's record, each set in its place from a message.
ghost use Rattle.std.specs.Prelude.{◌≡◌, ◌+◌, ◌*◌, ◌≤◌, ◌<◌, length};
ghost use Rattle.splice.specs.Splice.{splice};
ghost use Rattle.flights.specs.Padding.{padded};
ghost use Rattle.flights.specs.Table.{places};
ghost use Rattle.deeds.specs.Deeds.{with_field};

// A text where it is given.
pub(crate) fn put_given(table: &mut [u8], i: usize, at: usize, width: usize, s: &[u8])
    requires { (i < places table.old) × (at + width ≤ 768) × (length s.now ≤ width) }
    ensures { table.new ≡ with_field s.now (splice (i * 768 + at) (padded width s.now) table.old) table.old }
{
    if s.len() == 0 {
        return;
    }
    flights::set_text(table, i, at, width, s);
}

// A text where it is given, and then the rest of its field, whether that is given or not: the field is replaced whole.
pub(crate) fn put_whole(
    table: &mut [u8],
    i: usize,
    at: usize,
    width: usize,
    lead: &[u8],
    at2: usize,
    width2: usize,
    rest: &[u8],
)
    requires { (i < places table.old) × (at + width ≤ 768) × (length lead.now ≤ width) × (at2 + width2 ≤ 768) × (length rest.now ≤ width2) }
    ensures { table.new ≡ with_field lead.now (splice (i * 768 + at2) (padded width2 rest.now) (splice (i * 768 + at) (padded width lead.now) table.old)) table.old }
{
    let given = lead.len();
    if given == 0 {
        return;
    }
    flights::set_text(table, i, at, width, lead);
    flights::set_text(table, i, at2, width2, rest);
}
