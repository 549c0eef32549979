// Whether a table of flights is well formed: its size, every place, and no key twice.
ghost use Rattle.std.specs.List.{All};
ghost use Rattle.scan.specs.Bools.{Decides};
ghost use Rattle.flights.specs.Formed.{Apart, RecordsFormed, TableFormed};

// Whether two records are not both used with one key. Most differ in the first or the last four bytes of the aircraft, and a
// word of four is compared at once.
fn apart(a: &[u8; 768], b: &[u8; 768]) -> bool
    ensures { Decides result (Apart a.now b.now) }
{
    if a[0] == 0 || b[0] == 0 {
        return true;
    }
    if places::word_at(a, 6) != places::word_at(b, 6) {
        return true;
    }
    if places::word_at(a, 9) != places::word_at(b, 9) {
        return true;
    }
    let aircraft = places::same(&a[6..13], &b[6..13]);
    let departure = places::same(&a[17..21], &b[17..21]);
    let destination = places::same(&a[25..29], &b[25..29]);
    !(aircraft & departure & destination)
}

// Whether a record is apart from every lower one.
fn apart_from_lower(lower: &[[u8; 768]], b: &[u8; 768]) -> bool
    ensures { Decides result (All (λ a. Apart a b.now) lower.now) }
{
    lower.iter().all(|a| apart(a, b))
}

// Whether every record is well formed and apart from the others.
fn records_formed(records: &[[u8; 768]]) -> bool
    ensures { Decides result (RecordsFormed records.now) }
{
    records.iter().enumerate().all(|(i, b)| crate::checking::is_well_formed(b)
        & apart_from_lower(&records[..i], b))
}

// Whether a table is well formed.
pub fn is_table(table: &[u8]) -> bool
    ensures { Decides result (TableFormed table.now) }
{
    let (records, rest) = table.as_chunks::<768>();
    if records.is_empty() || 32 < records.len() || !rest.is_empty() {
        return false;
    }
    records_formed(records)
}
