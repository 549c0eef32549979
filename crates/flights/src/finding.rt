// Places of a table: where a flight is, which place is free, how many are used.
ghost use Rattle.std.specs.Prelude.{◌≡◌, ◌+◌, ◌*◌, ◌<◌};
ghost use Rattle.flights.specs.Table.{has_key, found, lowest_free, in_use};

// Whether a used record has a key.
fn has_key(b: &[u8; 768], aircraft: &[u8], departure: &[u8], destination: &[u8]) -> bool
    ensures { result ≡ has_key aircraft.now departure.now destination.now b.now }
{
    (b[0] != 0)
        && places::same(crate::text_at(b, 6, 7), aircraft)
        && places::same(crate::text_at(b, 17, 4), departure)
        && places::same(crate::text_at(b, 25, 4), destination)
}

// The lowest place with a key.
pub fn find(table: &[u8], aircraft: &[u8], departure: &[u8], destination: &[u8]) -> Option<usize>
    ensures { result ≡ found aircraft.now departure.now destination.now table.now }
{
    let (records, _) = table.as_chunks::<768>();
    records
        .iter()
        .position(|b| has_key(b, aircraft, departure, destination))
}

// The lowest free place.
pub fn lowest_free(table: &[u8]) -> Option<usize>
    ensures { result ≡ lowest_free table.now }
{
    let (records, _) = table.as_chunks::<768>();
    records.iter().position(|b| b[0] == 0)
}

// How many places are not free.
pub fn used(table: &[u8]) -> usize
    ensures { result ≡ in_use table.now }
{
    let (records, _) = table.as_chunks::<768>();
    records.iter().filter(|b| b[0] != 0).count()
}
