// Places of one size, one after the other, each free or in use, and the bytes that these hold.
#![tactic(auto)]

ghost use Rattle.std.specs.Prelude.{◌≡◌, ◌+◌, ◌≤◌, length};
ghost use Rattle.places.specs.Bytes.{each, same as same_b, number_at, word_at};

// Whether every byte is v. It looks at each before it answers: a loop with no way out becomes vector code.
pub fn all_are(s: &[u8], v: u8) -> bool
    ensures { result ≡ each v s.now }
{
    let mut ok = true;
    for &b in s {
        ok = ok & (b == v);
    }
    ok
}

// Whether two texts are the same.
#[tactic(auto, unfolding(crate::specs::Bytes::same))]
pub fn same(a: &[u8], b: &[u8]) -> bool
    ensures { result ≡ same_b a.now b.now }
{
    a == b
}

// A number of two bytes, high byte first.
pub fn number_at(b: &[u8], at: usize) -> usize
    requires { at + 2 ≤ length b.now }
    ensures { result ≡ number_at at b.now }
{
    u16::from_be_bytes([b[at], b[at + 1]]) as usize
}

// Four bytes as one number, the first counting least, which the compiler makes one load of.
pub fn word_at(b: &[u8], at: usize) -> usize
    requires { at + 4 ≤ length b.now }
    ensures { result ≡ word_at at b.now }
{
    u32::from_le_bytes([b[at], b[at + 1], b[at + 2], b[at + 3]]) as usize
}
