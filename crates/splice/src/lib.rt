// Bytes that are written into a buffer.
#![tactic(auto)]

ghost use Rattle.std.specs.Prelude.{◌+◌, ◌≤◌, length, replicate};
ghost use Rattle.splice.specs.Splice.{Spliced};

// Writes src over d from index at on, and answers the index behind it.
pub fn put(d: &mut [u8], at: usize, src: &[u8]) -> usize
    requires { at + length src.now ≤ length d.old }
    ensures { Spliced at src.now d.old d.new result }
{
    for (i, b) in src.iter().enumerate() {
        d[at + i] = *b;
    }
    at + src.len()
}

// Writes n times v over d from index at on, and answers the index behind it.
pub fn fill(d: &mut [u8], at: usize, n: usize, v: u8) -> usize
    requires { at + n ≤ length d.old }
    ensures { Spliced at (replicate n v) d.old d.new result }
{
    let end = at + n;
    d[at..end].fill(v);
    end
}
