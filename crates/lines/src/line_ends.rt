// Where a line ends.
ghost use Rattle.lines.specs.Feeds.{LineEnd};

use memchr::memchr;

// Where the first line feed of s stands, or the length of s where it has none.
pub fn line_end(s: &[u8]) -> usize
    ensures { LineEnd s.now result }
{
    memchr(b'\n', s).unwrap_or(s.len())
}
