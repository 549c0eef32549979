// What the listing says of one line.
#![tactic(auto)]

ghost use Rattle.std.specs.Prelude.{◌≡◌, [], ◌∷◌, ◌++◌, ◌+◌, ◌≤◌, length, take, drop};
ghost use Rattle.reader.specs.Reader.{verdict};
ghost use Rattle.lines.specs.Numbers.{decimal};
ghost use Rattle.splice.specs.Splice.{Spliced};
ghost use Rattle.lines.specs.Telling.{Tells};
ghost use Rattle.lines.specs.Listing.{labelled, refused_word, line_of, if_read};

use message::Verdict;

pub mod line_ends;

// Writes n in decimal over d from index at on, and answers the index behind it.
fn put_number(d: &mut [u8], at: usize, n: u64) -> usize
    requires { at + 20 ≤ length d.old }
    ensures spliced { Spliced at (decimal n) d.old d.new result }
    ensures upper_bound { result ≤ at + 20 }
{
    let mut digits = itoa::Buffer::new();
    splice::put(d, at, digits.format(n).as_bytes())
}

// Writes a word and a number behind it over d from index at on, and answers the index behind them.
pub fn put_labelled(d: &mut [u8], at: usize, word: &[u8], n: u64) -> usize
    requires { at + length word.now + 20 ≤ length d.old }
    ensures spliced { Spliced at (labelled word.now n) d.old d.new result }
    ensures upper_bound { result ≤ at + length word.now + 20 }
{
    let number = splice::put(d, at, word);
    put_number(d, number, n)
}

// ---- the lines of the report

// What is said of a text that is read: the letters of its type.
fn put_type(d: &mut [u8], at: usize, text: &[u8]) -> usize
    requires { at + 4 ≤ length d.old }
    ensures spliced { Spliced at ((32 ∷ []) ++ take 3 (drop 1 text.now)) d.old d.new result }
    ensures upper_bound { result ≤ at + 4 }
{
    let start = text.len().min(1);
    let end = text.len().min(4);
    let blank = splice::put(d, at, b" ");
    splice::put(d, blank, &text[start..end])
}

// What is said of a text that is refused: its place, and the hyphens before it.
fn put_refusal(d: &mut [u8], at: usize, place: u64, hyphens: u64) -> usize
    requires { at + 50 ≤ length d.old }
    ensures spliced { Spliced at (labelled refused_word place ++ labelled (32 ∷ []) hyphens) d.old d.new result }
    ensures upper_bound { result ≤ at + 50 }
{
    let first = put_labelled(d, at, b" refused ", place);
    put_labelled(d, first, b" ", hyphens)
}

// A line of the report: the index behind it, and whether its text is read.
#[derive(Clone, Copy)]
pub struct Told {
    pub next: usize,
    pub read: bool,
}

// Judges a text, the k-th of the input, and writes its line over d from index at on.
pub fn tell(d: &mut [u8], at: usize, k: u64, text: &[u8]) -> Told
    requires { at + 71 ≤ length d.old }
    ensures { Tells (line_of k text.now) (if_read (verdict text.now)) at d.old d.new result.next result.read }
{
    let number = put_number(d, at, k);
    match reader::judge(text) {
        Verdict::Read => {
            let word = put_type(d, number, text);
            let next = splice::put(d, word, b"\n");
            Told { next, read: true }
        }
        Verdict::Refused(place, hyphens) => {
            let word = put_refusal(d, number, place as u64, hyphens as u64);
            let next = splice::put(d, word, b"\n");
            Told { next, read: false }
        }
    }
}
