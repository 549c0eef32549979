// Lists the texts of an input, a line for each, and the totals. The input comes in pieces of any size, and the report
// leaves in parts: nothing here grows with the input.
#![tactic(auto)]

ghost use Rattle.std.specs.Prelude.{◌≡◌, true, List, [], ◌++◌, ℕ, ◌+◌, ◌≤◌, ◌<◌, length, take};
ghost use Rattle.reader.specs.Reader.{verdict};
ghost use Rattle.splice.specs.Splice.{Spliced};
ghost use Rattle.lines.specs.Telling.{Tells};
ghost use Rattle.lines.specs.Listing.{line_of, if_read, totals, listing, broken};
ghost use Rattle.list.specs.Progress.{kept, soundly, Holds, After, Fed, Ends};

use lines::Told;

// ---- a line that comes in several pieces

// Puts part behind the held bytes of line, as far as there is room, and answers how many are held then.
fn hold(line: &mut [u8; KEPT], held: usize, part: &[u8]) -> usize
    requires { held ≤ kept }
    ensures { Holds (take held line.old ++ part.now) line.new result }
{
    let n = (KEPT - held).min(part.len());
    splice::put(line, held, &part[..n])
}

// Tells of the text that is the held bytes of line with part behind them.
fn tell_whole(
    d: &mut [u8],
    at: usize,
    k: u64,
    line: &mut [u8; KEPT],
    held: usize,
    part: &[u8],
) -> Told
    requires { (at + 71 ≤ length d.old) × (held ≤ kept) }
    ensures { Tells (line_of k (take held line.old ++ part.now)) (if_read (verdict (take held line.old ++ part.now))) at d.old d.new result.next result.read }
{
    if held == 0 {
        return lines::tell(d, at, k, part);
    }
    let n = hold(line, held, part);
    lines::tell(d, at, k, &line[..n])
}

// ---- the listing

// No more bytes of a line are kept: they decide what is said of it. The caller lends them, and leaves them alone
// between start and the end.
pub const KEPT: usize = 1078;

// An out of this size has room for what one call has to write at least.
pub const ROOM: usize = 160;

// A count that a run does not reach: past it no more of the input is taken, so that no sum wraps.
pub const MOST_LINES: u64 = 9223372036854775808;

// What is known between two pieces: how many lines were ended, how many of them are read, and how many bytes of the
// unfinished line are kept.
#[derive(Clone, Copy)]
pub struct Tally {
    lines: u64,
    read: u64,
    held: usize,
}

// What a piece gave: the tally behind it, how many bytes of the piece were taken, and how many of out were written.
#[derive(Clone, Copy)]
pub struct Step {
    pub tally: Tally,
    pub taken: usize,
    pub written: usize,
}

// Before the first piece.
pub fn start() -> Tally
    ensures { (line : List ℕ) → After [] [] result line }
{
    Tally {
        lines: 0,
        read: 0,
        held: 0,
    }
}

// Whether start or feed could have made the tally: nothing is done with another.
fn sound(tally: Tally) -> bool
    ensures { result ≡ soundly tally }
{
    (tally.read <= tally.lines) & (tally.lines <= MOST_LINES) & (tally.held <= KEPT)
}

// What feed does with a tally that is sound: a turn for each line, and one for what follows the last line feed.
fn feed_lines(tally: Tally, line: &mut [u8; KEPT], piece: &[u8], out: &mut [u8]) -> Step
    requires { soundly tally ≡ true }
    ensures { Fed tally line.old piece.now out.old result.tally line.new out.new result.taken result.written }
{
    let mut step = Step {
        tally,
        taken: 0,
        written: 0,
    };
    while step.taken < piece.len() {
        if step.tally.lines == MOST_LINES || out.len() - step.written < ROOM {
            return step;
        }
        let rest = &piece[step.taken..];
        let end = lines::line_ends::line_end(rest);
        if end == rest.len() {
            step.tally.held = hold(line, step.tally.held, rest);
            step.taken += end;
        } else {
            step.tally.lines += 1;
            let told = tell_whole(
                out,
                step.written,
                step.tally.lines,
                line,
                step.tally.held,
                &rest[..end],
            );
            step.tally.read += u64::from(told.read);
            step.tally.held = 0;
            step.taken += end + 1;
            step.written = told.next;
        }
    }
    step
}

// Takes a piece of the input, and writes the lines of the report for it to the start of out. Where fewer than ROOM
// bytes of out are left, the rest of the piece is not taken: it is to be given again, with an out that is free. So
// every piece is taken in the end, by an out of ROOM bytes or more.
pub fn feed(tally: Tally, line: &mut [u8; KEPT], piece: &[u8], out: &mut [u8]) -> Step
    ensures { Fed tally line.old piece.now out.old result.tally line.new out.new result.taken result.written }
{
    if sound(tally) {
        return feed_lines(tally, line, piece, out);
    }
    Step {
        tally,
        taken: 0,
        written: 0,
    }
}

// Writes the totals over d from index at on.
fn put_totals(d: &mut [u8], at: usize, lines: u64, read: u64, refused: u64) -> usize
    requires { at + 82 ≤ length d.old }
    ensures spliced { Spliced at (totals lines read refused) d.old d.new result }
    ensures upper_bound { result ≤ at + 82 }
{
    let a = lines::put_labelled(d, at, b"lines ", lines);
    let b = lines::put_labelled(d, a, b" read ", read);
    let c = lines::put_labelled(d, b, b" refused ", refused);
    splice::put(d, c, b"\n")
}

// At the end of the input: writes what the report still lacks to the start of out, and answers how many bytes that
// is; 0 where out has fewer than ROOM bytes.
pub fn finish(tally: Tally, line: &mut [u8; KEPT], out: &mut [u8]) -> usize
    ensures { Ends listing tally line.old out.old out.new result }
{
    if !sound(tally) || out.len() < ROOM {
        return 0;
    }
    if tally.held == 0 {
        return put_totals(out, 0, tally.lines, tally.read, tally.lines - tally.read);
    }
    let lines = tally.lines + 1;
    let told = tell_whole(out, 0, lines, line, tally.held, b"");
    let read = tally.read + u64::from(told.read);
    put_totals(out, told.next, lines, read, lines - read)
}

// Where the input broke off: writes the last line of the report to the start of out, and answers how many bytes that
// is; 0 where out has fewer than ROOM bytes. The unfinished line is neither judged nor counted.
pub fn broke(tally: Tally, out: &mut [u8]) -> usize
    ensures { (line : List ℕ) → Ends broken tally line out.old out.new result }
{
    if out.len() < ROOM {
        return 0;
    }
    let a = lines::put_labelled(out, 0, b"broke off after ", tally.lines);
    splice::put(out, a, b" lines\n")
}
