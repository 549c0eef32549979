// Applies each line of the input, where it is read, to one table of five places, says what was decided, and writes the bytes of
// the table at the end.
#![tactic(auto)]

ghost use Rattle.std.specs.Prelude.{◌≤◌, length, IfOk};
ghost use Rattle.reader.specs.Reading.{Judged};
ghost use Rattle.message.specs.declared.Verdict.TheVariants.{Read};

use deeds::Decision;
use message::{Record, Verdict};
use std::io;
use std::io::Read;

fn say(rt: &impl Print, text: &[u8]) -> io::Result<()> {
    rt.write_all(text)
}

fn tell(rt: &impl Print, c: Decision) -> io::Result<()> {
    match c {
        Decision::Fails => say(rt, b"condition fails\n"),
        Decision::Full => say(rt, b"no place is free\n"),
        Decision::Done(i) => {
            let place = [b'0' + (i % 10) as u8];
            say(rt, b"done at ")?;
            say(rt, &place)?;
            say(rt, b"\n")
        }
    }
}

fn apply(rt: &impl Print, line: &[u8], r: Record, table: &mut [u8]) -> io::Result<()>
    requires { Judged line.now Read r }
{
    if !flights::tables::is_table(&table[..]) {
        return say(rt, b"the table is not well formed\n");
    }
    let c = deeds::decide(&table[..], line, r);
    tell(rt, c)?;
    perform::follow(c, table, line, r);
    Ok(())
}

fn take(rt: &impl Print, line: &[u8], table: &mut [u8]) -> io::Result<()> {
    let q = reader::read(line);
    let r = q.record;
    let v = q.verdict;
    match v {
        Verdict::Read => apply(rt, line, r, table),
        Verdict::Refused(_, _) => say(rt, b"not read\n"),
    }
}

fn take_all(rt: &impl Print, s: &[u8], table: &mut [u8]) -> io::Result<()> {
    let mut at = 0;
    while at < s.len() {
        let rest = &s[at..];
        let n = lines::line_ends::line_end(rest);
        take(rt, &rest[..n], table)?;
        at += n + 1;
    }
    Ok(())
}

// Reads until s is full or the input ends, and answers how many bytes were put at the start of s.
fn read_full(input: &mut impl Read, s: &mut [u8]) -> io::Result<usize>
    ensures { IfOk result (λ n. n ≤ length s.new) }
{
    let mut done = 0;
    while done < s.len() {
        let n = input.read(&mut s[done..])?;
        if n == 0 {
            break;
        }
        done += n;
    }
    Ok(done)
}

fn main(rt: HostRuntime) -> io::Result<()> {
    let mut input = [0u8; 20000];
    let mut table = [0u8; 3840];
    let n = read_full(&mut rt.stdin(), &mut input)?;
    take_all(&rt, &input[..n], &mut table)?;
    if flights::tables::is_table(&table) {
        say(&rt, b"well formed\n")?;
    }
    say(&rt, &table)
}
