// Lists the texts of standard input, a line for each, and the totals. It ends with status 0 only where all of the input
// was judged and all of the listing written.
#![tactic(auto)]

use list::{KEPT, Tally};
use std::io;
use std::io::Read;

// What is read at once, and what is written at once.
const BUFFER: usize = 65536;

// What became of the input.
#[derive(Clone, Copy)]
enum Next {
    More,
    Ended,
    Failed(io::Error),
}

// A listing that is under way, with room for the line that is not ended yet and for a part of the report.
#[derive(Drop)]
struct Listing {
    tally: Tally,
    line: [u8; KEPT],
    out: [u8; BUFFER],
}

impl Listing {
    // Lists a piece of the input, in as many steps as out needs. The error is that of a write that failed.
    fn list_piece(&mut self, rt: &impl Print, piece: &[u8]) -> io::Result<Next> {
        let mut rest = piece;
        while !rest.is_empty() {
            let step = list::feed(self.tally, &mut self.line, rest, &mut self.out);
            self.tally = step.tally;
            rt.write_all(&self.out[..step.written])?;
            if step.taken == 0 {
                let e = io::Error::other("more lines than are counted");
                return Ok(Next::Failed(e));
            }
            rest = &rest[step.taken..];
        }
        Ok(Next::More)
    }

    // Reads once, and lists what came.
    fn read_piece(
        &mut self,
        rt: &impl Print,
        input: &mut impl Read,
        piece: &mut [u8],
    ) -> io::Result<Next> {
        match input.read(piece) {
            Err(e) => Ok(Next::Failed(e)),
            Ok(0) => Ok(Next::Ended),
            Ok(n) => self.list_piece(rt, &piece[..n]),
        }
    }

    // A proved loop has to end, and nothing says that the input does. So the turns are counted, up to a number that no
    // run uses up; if one did, the input would count as broken off.
    fn read_all(&mut self, rt: &impl Print, input: &mut impl Read) -> io::Result<Next> {
        let mut piece = [0u8; BUFFER];
        for _ in 0..u64::MAX {
            let next = self.read_piece(rt, input, &mut piece)?;
            let Next::More = next else {
                return Ok(next);
            };
        }
        Ok(Next::Failed(io::Error::other("more pieces than are counted")))
    }

    // The end of the report, of an input that was read to its end.
    fn finish(&mut self, rt: &impl Print) -> io::Result<()> {
        let n = list::finish(self.tally, &mut self.line, &mut self.out);
        rt.write_all(&self.out[..n])
    }

    // The end of the report, of an input that broke off.
    fn broke(&mut self, rt: &impl Print) -> io::Result<()> {
        let n = list::broke(self.tally, &mut self.out);
        rt.write_all(&self.out[..n])
    }
}

// Reads standard input to its end and writes its listing to standard output.
fn main(rt: HostRuntime) -> io::Result<()> {
    let mut listing = Listing {
        tally: list::start(),
        line: [0; KEPT],
        out: [0; BUFFER],
    };
    match listing.read_all(&rt, &mut rt.stdin())? {
        Next::Failed(e) => {
            listing.broke(&rt)?;
            Err(e)
        }
        _ => listing.finish(&rt),
    }
}
