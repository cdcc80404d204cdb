// Replays recorded answers, of the unchanged Rust where it can be asked and document 02 has not changed
// the answer: reads questions with their answers from standard input, asks the C interface each, and prints
// how many were asked and how many answers differ.
#![tactic(auto)]

mod line;
mod question;

use crate::line::Line;
use std::io::Read;
use std::{io, mem};

// The most bytes of a read. They lie on the stack: what reads lines for us would need memory, and trust in what gives it.
const BUFFER_BYTES: usize = 65536;

// How many lines were read, how many of them differ, and the first that does. The counters stay at their top.
#[derive(Clone, Copy, Default)]
struct Tally {
    lines: u64,
    differ: u64,
    first: Option<u64>,
}

impl Tally {
    // Counts a line, which agrees or differs.
    fn count(&mut self, agrees: bool) {
        self.lines = self.lines.saturating_add(1);
        if !agrees {
            self.differ = self.differ.saturating_add(1);
            self.first = self.first.or(Some(self.lines));
        }
    }
}

// The line being read, and what the lines before it gave.
#[derive(Drop)]
struct Replay {
    line: Line,
    tally: Tally,
}

impl Replay {
    fn new() -> Replay {
        Replay {
            line: Line::new(),
            tally: Tally::default(),
        }
    }

    // Goes on with further bytes of the input.
    fn read(&mut self, bytes: &[u8]) {
        for byte in bytes {
            if *byte == b'\n' {
                self.end_line();
            } else {
                self.line.read(*byte);
            }
        }
    }

    fn end_line(&mut self) {
        let line = mem::replace(&mut self.line, Line::new());
        self.tally.count(line.agrees());
    }

    // A last line without an end counts too, once a number of it has ended.
    fn end(mut self) -> Tally {
        if !self.line.is_empty() {
            self.end_line();
        }
        self.tally
    }
}

// What all lines of the input give. A proved loop has to end, and nothing says that the input does: the loop has more turns than any run uses up.
fn replay_all(input: &mut impl Read) -> io::Result<Tally> {
    let mut replay = Replay::new();
    let mut buffer = [0; BUFFER_BYTES];
    for _ in 0..u64::MAX {
        let count = input.read(&mut buffer)?;
        if count == 0 {
            break;
        }
        replay.read(&buffer[..count]);
    }
    Ok(replay.end())
}

fn main(rt: HostRuntime) -> io::Result<()> {
    let Tally {
        lines,
        differ,
        first,
    } = replay_all(&mut rt.stdin())?;
    print!(rt; "{lines} answers replayed, {differ} differ")?;
    if let Some(first) = first {
        print!(rt; ", first on line {first}")?;
    }
    println!(rt;)
}
