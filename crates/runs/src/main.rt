// Reads an image file from standard input and prints its mapped runs and stops, a line each.
#![tactic(auto)]

ghost use Rattle.std.specs.Prelude.{◌≡◌, ◌+◌, ◌*◌, ◌≤◌, [], OnErr};
ghost use Rattle.arrayvec.specs.ArrayVec.{array_vec_len};
ghost use Rattle.listing.specs.Text.{line_bytes};
ghost use Rattle.runs.specs.Sizes.{most_lines, output_bytes};

use addr::VirtAddr;
use answer::Refusal;
use arrayvec::ArrayVec;
use found::StopReason;
use image::{ANSWER_WORDS, END, RESERVED, RUN, list};
use input::{MOST_WORDS, read_header, read_words};
use listing::{LINE_BYTES, Line, end_line, more_line, refused_line, run_line, stop_line};
use page::Page;
use phys::PhysAddr;
use std::io;
use std::io::{Read, Write};
use walk::Rights;

// The most runs and stops that are printed.
const MOST_LINES: usize = 4096;

// The most bytes that are read. A file has fewer, so one that is longer is refused all the same.
const MOST_BYTES: usize = 65536;

// The most tables that an image file has.
const MOST_TABLES: usize = MOST_WORDS / 512;

// The last line stands behind the others.
const OUTPUT_BYTES: usize = (MOST_LINES + 1) * LINE_BYTES;

// The lines, in memory of their own: what grows would need trust in what gives the memory.
type Output = ArrayVec<u8, OUTPUT_BYTES>;

// Puts a line behind the others.
fn put(out: &mut Output, line: Line)
    requires { array_vec_len out.old + line_bytes ≤ output_bytes }
    ensures { array_vec_len out.new ≤ array_vec_len out.old + line_bytes }
{
    out.try_extend_from_slice(line.as_bytes()).unwrap();
}

// The line of the run or stop that an answer's words tell; None for the end.
fn answer_line(answer: &[u64; ANSWER_WORDS]) -> Option<Line> {
    let [kind, page, place, count, rights] = *answer;
    match kind {
        END => None,
        RUN => Some(run_line(page, place, count, Rights::from_bits(rights))),
        RESERVED => Some(stop_line(page, place, StopReason::Reserved)),
        // OUTSIDE: a list stores no other kind.
        _ => Some(stop_line(page, place, StopReason::Outside)),
    }
}

// The lines of a list, up to an end; behind its answers a list is zero, as an end is.
fn put_answers(out: &mut Output, words: &[u64; MOST_LINES * ANSWER_WORDS])
    requires { out.old.items ≡ [] }
    ensures { array_vec_len out.new ≤ most_lines * line_bytes }
{
    let (answers, _) = words.as_chunks::<ANSWER_WORDS>();
    for answer in answers {
        let Some(line) = answer_line(answer) else {
            break;
        };
        put(out, line);
    }
}

// The last line where the list is full: a list of one answer from the next page on decides. It is not refused, since the list was not.
fn last_line(image: &[u64], base: PhysAddr, root: PhysAddr, next: Page) -> Line {
    let page = next.start_address;
    let mut answer = [0; ANSWER_WORDS];
    let mut empty_tables = [0; MOST_TABLES];
    let _ = list(image, base, root, page, &mut empty_tables, &mut answer);
    match answer_line(&answer) {
        None => end_line(),
        Some(_) => more_line(page.0),
    }
}

// The lines of runs and stops, and the last line; nothing if the file is refused.
fn put_file(out: &mut Output, bytes: &[u8]) -> Result<(), Refusal>
    requires { out.old.items ≡ [] }
    ensures { OnErr result (out.new.items ≡ []) }
{
    let header = read_header(bytes)?;
    // The words of the file are the first of these, which lie in memory of their own: nothing is asked of a heap.
    let mut words = [0; MOST_WORDS];
    let count = read_words(bytes, &mut words) as usize;
    let image = &words[..count];
    let base = PhysAddr(header.base);
    let root = PhysAddr(header.root);
    let mut answers = [0; MOST_LINES * ANSWER_WORDS];
    let mut empty_tables = [0; MOST_TABLES];
    let listed = list(
        image,
        base,
        root,
        VirtAddr(0),
        &mut empty_tables,
        &mut answers,
    )?;
    put_answers(out, &answers);
    let last = match listed.next {
        None => end_line(),
        Some(next) => last_line(image, base, root, next),
    };
    put(out, last);
    Ok(())
}

fn main(rt: HostRuntime) -> io::Result<()> {
    let mut bytes = ArrayVec::<u8, MOST_BYTES>::new();
    io::copy(&mut rt.stdin().take(MOST_BYTES as u64), &mut bytes)?;
    let mut out = Output::new();
    if let Err(refusal) = put_file(&mut out, &bytes) {
        put(&mut out, refused_line(u64::from(refusal.number())));
    }
    rt.stdout().write_all(&out)
}
