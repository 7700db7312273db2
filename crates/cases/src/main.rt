// Puts the questions of standard input to the library, line by line, and writes a line for each: the question
// and the answer. The input is `stdin`, and what must come out is `stdout`: compare/cases.rs writes the answers
// from the definition alone, and says what a question looks like.
#![tactic(auto)]

mod ask;
mod held;
mod known;
mod labels;
mod lists;
mod locals;
mod metres;
mod part;
mod read;
mod room;
mod sheets;
mod spelt;
mod supplied;
mod write;

ghost use Rattle.std.specs.Prelude.{◌≤◌, length};

use std::io::Read;
use write::Out;

// Room for the questions: 256 KiB.
const TEXT: usize = 262_144;

fn main(rt: HostRuntime) {
    let mut text = [0u8; TEXT];
    let n = taken(&mut rt.stdin(), &mut text);
    let _ = ask::lines(&mut Out(rt.stdout()), part::before(&text, n));
}

// Reads the input to its end, or as much of it as there is room for or as can be read, and gives how many bytes that is.
fn taken(input: &mut impl Read, text: &mut [u8]) -> usize
    ensures { result ≤ length text.new }
{
    let mut n = 0;
    for _ in 0..u64::MAX {
        match input.read(&mut text[n..]) {
            Ok(0) | Err(_) => break,
            Ok(k) => n += k,
        }
    }
    n
}
