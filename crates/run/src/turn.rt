// A run of the program, on slices: it begins with `begin` and goes on by `turn` until it is over, and what a turn has put into the room is
// written before the next.
ghost use Rattle.std.specs.Prelude.{◌≡◌, ◌+◌, ◌≤◌, ◌<◌, ◌^◌, min, length, take};
ghost use Rattle.std.proofs.Math.Seq.{slice};
ghost use Rattle.refusal.specs.Paper.{answer, room_after};
ghost use Rattle.refusal.specs.Given.{Wrote};
ghost use Rattle.run.specs.Program.{line_of, output_from};
ghost use Rattle.run.specs.Run.{start, goes_on, turn_of};

use crate::feed::{feed, put_whole};

// What a run goes by between two turns: the bytes of the buffer that have no row yet, from `from` up to `end`; the number of their first
// line; how many bytes of the room are to be written; whether input is wanted, which is to be read behind `end`; and whether the run is over.
// The buffer itself is the program's. Both flags may be told at once by a caller, since the definition (`turn_of`) is of any state.
#[derive(Clone, Copy)]
pub struct State {
    pub from: usize,
    pub end: usize,
    pub number: u64,
    pub written: usize,
    pub wants: bool,
    pub over: bool,
}

// With line 1, and nothing held.
pub fn begin() -> State
    ensures { result ≡ start }
{
    State {
        from: 0,
        end: 0,
        number: 1,
        written: 0,
        wants: true,
        over: false,
    }
}

// Whether there is room, and a number for each line.
fn goes_on(size: usize, room: usize, number: u64) -> bool
    ensures { result ≡ goes_on size room number }
{
    ((67 <= size) & (64 <= room)) & (number <= u64::MAX - size as u64)
}

// The place behind what was read, within the buffer.
fn reach(end: usize, got: usize, size: usize) -> usize
    ensures { result ≡ min (end + got) size }
{
    if size <= end {
        return size;
    }
    end + got.min(size - end)
}

// The row of a last line that no line feed ends; nothing where there is no line.
fn last(line: &[u8], number: u64, out: &mut [u8]) -> usize
    requires line_bound { number + length line.now < 2 ^ 64 }
    requires in_bounds { 64 ≤ length out.old }
    ensures { Wrote out.old 0 out.new result (output_from number (line_of line.now)) }
{
    if line.is_empty() {
        return 0;
    }
    put_whole(line, number, out)
}

// Moves what is left of a block, from a up to n, to its front: at most 66 bytes, since no more of a line decide its answer. Gives how
// many that is.
fn keep(buf: &mut [u8], a: usize, n: usize) -> usize
    requires a_le_n { a ≤ n }
    requires n_in_bounds { n ≤ length buf.old }
    ensures { Wrote buf.old 0 buf.new result (take 66 (slice a n buf.old)) }
{
    let k = (n - a).min(66);
    buf.copy_within(a..a + k, 0);
    k
}

// One turn: `got` bytes were read behind what the buffer holds, or none where none were wanted.
pub fn turn(buf: &mut [u8], got: usize, s: State, out: &mut [u8]) -> State
    ensures value { result ≡ (turn_of buf.old (length out.old) s got).next }
    ensures buf_after { buf.new ≡ room_after (answer (turn_of buf.old (length out.old) s got).kept) buf.old }
    ensures out_after { out.new ≡ room_after (answer (turn_of buf.old (length out.old) s got).rows) out.old }
    ensures end_in_bounds { result.end ≤ length buf.old }
    ensures written_in_bounds { result.written ≤ length out.old }
{
    let number = s.number;
    if !goes_on(buf.len(), out.len(), number) {
        return State {
            from: 0,
            end: 0,
            number,
            written: 0,
            wants: false,
            over: true,
        };
    }
    let end = reach(s.end, got, buf.len());
    let from = s.from.min(end);
    if s.wants & (got == 0) {
        let row = last(&buf[from..end], number, out);
        return State {
            from: 0,
            end: 0,
            number,
            written: row,
            wants: false,
            over: true,
        };
    }
    let fed = feed(&buf[from..end], number, out);
    let rows = fed.written;
    let next = number + fed.lines as u64;
    let rest = from + fed.used;
    if out.len() / 64 <= fed.lines {
        return State {
            from: rest,
            end,
            number: next,
            written: rows,
            wants: false,
            over: false,
        };
    }
    let held = keep(buf, rest, end);
    State {
        from: 0,
        end: held,
        number: next,
        written: rows,
        wants: true,
        over: false,
    }
}
