// The rows of the lines of a block, one behind the other.
ghost use Rattle.std.specs.Prelude.{◌≡◌, true, false, cond, [], ◌+◌, ◌≤◌, ◌<◌, ◌^◌, length, get_or};
ghost use Rattle.refusal.specs.Given.{Wrote};
ghost use Rattle.rows.specs.Row.{output_line};
ghost use Rattle.run.specs.Program.{pieces};
ghost use Rattle.run.specs.Given.{IsFed};

use fault::piece::piece_end;
use rows::row::row;

// What was made of a block: the bytes of it that were used, the bytes written, and the lines that have their rows.
#[derive(Clone, Copy)]
pub struct Fed {
    pub used: usize,
    pub written: usize,
    pub lines: usize,
}

// The row of a line, where there is room for any, as the public `turn` sees to. Gives the place behind it.
fn put_row(line: &[u8], number: u64, out: &mut [u8], at: usize) -> usize
    requires { at + 64 ≤ length out.old }
    ensures wrote { Wrote out.old at out.new result (output_line number line.now) }
    ensures upper_bound { result ≤ at + 64 }
{
    at + row(line, number, &mut out[at..]).unwrap()
}

// Where the first line of a block ends: with the block, where that is one line, and otherwise at its first line feed.
fn line_end(block: &[u8], whole: bool) -> usize
    ensures { result ≡ cond whole (length block.now) (length (get_or (pieces block.now) 0 [])) }
{
    if whole {
        return block.len();
    }
    piece_end(block, b'\n')
}

// The rows of the lines of a block that a line feed ends, as many as find room with 64 bytes for each; or the row of a whole block as one line.
// Rows are made in this place alone, so that the compiler sets that into the loop.
fn make_rows(block: &[u8], whole: bool, number: u64, out: &mut [u8]) -> Fed
    requires block_bound { number + length block.now < 2 ^ 64 }
    requires in_bounds { whole ≡ true → 64 ≤ length out.old }
    ensures fed { whole ≡ false → IsFed block.now number out.old out.new result }
    ensures wrote { whole ≡ true → Wrote out.old 0 out.new result.written (output_line number block.now) }
{
    let most = out.len() / 64;
    let mut used: usize = 0;
    let mut written: usize = 0;
    for lines in 0..most {
        let rest = &block[used..];
        let e = line_end(rest, whole);
        let open = (e == rest.len()) & !whole;
        if open {
            return Fed {
                used,
                written,
                lines,
            };
        }
        let n = number + lines as u64;
        let end = put_row(&rest[..e], n, out, written);
        if whole {
            return Fed {
                used: e,
                written: end,
                lines: 1,
            };
        }
        written = end;
        used += e + 1;
    }
    Fed {
        used,
        written,
        lines: most,
    }
}

// The rows of the lines of a block that a line feed ends.
pub(crate) fn feed(block: &[u8], number: u64, out: &mut [u8]) -> Fed
    requires { number + length block.now < 2 ^ 64 }
    ensures { IsFed block.now number out.old out.new result }
{
    make_rows(block, false, number, out)
}

// The row of a line that no line feed ends. Gives the place behind it.
pub(crate) fn put_whole(line: &[u8], number: u64, out: &mut [u8]) -> usize
    requires line_bound { number + length line.now < 2 ^ 64 }
    requires in_bounds { 64 ≤ length out.old }
    ensures { Wrote out.old 0 out.new result (output_line number line.now) }
{
    make_rows(line, true, number, out).written
}
