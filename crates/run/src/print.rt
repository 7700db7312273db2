// A run over an input that is all there, into a sink.
ghost use Rattle.std.specs.Prelude.{◌≡◌, true, ◌&&◌, ◌+◌, ◌-◌, ◌≤◌, ◌<◌, ◌^◌, length, take};
ghost use Rattle.refusal.specs.Given.{Wrote};
ghost use Rattle.division.specs.Words.{◌≤?◌};
ghost use Rattle.run.specs.Program.{printed};
ghost use Rattle.run.specs.Run.{poured, tally};
ghost use Rattle.run.specs.Given.{Brought};

use crate::turn::{State, begin, turn};

// How much of an output a sink took, and whether that was all of it: both are told in either case, so that neither is the other's refusal.
#[derive(Clone, Copy)]
pub struct Took {
    pub written: usize,
    pub whole: bool,
}

// How many bytes a read brings that begins at place a of the input: what `lengths` says there, but at least one of those that can be had.
fn wished(lengths: &[usize], a: usize, most: usize) -> usize
    ensures upper_bound { result ≤ most }
    ensures lower_bound { 1 ≤ most → 1 ≤ result }
{
    if lengths.len() <= a {
        return most;
    }
    let n = lengths[a];
    if n == 0 {
        return most.min(1);
    }
    n.min(most)
}

// A read: where input is wanted, the next bytes of it are copied behind what the buffer holds.
fn bring(input: &[u8], lengths: &[usize], a: usize, buf: &mut [u8], s: State) -> usize
    requires a_in_bounds { a ≤ length input.now }
    requires end_in_bounds { s.end ≤ length buf.old }
    requires end_in_bounds_2 { s.wants ≡ true → s.end < length buf.old }
    ensures { Brought input.now a s buf.old buf.new result }
{
    if !s.wants {
        return 0;
    }
    let end = s.end;
    let most = (input.len() - a).min(buf.len() - end);
    let n = wished(lengths, a, most);
    buf[end..end + n].copy_from_slice(&input[a..a + n]);
    n
}

// A write: the sink takes the bytes behind those that it has, as many as it has room for.
fn pour(bytes: &[u8], sink: &mut [u8], p: Took) -> Took
    requires { p.written ≤ length sink.old }
    ensures wrote { Wrote sink.old p.written sink.new result.written (take (length sink.old - p.written) bytes.now) }
    ensures whole_value { result.whole ≡ (p.whole && length bytes.now ≤? length sink.old - p.written) }
{
    let at = p.written;
    let left = sink.len() - at;
    let n = left.min(bytes.len());
    sink[at..at + n].copy_from_slice(&bytes[..n]);
    Took {
        written: at + n,
        whole: p.whole & (bytes.len() <= left),
    }
}

fn run(input: &[u8], lengths: &[usize], buf: &mut [u8], out: &mut [u8], sink: &mut [u8]) -> Took
    requires in_bounds { 67 ≤ length buf.old }
    requires buf_len_bound { length buf.old ≤ 2 ^ 16 }
    requires in_bounds_2 { 64 ≤ length out.old }
    ensures value { result ≡ tally (printed input.now) (length sink.old) }
    ensures sink_after { sink.new ≡ poured (printed input.now) sink.old }
{
    let mut s = begin();
    let mut p = Took {
        written: 0,
        whole: true,
    };
    let mut a: usize = 0; // by hand, since a read brings as many as it does
    while !s.over {
        let got = bring(input, lengths, a, buf, s);
        a += got;
        s = turn(buf, got, s, out);
        let rows = s.written;
        p = pour(&out[..rows], sink, p);
    }
    p
}

// The program's output for an input that is all there, however it comes in blocks, laid into a sink that takes as much as it has room for.
// A read that begins at place a of the input brings `lengths[a]` bytes, but at least one, and no more than there are and find room; where
// `lengths` ends before a, as many as find room.
pub fn print(input: &[u8], lengths: &[usize], sink: &mut [u8]) -> Took
    ensures value { result ≡ tally (printed input.now) (length sink.old) }
    ensures sink_after { sink.new ≡ poured (printed input.now) sink.old }
{
    let mut buf = [0u8; 256];
    let mut out = [0u8; 256];
    run(input, lengths, &mut buf, &mut out, sink)
}
