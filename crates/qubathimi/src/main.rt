// Reads catalogue lines of any length from standard input and prints a row for each. It reads, writes and says what failed; what is
// printed is up to `turn`, by which `run::print::print` is proved to print what it should.
#![tactic(auto)]

ghost use Rattle.std.specs.Prelude.{◌≤◌, length};

use run::turn::{State, begin, turn};
use std::fmt;
use std::io::Read;
use std::process::ExitCode;

// How many bytes the input has room for, and the rows: 64 KiB.
const ROOM: usize = 65536;

// What failed.
#[derive(Clone, Copy)]
enum Failure {
    Input,
    Output,
}

impl fmt::Display for Failure {
    fn fmt<W: fmt::Write>(&self, f: &mut fmt::Formatter<W>) -> fmt::Result {
        match self {
            Failure::Input => write!(f, "standard input cannot be read"),
            Failure::Output => write!(f, "standard output cannot be written"),
        }
    }
}

// Where input is wanted, reads some behind what the buffer holds. Gives how many bytes that is.
fn receive(input: &mut impl Read, buf: &mut [u8], s: State) -> Result<usize, Failure>
    requires { s.end ≤ length buf.old }
{
    if !s.wants {
        return Ok(0);
    }
    input.read(&mut buf[s.end..]).map_err(|_| Failure::Input)
}

// Reads and writes turn by turn. Nothing says that the input ends, so the turns are counted, up to a number that no run uses up.
fn run(
    rt: &impl Print,
    input: &mut impl Read,
    buf: &mut [u8],
    out: &mut [u8],
) -> Result<(), Failure> {
    let mut s = begin();
    for _ in 0..u64::MAX {
        let got = receive(input, buf, s)?;
        s = turn(buf, got, s, out);
        rt.write_all(&out[..s.written])
            .map_err(|_| Failure::Output)?;
        if s.over {
            break;
        }
    }
    Ok(())
}

fn main(rt: HostRuntime) -> ExitCode {
    let mut buf = [0u8; ROOM];
    let mut out = [0u8; ROOM];
    match run(&rt, &mut rt.stdin(), &mut buf, &mut out) {
        Ok(()) => ExitCode::SUCCESS,
        Err(failure) => {
            let _ = eprintln!(rt; "qubathimi: {failure}");
            ExitCode::FAILURE
        }
    }
}
