// Writing answers: to standard output, or into a sum.
ghost use Rattle.std.specs.Prelude.{◌<◌};

use itoa::{Buffer, Integer};
use refusal::Refusal;
use std::io::{self, Stdout, Write};

// Standard output. A piece that it does not take is left out and the next is tried, since there is nobody to tell: so this never fails.
#[derive(Drop)]
pub(crate) struct Out(pub(crate) Stdout);

impl Write for Out {
    fn write(&mut self, bytes: &[u8]) -> io::Result<usize> {
        let _ = self.0.write_all(bytes);
        Ok(bytes.len())
    }

    fn flush(&mut self) -> io::Result<()> {
        Ok(())
    }
}

// A sum, in which every byte that was written and its place count.
#[derive(Clone, Copy)]
pub(crate) struct Sum {
    pub(crate) value: u64,
}

// A sum into which nothing was written yet.
pub(crate) const SUM: Sum = Sum { value: 1 };

const MODULUS: u64 = 1_000_000_007;

impl Write for Sum {
    fn write(&mut self, bytes: &[u8]) -> io::Result<usize> {
        for &b in bytes {
            self.value = (self.value % MODULUS * 31 + u64::from(b)) % MODULUS + 1;
        }
        Ok(bytes.len())
    }

    // all at once, as `write` takes them
    fn write_all(&mut self, bytes: &[u8]) -> io::Result<()> {
        self.write(bytes)?;
        Ok(())
    }

    fn flush(&mut self) -> io::Result<()> {
        Ok(())
    }
}

// A number is written with a space in front. By `itoa`, since millions go into the sums, and `write!` takes half as long again for them.
pub(crate) fn number(to: &mut impl Write, n: impl Integer) -> io::Result<()> {
    to.write_all(b" ")?;
    to.write_all(Buffer::new().format(n).as_bytes())
}

pub(crate) fn numbers<const N: usize>(
    to: &mut impl Write,
    all: [impl Integer; N],
) -> io::Result<()> {
    for n in all {
        number(to, n)?;
    }
    Ok(())
}

// And with a word in front of that.
pub(crate) fn named(to: &mut impl Write, word: &[u8], n: impl Integer) -> io::Result<()> {
    to.write_all(word)?;
    number(to, n)
}

// A byte by two hexadecimal digits.
pub(crate) fn hexadecimal(to: &mut impl Write, b: u8) -> io::Result<()> {
    to.write_all(&[digit(b / 16), digit(b % 16)])
}

fn digit(n: u8) -> u8
    requires { n < 16 }
{
    if n < 10 { b'0' + n } else { b'a' + (n - 10) }
}

// A float by its bits, and a hyphen for no number.
pub(crate) fn float(to: &mut impl Write, x: f64) -> io::Result<()> {
    if x.is_nan() {
        return to.write_all(b" -");
    }
    number(to, x.to_bits())
}

// The refusal's number, and the value that it carries.
pub(crate) fn refused(to: &mut impl Write, why: Refusal) -> io::Result<()> {
    let told = why.numbered();
    named(to, b" refused", told.number)?;
    match told.value {
        Some(value) => number(to, value),
        None => Ok(()),
    }
}

// What is answered with a number, or refused.
pub(crate) fn answer(to: &mut impl Write, answer: Result<impl Integer, Refusal>) -> io::Result<()> {
    match answer {
        Ok(n) => number(to, n),
        Err(why) => refused(to, why),
    }
}
