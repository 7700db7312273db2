// What is asked of names.
use crate::part::{before, behind};
use crate::read;
use names::same_name;
use std::io::{self, Write};

// Whether the first so many bytes and those behind them are the same name.
pub(crate) fn alike(to: &mut impl Write, s: &[u8]) -> io::Result<()> {
    let mut places = [0; read::BYTES];
    let bytes = read::bytes(s, &mut places);
    let cut = read::size(s, 1);
    if same_name(before(bytes, cut), behind(bytes, cut)) {
        to.write_all(b" same")
    } else {
        to.write_all(b" different")
    }
}
