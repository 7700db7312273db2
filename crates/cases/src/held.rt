// What is asked of a sheet with a product.
use crate::read::small;
use crate::write;
use holding::{holding, holding_parts};
use std::io::{self, Write};

pub(crate) fn together(to: &mut impl Write, s: &[u8]) -> io::Result<()> {
    write::answer(to, holding(small(s, 1), small(s, 2)))
}

pub(crate) fn apart(to: &mut impl Write, s: &[u8]) -> io::Result<()> {
    match holding_parts(small(s, 1)) {
        Ok(parts) => write::numbers(to, [parts.sheet, parts.product]),
        Err(why) => write::refused(to, why),
    }
}
