// The lines of the input, and the kinds of question.
use crate::{held, known, labels, lists, locals, metres, sheets, spelt, supplied};
use shelf::kind::{Holdings, Sheets};
use std::io::{self, Write};

pub(crate) fn lines(to: &mut impl Write, text: &[u8]) -> io::Result<()> {
    for whole in text.split_inclusive(|&b| b == b'\n') {
        // what no line's end closes is no question
        if let Some(s) = whole.strip_suffix(b"\n") {
            to.write_all(s)?;
            to.write_all(b":")?;
            answer(to, s)?;
            to.write_all(b"\n")?;
        }
    }
    Ok(())
}

// The kind is the first letter of the question's word; a capital, of lists, is the same question of holdings.
fn answer(to: &mut impl Write, s: &[u8]) -> io::Result<()> {
    match s.first() {
        Some(b't') => sheets::table(to, s),
        Some(b'n') => sheets::number(to, s),
        Some(b'a') => sheets::at(to, s),
        Some(b'o') => sheets::on(to, s),
        Some(b'd') => sheets::down(to, s),
        Some(b's') => sheets::step(to, s),
        Some(b'f') => sheets::from(to, s),
        Some(b'c') => sheets::cover(to, s),
        Some(b'l') => labels::label(to, s),
        Some(b'w') => labels::lent(to, s),
        Some(b'e') => labels::every(to, s),
        Some(b'g') => lists::groups(to, s),
        Some(b'p') => lists::pack::<Sheets>(to, s),
        Some(b'r') => lists::rule::<Sheets>(to, s),
        Some(b'b') => lists::bytes::<Sheets>(to, s),
        Some(b'h') => lists::heads::<Sheets>(to, s),
        Some(b'v') => lists::vary::<Sheets>(to, s),
        Some(b'm') => lists::many(to, s),
        Some(b'q') => metres::quad(to, s),
        Some(b'u') => metres::under(to, s),
        Some(b'j') => spelt::alike(to, s),
        Some(b'k') => known::known(to, s),
        Some(b'i') => known::identify(to, s),
        Some(b'y') => known::yours(to, s),
        Some(b'L') => locals::local(to, s),
        Some(b'M') => locals::municipality(to, s),
        Some(b'D') => supplied::deliver(to, s),
        Some(b'S') => supplied::supply(to, s),
        Some(b'T') => held::together(to, s),
        Some(b'A') => held::apart(to, s),
        Some(b'P') => lists::pack::<Holdings>(to, s),
        Some(b'R') => lists::rule::<Holdings>(to, s),
        Some(b'B') => lists::bytes::<Holdings>(to, s),
        Some(b'H') => lists::heads::<Holdings>(to, s),
        Some(b'V') => lists::vary::<Holdings>(to, s),
        _ => to.write_all(b" no such question"),
    }
}
