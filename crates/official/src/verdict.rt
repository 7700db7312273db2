// What the list says of a catalogue line.
ghost use Rattle.std.specs.Prelude.{◌≡◌};
ghost use Rattle.refusal.specs.Numbers.{paper};
ghost use Rattle.official.specs.Verdict.{check_at, check_line};

use crate::list::name_of;
use crate::lookup::is_250000;
use catalogue::line::read_line;
use fault::piece::piece_end;
use names::same_name;
use refusal::Refusal;

// What is said of the name in a line.
#[derive(Clone, Copy)]
pub enum Verdict {
    Agrees,
    Differs,
    NotListed,
}

// Whether the name in a line is the official one of its sheet.
pub fn official_check(line: &[u8]) -> Result<Verdict, Refusal>
    ensures { paper result ≡ check_line line.now }
{
    let sheet = read_line(line)?;
    check_at(line, sheet)
}

fn check_at(line: &[u8], sheet: u32) -> Result<Verdict, Refusal>
    ensures { paper result ≡ check_at line.now sheet }
{
    if !is_250000(sheet) {
        return Err(Refusal::Not250000);
    }
    let Some(known) = name_of(sheet) else {
        return Ok(Verdict::NotListed);
    };
    let end = piece_end(line, b' ');
    if end == line.len() {
        return Ok(Verdict::Differs); // no name
    }
    if same_name(&line[end + 1..], known) {
        return Ok(Verdict::Agrees);
    }
    Ok(Verdict::Differs) // another name
}
