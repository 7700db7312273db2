// The sheet or refusal of a line.
ghost use Rattle.std.specs.Prelude.{◌≡◌, min, length};
ghost use Rattle.refusal.specs.Numbers.{paper};
ghost use Rattle.label.specs.Text.{every};
ghost use Rattle.catalogue.specs.Line.{label_in, is_name_byte, is_name, with_name, read_line};
ghost use Rattle.catalogue.specs.Ground.{read_ground};

use division::table::Scale;
use fault::piece::piece_end;
use reading::Front;
use reading::at_front::read_front;
use reading::labels::read_label;
use refusal::Refusal;

// Where a line's label ends: at its first space, or at the line's end. No label has 17 bytes, so the search ends there.
pub(crate) fn label_end(line: &[u8]) -> usize
    ensures { result ≡ min 17 (length (label_in line.now)) }
{
    piece_end(&line[..line.len().min(17)], b' ')
}

fn all_name_bytes(name: &[u8]) -> bool
    ensures { result ≡ every is_name_byte name.now }
{
    name.iter().all(|&b| 32 <= b && b != 127)
}

#[tactic(auto, unfolding(crate::specs::Line::is_name))]
fn is_name(name: &[u8]) -> bool
    ensures { result ≡ is_name name.now }
{
    let n = name.len();
    (1..=48).contains(&n) && all_name_bytes(name) && name[0] != b' ' && name[n - 1] != b' '
}

// A sheet with a name behind its label. The sheets of scales 1 to 6 are those before the seventh's first, and a number that is no sheet has
// no scale. Both tests stand before the refusals, which keep the paper's order: 17, then 16.
fn with_name(sheet: u32, name: &[u8]) -> Result<u32, Refusal>
    ensures { paper result ≡ with_name name.now sheet }
{
    let scaled = (sheet < Scale(7).first()) | (Scale::LAST_SHEET < sheet);
    let formed = is_name(name);
    if !scaled {
        return Err(Refusal::NameScale);
    }
    if !formed {
        return Err(Refusal::NameForm);
    }
    Ok(sheet)
}

// The sheet of a line.
pub fn read_line(line: &[u8]) -> Result<u32, Refusal>
    ensures { paper result ≡ read_line line.now }
{
    let end = label_end(line);
    let sheet = read_label(&line[..end])?;
    if end == line.len() {
        return Ok(sheet);
    }
    with_name(sheet, &line[end + 1..])
}

// The sheet of a line with its corners, which the label's fields tell: whoever wants both need not take the sheet's number apart again.
pub fn read_ground(line: &[u8]) -> Result<Front, Refusal>
    ensures { paper result ≡ read_ground line.now }
{
    let front = read_front(line)?;
    if front.end == line.len() {
        return Ok(front);
    }
    with_name(front.sheet, &line[front.end + 1..])?;
    Ok(front)
}
