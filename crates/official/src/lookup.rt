// Sheet to name, and name to sheet.
ghost use Rattle.std.specs.Prelude.{◌≡◌, length};
ghost use Rattle.refusal.specs.Paper.{room_after};
ghost use Rattle.refusal.specs.Numbers.{paper};
ghost use Rattle.official.specs.Lookup.{sheet_called, is250000, write_name, name_told};

use crate::list::{entries, name_of};
use division::sheet::is_sheet;
use division::table::Scale;
use names::same_name;
use refusal::{Refusal, lay};

pub(crate) fn is_250000(sheet: u32) -> bool
    ensures { result ≡ is250000 sheet }
{
    Scale::of(sheet).0 == 1
}

// Writes the official name of a sheet into lent room: so many bytes, from its first place on, or none where it is not listed.
pub fn official_name(sheet: u32, room: &mut [u8]) -> Result<Option<usize>, Refusal>
    ensures result_value { paper result ≡ name_told sheet (length room.old) }
    ensures room_after { room.new ≡ room_after (write_name sheet (length room.old)) room.old }
{
    if !is_sheet(sheet) {
        return Err(Refusal::NoSheet);
    }
    if !is_250000(sheet) {
        return Err(Refusal::Not250000);
    }
    let Some(name) = name_of(sheet) else {
        return Ok(None);
    };
    let len = lay(name, room)?;
    Ok(Some(len))
}

// The sheet that has a name, however it is typed, if one has it.
pub fn official_sheet(name: &[u8]) -> Option<u32>
    ensures { result ≡ sheet_called name.now }
{
    for entry in &entries() {
        if same_name(name, entry.name) {
            return Some(entry.sheet);
        }
    }
    None
}
