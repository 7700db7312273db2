// Official names.
ghost use Rattle.std.specs.Prelude.{◌≡◌, length};
ghost use Rattle.refusal.specs.Paper.{room_after};
ghost use Rattle.official.specs.Lookup.{sheet_called, write_name, name_told};
ghost use Rattle.official.specs.Verdict.{check_line};
ghost use Rattle.telling.specs.Told.{status, carried};
ghost use Rattle.telling.specs.Plain.{byte_count, sheet_or_none, verdict_number};

use official::lookup::{official_name, official_sheet};
use official::verdict::official_check;
use telling::known::tell_listed;
use telling::number::tell;

#[unsafe(no_mangle)]
#[tactic(auto, using(telling::proofs::TellLaws::told_through))]
pub extern "C" fn qubathimi_official_name(sheet: u32, room: &mut [u8], value: &mut u64) -> u32
    ensures value { result ≡ status (name_told sheet (length room.old)) }
    ensures value_after { value.new ≡ carried (byte_count (name_told sheet (length room.old))) }
    ensures room_after { room.new ≡ room_after (write_name sheet (length room.old)) room.old }
{
    tell(official_name(sheet, room), value)
}

#[unsafe(no_mangle)]
pub extern "C" fn qubathimi_official_sheet(name: &[u8], value: &mut u64) -> u32
    ensures value { result ≡ 0 }
    ensures value_after { value.new ≡ sheet_or_none (sheet_called name.now) }
{
    tell_listed(official_sheet(name), value);
    0
}

#[unsafe(no_mangle)]
#[tactic(auto, using(telling::proofs::TellLaws::told_through))]
pub extern "C" fn qubathimi_official_check(line: &[u8], value: &mut u64) -> u32
    ensures value { result ≡ status (check_line line.now) }
    ensures value_after { value.new ≡ carried (verdict_number (check_line line.now)) }
{
    tell(official_check(line), value)
}
