// Shelf lists.
ghost use Rattle.std.specs.Prelude.{◌≡◌, length};
ghost use Rattle.refusal.specs.Paper.{counted, room_after};
ghost use Rattle.shelf.specs.Writing.{list_length, write_list};
ghost use Rattle.shelf.specs.Reading.{read_list, room_after_read};
ghost use Rattle.telling.specs.Told.{status, carried};
ghost use Rattle.telling.specs.Plain.{read_count};

use list_reading::read_list;
use list_writing::{list_length, write_list};
use telling::lists::tell_read;
use telling::number::tell;

#[unsafe(no_mangle)]
pub extern "C" fn qubathimi_list_length(sheets: &[u32], value: &mut u64) -> u32
    ensures value { result ≡ status (list_length sheets.now) }
    ensures value_after { value.new ≡ carried (list_length sheets.now) }
{
    tell(list_length(sheets), value)
}

#[unsafe(no_mangle)]
pub extern "C" fn qubathimi_write_list(sheets: &[u32], room: &mut [u8], value: &mut u64) -> u32
    ensures value { result ≡ status (write_list sheets.now (length room.old)) }
    ensures value_after { value.new ≡ carried (counted (write_list sheets.now (length room.old))) }
    ensures room_after { room.new ≡ room_after (write_list sheets.now (length room.old)) room.old }
{
    tell(write_list(sheets, room), value)
}

#[unsafe(no_mangle)]
pub extern "C" fn qubathimi_read_list(
    list: &[u8],
    room: &mut [u32],
    placed: &mut u64,
    value: &mut u64,
) -> u32
    ensures value { result ≡ status (read_list list.now (length room.old)).ended }
    ensures placed_after { placed.new ≡ length (read_list list.now (length room.old)).placed }
    ensures value_after { value.new ≡ carried (read_count (read_list list.now (length room.old))) }
    ensures room_after { room.new ≡ room_after_read (read_list list.now (length room.old)) room.old }
{
    tell_read(read_list(list, room), placed, value)
}
