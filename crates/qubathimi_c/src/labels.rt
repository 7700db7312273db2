// Labels.
ghost use Rattle.std.specs.Prelude.{◌≡◌, length};
ghost use Rattle.refusal.specs.Paper.{counted, room_after};
ghost use Rattle.label.specs.Label.{read_label, write_label, label_length};
ghost use Rattle.telling.specs.Told.{status, carried};

use labelling::writing::{label_length, write_label};
use reading::labels::read_label;
use telling::number::tell;

#[unsafe(no_mangle)]
pub extern "C" fn qubathimi_read_label(label: &[u8], value: &mut u64) -> u32
    ensures value { result ≡ status (read_label label.now) }
    ensures value_after { value.new ≡ carried (read_label label.now) }
{
    tell(read_label(label), value)
}

#[unsafe(no_mangle)]
pub extern "C" fn qubathimi_label_length(sheet: u32, value: &mut u64) -> u32
    ensures value { result ≡ status (label_length sheet) }
    ensures value_after { value.new ≡ carried (label_length sheet) }
{
    tell(label_length(sheet), value)
}

#[unsafe(no_mangle)]
pub extern "C" fn qubathimi_write_label(sheet: u32, room: &mut [u8], value: &mut u64) -> u32
    ensures value { result ≡ status (write_label sheet (length room.old)) }
    ensures value_after { value.new ≡ carried (counted (write_label sheet (length room.old))) }
    ensures room_after { room.new ≡ room_after (write_label sheet (length room.old)) room.old }
{
    tell(write_label(sheet, room), value)
}
