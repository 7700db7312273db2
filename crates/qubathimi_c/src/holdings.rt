// Holdings and their lists.
ghost use Rattle.std.specs.Prelude.{◌≡◌, length};
ghost use Rattle.refusal.specs.Paper.{counted, room_after};
ghost use Rattle.holding.specs.Holding.{holding, parts_of};
ghost use Rattle.shelf.specs.Writing.{holdings_length, write_holdings};
ghost use Rattle.shelf.specs.Reading.{read_holdings, room_after_read};
ghost use Rattle.telling.specs.Told.{status, carried, written};
ghost use Rattle.telling.specs.Plain.{read_count};

use holding::{holding, holding_parts};
use list_reading::read_holdings;
use list_writing::{holdings_length, write_holdings};
use telling::lists::tell_read;
use telling::number::tell;
use telling::several::tell_parts;

#[unsafe(no_mangle)]
pub extern "C" fn qubathimi_holding(sheet: u32, product: u32, value: &mut u64) -> u32
    ensures value { result ≡ status (holding sheet product) }
    ensures value_after { value.new ≡ carried (holding sheet product) }
{
    tell(holding(sheet, product), value)
}

#[unsafe(no_mangle)]
pub extern "C" fn qubathimi_holding_parts(holding: u32, sheet: &mut u32, product: &mut u32) -> u32
    ensures value { result ≡ status (parts_of holding) }
    ensures sheet_after { sheet.new ≡ written (λ parts. parts.sheet) (parts_of holding) sheet.old }
    ensures product_after { product.new ≡ written (λ parts. parts.product) (parts_of holding) product.old }
{
    tell_parts(holding_parts(holding), sheet, product)
}

#[unsafe(no_mangle)]
pub extern "C" fn qubathimi_holdings_length(holdings: &[u32], value: &mut u64) -> u32
    ensures value { result ≡ status (holdings_length holdings.now) }
    ensures value_after { value.new ≡ carried (holdings_length holdings.now) }
{
    tell(holdings_length(holdings), value)
}

#[unsafe(no_mangle)]
pub extern "C" fn qubathimi_write_holdings(
    holdings: &[u32],
    room: &mut [u8],
    value: &mut u64,
) -> u32
    ensures value { result ≡ status (write_holdings holdings.now (length room.old)) }
    ensures value_after { value.new ≡ carried (counted (write_holdings holdings.now (length room.old))) }
    ensures room_after { room.new ≡ room_after (write_holdings holdings.now (length room.old)) room.old }
{
    tell(write_holdings(holdings, room), value)
}

#[unsafe(no_mangle)]
pub extern "C" fn qubathimi_read_holdings(
    list: &[u8],
    room: &mut [u32],
    placed: &mut u64,
    value: &mut u64,
) -> u32
    ensures value { result ≡ status (read_holdings list.now (length room.old)).ended }
    ensures placed_after { placed.new ≡ length (read_holdings list.now (length room.old)).placed }
    ensures value_after { value.new ≡ carried (read_count (read_holdings list.now (length room.old))) }
    ensures room_after { room.new ≡ room_after_read (read_holdings list.now (length room.old)) room.old }
{
    tell_read(read_holdings(list, room), placed, value)
}
