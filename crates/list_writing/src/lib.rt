// Sets to their shelf lists (document 01, "Shelf list"; document 02, g), of sheets and of holdings.
#![tactic(auto)]

ghost use Rattle.std.specs.Prelude.{◌≡◌, ◌+◌, ◌≤◌, length};
ghost use Rattle.std.proofs.lemmas.List.Edits.{sets};
ghost use Rattle.refusal.specs.Paper.{answer, counted, room_after};
ghost use Rattle.refusal.specs.Numbers.{paper};
ghost use Rattle.shelf.specs.Number.{groups_of, number_bytes};
ghost use Rattle.shelf.specs.Kind.{kind_of};
ghost use Rattle.shelf.specs.Writing.{bytes_in, set_in, length_in, write_in, write_list, list_length, write_holdings, holdings_length};

use holding::Task;
use refusal::Refusal;
use shelf::kind::{Holdings, Kind, Sheets};
use shelf::number::groups;

// Writes a number at a place, and returns the place behind it. The room is handed on whole, with the place, since the laws of what is written
// are about places in it: a part of it that shrinks was no plainer.
fn put_number(x: u32, room: &mut [u8], at: usize) -> usize
    requires { at + groups_of x ≤ length room.old }
    ensures value { result ≡ at + groups_of x }
    ensures room_after { room.new ≡ sets room.old at (number_bytes x) }
{
    // by hand, since how many groups there are is known only with the last
    let mut left = x;
    let mut i = at;
    while 128 <= left {
        room[i] = (128 + left % 128) as u8;
        left /= 128;
        i += 1;
    }
    room[i] = left as u8;
    i + 1
}

// How many bytes the list of so few numbers has, or the refusal of the first faulty place.
fn measured<K: Kind>(numbers: &[u32]) -> Result<usize, Refusal>
    requires { length numbers.now ≤ 4_096 }
    ensures { paper result ≡ length_in (kind_of K.name) numbers.now }
{
    let mut long = groups(K::begins(numbers.len() as u16));
    let mut least = 0;
    for &number in numbers {
        K::judged(Task::Writing, number)?;
        if number < least {
            return Err(Refusal::NotRising);
        }
        long += groups(number - least);
        least = number + 1;
    }
    Ok(long)
}

// How many bytes the list of a set has.
fn length_in<K: Kind>(numbers: &[u32]) -> Result<usize, Refusal>
    ensures { paper result ≡ length_in (kind_of K.name) numbers.now }
{
    if 4_096 < numbers.len() {
        return Err(Refusal::TooMany);
    }
    measured::<K>(numbers)
}

// Writes the list of a set, for which there is room.
fn put_list<K: Kind>(numbers: &[u32], room: &mut [u8])
    requires numbers_value { set_in (kind_of K.name) numbers.now ≡ answer tt }
    requires numbers_in_bounds { length (bytes_in (kind_of K.name) numbers.now) ≤ length room.old }
    ensures { room.new ≡ sets room.old 0 (bytes_in (kind_of K.name) numbers.now) }
{
    let mut at = put_number(K::begins(numbers.len() as u16), room, 0);
    let mut next = 0;
    for &number in numbers {
        at = put_number(number - next, room, at);
        next = number + 1;
    }
}

// Writes the list of a set into lent room.
fn write_in<K: Kind>(numbers: &[u32], room: &mut [u8]) -> Result<usize, Refusal>
    ensures result_value { paper result ≡ counted (write_in (kind_of K.name) numbers.now (length room.old)) }
    ensures room_after { room.new ≡ room_after (write_in (kind_of K.name) numbers.now (length room.old)) room.old }
{
    let long = length_in::<K>(numbers)?;
    if room.len() < long {
        return Err(Refusal::Room(long));
    }
    put_list::<K>(numbers, room);
    Ok(long)
}

// How many bytes the list of a set of sheets has.
pub fn list_length(sheets: &[u32]) -> Result<usize, Refusal>
    ensures { paper result ≡ list_length sheets.now }
{
    length_in::<Sheets>(sheets)
}

// Writes the list of a set of sheets into lent room.
pub fn write_list(sheets: &[u32], room: &mut [u8]) -> Result<usize, Refusal>
    ensures result_value { paper result ≡ counted (write_list sheets.now (length room.old)) }
    ensures room_after { room.new ≡ room_after (write_list sheets.now (length room.old)) room.old }
{
    write_in::<Sheets>(sheets, room)
}

// How many bytes the list of a set of holdings has.
pub fn holdings_length(holdings: &[u32]) -> Result<usize, Refusal>
    ensures { paper result ≡ holdings_length holdings.now }
{
    length_in::<Holdings>(holdings)
}

// Writes the list of a set of holdings into lent room.
pub fn write_holdings(holdings: &[u32], room: &mut [u8]) -> Result<usize, Refusal>
    ensures result_value { paper result ≡ counted (write_holdings holdings.now (length room.old)) }
    ensures room_after { room.new ≡ room_after (write_holdings holdings.now (length room.old)) room.old }
{
    write_in::<Holdings>(holdings, room)
}
