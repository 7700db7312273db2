// Parent, child, step, offset, neighbours and covers.
ghost use Rattle.std.specs.Prelude.{◌≡◌, ◌+◌, ◌≤◌, length};
ghost use Rattle.std.proofs.lemmas.List.Edits.{sets};
ghost use Rattle.refusal.specs.Paper.{counted, room_after};
ghost use Rattle.refusal.specs.Numbers.{paper};
ghost use Rattle.relations.specs.Relations.{parent, child, step, offset};
ghost use Rattle.division.specs.Cover.{cover};
ghost use Rattle.telling.specs.Told.{status, carried, written};
ghost use Rattle.qubathimi_c.specs.Plain.{window, marks, neighbours_in};

use division::Edges;
use division::cover::cover;
use refusal::Refusal;
use relations::kin::{child, neighbours, offset, parent, step};
use telling::marks::mark;
use telling::number::tell;
use telling::several::tell_offset;

#[unsafe(no_mangle)]
pub extern "C" fn qubathimi_parent(sheet: u32, value: &mut u64) -> u32
    ensures value { result ≡ status (parent sheet) }
    ensures value_after { value.new ≡ carried (parent sheet) }
{
    tell(parent(sheet), value)
}

#[unsafe(no_mangle)]
pub extern "C" fn qubathimi_child(sheet: u32, scale: u32, number: u32, value: &mut u64) -> u32
    ensures value { result ≡ status (child sheet scale number) }
    ensures value_after { value.new ≡ carried (child sheet scale number) }
{
    tell(child(sheet, scale, number), value)
}

#[unsafe(no_mangle)]
pub extern "C" fn qubathimi_step(sheet: u32, east: i64, south: i64, value: &mut u64) -> u32
    ensures value { result ≡ status (step sheet east south) }
    ensures value_after { value.new ≡ carried (step sheet east south) }
{
    tell(step(sheet, east, south), value)
}

#[unsafe(no_mangle)]
pub extern "C" fn qubathimi_offset(a: u32, b: u32, east: &mut i64, south: &mut i64) -> u32
    ensures value { result ≡ status (offset a b) }
    ensures east_after { east.new ≡ written (λ by. by.east) (offset a b) east.old }
    ensures south_after { south.new ≡ written (λ by. by.south) (offset a b) south.old }
{
    tell_offset(offset(a, b), east, south)
}

// Writes a row of three places, from `at` on.
fn put_row(places: [Option<u32>; 3], room: &mut [u32], at: usize)
    requires { at + 3 ≤ length room.old }
    ensures { room.new ≡ sets room.old at (marks places) }
{
    let [west, here, east] = places;
    room[at] = mark(west);
    room[at + 1] = mark(here);
    room[at + 2] = mark(east);
}

// Lays the block of neighbours into lent room, where it fits.
fn put_neighbours(sheet: u32, room: &mut [u32]) -> Result<usize, Refusal>
    ensures result_value { paper result ≡ counted (neighbours_in sheet (length room.old)) }
    ensures room_after { room.new ≡ room_after (neighbours_in sheet (length room.old)) room.old }
{
    if room.len() < 9 {
        return Err(Refusal::Room(9));
    }
    let [north, here, south] = neighbours(sheet);
    put_row(north, room, 0);
    put_row(here, room, 3);
    put_row(south, room, 6);
    Ok(9)
}

#[unsafe(no_mangle)]
pub extern "C" fn qubathimi_neighbours(sheet: u32, room: &mut [u32], value: &mut u64) -> u32
    ensures value { result ≡ status (neighbours_in sheet (length room.old)) }
    ensures value_after { value.new ≡ carried (counted (neighbours_in sheet (length room.old))) }
    ensures room_after { room.new ≡ room_after (neighbours_in sheet (length room.old)) room.old }
{
    tell(put_neighbours(sheet, room), value)
}

#[unsafe(no_mangle)]
pub extern "C" fn qubathimi_cover(
    scale: u32,
    west: i64,
    east: i64,
    south: i64,
    north: i64,
    room: &mut [u32],
    value: &mut u64,
) -> u32
    ensures value { result ≡ status (cover scale (window west east south north) (length room.old)) }
    ensures value_after { value.new ≡ carried (counted (cover scale (window west east south north) (length room.old))) }
    ensures room_after { room.new ≡ room_after (cover scale (window west east south north) (length room.old)) room.old }
{
    let seen = Edges {
        west,
        east,
        south,
        north,
    };
    tell(cover(scale, seen, room), value)
}
