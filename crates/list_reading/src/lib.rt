// Shelf lists to their sets (document 01, "Shelf list"; document 02, g): document 01's reader takes lists of sheets, and document 02's both
// kinds.
#![tactic(auto)]

ghost use Rattle.std.specs.Prelude.{◌≡◌, ◌+◌, ◌*◌, ◌^◌, ◌≤◌, ◌<◌, length, Err};
ghost use Rattle.shelf.specs.Number.{read_number};
ghost use Rattle.shelf.specs.Kind.{kind_of};
ghost use Rattle.shelf.specs.Reading.{entries_in, behind_in, each_as, read_list, read_holdings, room_after_read, IsRead};
ghost use Rattle.shelf.specs.Given.{number_paper, IsGroup, IsEntry, ends_with};

use holding::Task;
use refusal::Refusal;
use shelf::Read;
use shelf::kind::{Holdings, Kind, Sheets, counted};

// The first group of a number, and the bytes behind it.
fn first_group(bytes: &[u8]) -> Result<(u32, &[u8]), Refusal>
    ensures { IsGroup bytes.now result }
{
    match bytes {
        [] => Err(Refusal::EndsEarly),
        [group, rest @ ..] => Ok((u32::from(*group), rest)),
    }
}

// A number of this value that ends with this group behind others, and the bytes behind it: no group of zero stands there.
fn last_group(value: u32, group: u32, rest: &[u8]) -> Result<(u32, &[u8]), Refusal>
    ensures { number_paper result ≡ ends_with group value rest.now }
{
    if group == 0 {
        return Err(Refusal::BadNumber);
    }
    Ok((value, rest))
}

// The number at the front, and the bytes behind it, in one group, two, three or four: written out, since with a loop a short list takes a third
// longer to read.
fn next_number(bytes: &[u8]) -> Result<(u32, &[u8]), Refusal>
    ensures { number_paper result ≡ read_number bytes.now }
{
    let (a, rest) = first_group(bytes)?;
    if a < 128 {
        return Ok((a, rest));
    }
    let one = a - 128;
    let (b, rest) = first_group(rest)?;
    if b < 128 {
        return last_group(one + 128 * b, b, rest);
    }
    let two = one + 128 * (b - 128);
    let (c, rest) = first_group(rest)?;
    if c < 128 {
        return last_group(two + 16_384 * c, c, rest);
    }
    let three = two + 16_384 * (c - 128);
    let (d, rest) = first_group(rest)?;
    if 128 <= d {
        return Err(Refusal::BadNumber);
    }
    last_group(three + 2_097_152 * d, d, rest)
}

// The number of the first entry, of which this is the least, and the bytes behind it.
fn next_entry<K: Kind>(bytes: &[u8], least: u32) -> Result<(u32, &[u8]), Refusal>
    requires { least ≤ 2 ^ 28 }
    ensures { IsEntry (kind_of K.name) bytes.now least result }
{
    let (gap, rest) = next_number(bytes)?;
    let number = least + gap;
    K::judged(Task::Reading, number)?;
    Ok((number, rest))
}

// A reading that is refused, with so many numbers placed.
fn refused(why: Refusal, placed: usize) -> Read
    ensures { result ≡ record { ended = Err why; placed = placed } }
{
    Read {
        ended: Err(why),
        placed,
    }
}

// The entries of a list of so many numbers, each placed so many times itself.
fn read_entries<K: Kind>(times: u32, bytes: &[u8], count: usize, room: &mut [u32]) -> Read
    requires times_bound { times ≤ 3 }
    requires count_in_bounds { count ≤ length room.old }
    ensures read { IsRead (each_as (λ n. times * n) (entries_in (kind_of K.name) count 0 bytes.now)) result }
    ensures room_after { room.new ≡ room_after_read (each_as (λ n. times * n) (entries_in (kind_of K.name) count 0 bytes.now)) room.old }
{
    let mut rest = bytes;
    let mut least = 0;
    for i in 0..count {
        match next_entry::<K>(rest, least) {
            Err(why) => {
                return refused(why, i);
            }
            Ok((number, behind)) => {
                room[i] = times * number;
                least = number + 1;
                rest = behind;
            }
        }
    }
    if !rest.is_empty() {
        return refused(Refusal::MoreBytes, count);
    }
    Read {
        ended: Ok(()),
        placed: count,
    }
}

// A list of a kind behind its first number.
fn read_behind<K: Kind>(times: u32, first: u32, bytes: &[u8], room: &mut [u32]) -> Read
    requires { times ≤ 3 }
    ensures read { IsRead (each_as (λ n. times * n) (behind_in (kind_of K.name) (record { value = first; rest = bytes.now }) (length room.old))) result }
    ensures room_after { room.new ≡ room_after_read (each_as (λ n. times * n) (behind_in (kind_of K.name) (record { value = first; rest = bytes.now }) (length room.old))) room.old }
{
    match counted::<K>(first) {
        Err(why) => refused(why, 0),
        Ok(count) => {
            if room.len() < count {
                return refused(Refusal::Room(count), 0);
            }
            read_entries::<K>(times, bytes, count, room)
        }
    }
}

// Reads a list of sheets into lent room.
pub fn read_list(bytes: &[u8], room: &mut [u32]) -> Read
    ensures read { IsRead (read_list bytes.now (length room.old)) result }
    ensures room_after { room.new ≡ room_after_read (read_list bytes.now (length room.old)) room.old }
{
    match next_number(bytes) {
        Err(why) => refused(why, 0),
        Ok((first, rest)) => read_behind::<Sheets>(1, first, rest, room),
    }
}

// Reads a list of either kind into lent room, as holdings.
pub fn read_holdings(bytes: &[u8], room: &mut [u32]) -> Read
    ensures read { IsRead (read_holdings bytes.now (length room.old)) result }
    ensures room_after { room.new ≡ room_after_read (read_holdings bytes.now (length room.old)) room.old }
{
    match next_number(bytes) {
        Err(why) => refused(why, 0),
        Ok((first, rest)) => {
            if first < 8_192 {
                return read_behind::<Sheets>(3, first, rest, room);
            }
            read_behind::<Holdings>(1, first, rest, room)
        }
    }
}
