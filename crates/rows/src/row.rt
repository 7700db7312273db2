// The row of a line: its number, then the sheet and its edges, or the refusal.
ghost use Rattle.std.specs.Prelude.{◌≡◌, [], ◌∷◌, ◌++◌, ℕ, ◌+◌, ◌/◌, ◌%◌, ◌≤◌, ◌<◌, length};
ghost use Rattle.refusal.specs.Paper.{answer, counted, room_after};
ghost use Rattle.refusal.specs.Numbers.{on_paper, paper};
ghost use Rattle.refusal.specs.Given.{Wrote};
ghost use Rattle.division.specs.Given.{Hundreds, InHundreds};
ghost use Rattle.label.specs.Text.{decimal};
ghost use Rattle.label.specs.Given.{Small};
ghost use Rattle.catalogue.specs.Line.{read_line};
ghost use Rattle.rows.specs.Row.{metres, frame_words, words, lay_row};
ghost use Rattle.rows.specs.Given.{spaced, pair, bytes_in};

use catalogue::line::read_ground;
use division::Edges;
use refusal::Refusal;

// Each of the functions that put something into room takes the room and a place, and gives the place behind it. A writer that holds both is
// proved as well, but a line's row then takes a quarter more instructions: each store has the next read the place again.

fn put_byte(b: u8, out: &mut [u8], at: usize) -> usize
    requires { at < length out.old }
    ensures { Wrote out.old at out.new result (b ∷ []) }
{
    out[at] = b;
    at + 1
}

fn put(bytes: &[u8], out: &mut [u8], at: usize) -> usize
    requires { at + length bytes.now ≤ length out.old }
    ensures { Wrote out.old at out.new result bytes.now }
{
    let end = at + bytes.len();
    out[at..end].copy_from_slice(bytes);
    end
}

// Two digits.
fn put_pair(v: u64, out: &mut [u8], at: usize) -> usize
    requires { Small 100 v 2 at (length out.old) }
    ensures { Wrote out.old at out.new result (pair v) }
{
    let tens = 48 + (v / 10) as u8;
    let ones = 48 + (v % 10) as u8;
    out[at] = tens;
    out[at + 1] = ones;
    at + 2
}

// The four digits of a number as the four bytes of one number, the first digit lowest. x has its hundreds and what is left of it, two bytes
// apart, and t the tens of both. 808_464_432 is 48 in each byte, x * 256 - t * 2_560 has the ones of both a byte up, and t the tens below.
fn four(n: u32) -> u32
    requires { n < 10_000 }
    ensures { bytes_in result ≡ pair (n / 100) ++ pair (n % 100) }
{
    let hi = n / 100;
    let lo = n % 100;
    let x = hi + lo * 65_536;
    let t = hi / 10 + lo / 10 * 65_536;
    808_464_432 + x * 256 - t * 2_559
}

// Four digits, of which the compiler makes one store.
fn put_four(v: u64, out: &mut [u8], at: usize) -> usize
    requires { Small 10_000 v 4 at (length out.old) }
    ensures { Wrote out.old at out.new result (pair (v / 100) ++ pair (v % 100)) }
{
    let w = four(v as u32);
    out[at] = (w % 256) as u8;
    out[at + 1] = (w / 256 % 256) as u8;
    out[at + 2] = (w / 65_536 % 256) as u8;
    out[at + 3] = (w / 16_777_216) as u8;
    at + 4
}

// A number of at most two digits, of at most four, and of at most eight. The last is for a sheet's number alone, so that the compiler can
// set it into its only caller.
fn put_two(v: u64, out: &mut [u8], at: usize) -> usize
    requires { Small 100 v (length (decimal v)) at (length out.old) }
    ensures { Wrote out.old at out.new result (decimal v) }
{
    if v < 10 {
        let digit = 48 + v as u8;
        return put_byte(digit, out, at);
    }
    put_pair(v, out, at)
}

fn put_short(v: u64, out: &mut [u8], at: usize) -> usize
    requires { Small 10_000 v (length (decimal v)) at (length out.old) }
    ensures { Wrote out.old at out.new result (decimal v) }
{
    if v < 100 {
        return put_two(v, out, at);
    }
    let a = put_two(v / 100, out, at);
    put_pair(v % 100, out, a)
}

fn put_long(v: u64, out: &mut [u8], at: usize) -> usize
    requires { Small 100_000_000 v (length (decimal v)) at (length out.old) }
    ensures { Wrote out.old at out.new result (decimal v) }
{
    if v < 10_000 {
        return put_short(v, out, at);
    }
    let a = put_short(v / 10_000, out, at);
    put_four(v % 10_000, out, a)
}

// A number in decimal: what stands before its last four digits, and these behind it.
fn put_any(n: u64, out: &mut [u8], at: usize) -> usize
    requires { at + length (decimal n) ≤ length out.old }
    ensures { Wrote out.old at out.new result (decimal n) }
{
    if n < 10_000 {
        return put_short(n, out, at);
    }
    let a = put_any(n / 10_000, out, at);
    put_four(n % 10_000, out, a)
}

// The same, for a line's number: one of five to eight digits, as in a long catalogue most are, is put with no call of a function that calls
// itself.
fn put_number(n: u64, out: &mut [u8], at: usize) -> usize
    requires { at + length (decimal n) ≤ length out.old }
    ensures { Wrote out.old at out.new result (decimal n) }
{
    if !(10_000..100_000_000).contains(&n) {
        return put_any(n, out, at);
    }
    let a = put_short(n / 10_000, out, at);
    put_four(n % 10_000, out, a)
}

// A number behind a space.
fn put_spaced(n: u64, out: &mut [u8], at: usize) -> usize
    requires { at + 1 + length (decimal n) ≤ length out.old }
    ensures { Wrote out.old at out.new result (32 ∷ decimal n) }
{
    let a = put_byte(b' ', out, at);
    put_any(n, out, a)
}

// So many hundred metres, in metres: four digits, and two zeros.
fn put_hundreds(h: u64, out: &mut [u8], at: usize) -> usize
    requires { Small 10_000 h 6 at (length out.old) }
    ensures { Wrote out.old at out.new result ((pair (h / 100) ++ pair (h % 100)) ++ pair 0) }
{
    let a = put_four(h, out, at);
    out[a] = b'0';
    out[a + 1] = b'0';
    a + 2
}

// An edge in whole metres, behind a space: six digits from the west to the east, and seven from the south to the north. Two functions, since the
// second is the first with a digit more in front of it, and other bounds.
fn put_six(x: i64, out: &mut [u8], at: usize) -> usize
    requires hundreds { Hundreds 2_000 8_000 x }
    requires at_in_bounds { at + 7 ≤ length out.old }
    ensures wrote { Wrote out.old at out.new result (32 ∷ metres x) }
    ensures value { result ≡ at + 7 }
{
    let h = x as u64 / 100_000;
    let a = put_byte(b' ', out, at);
    put_hundreds(h, out, a)
}

fn put_seven(x: i64, out: &mut [u8], at: usize) -> usize
    requires hundreds { Hundreds 45_700 51_700 x }
    requires at_in_bounds { at + 8 ≤ length out.old }
    ensures wrote { Wrote out.old at out.new result (32 ∷ metres x) }
    ensures value { result ≡ at + 8 }
{
    let h = x as u64 / 100_000;
    let a = put_byte(b' ', out, at);
    let first = 48 + (h / 10_000) as u8;
    let b = put_byte(first, out, a);
    put_hundreds(h % 10_000, out, b)
}

// West, east, south and north, each behind a space.
fn put_edges(e: Edges, out: &mut [u8], at: usize) -> usize
    requires in_hundreds { InHundreds e }
    requires at_in_bounds { at + 30 ≤ length out.old }
    ensures wrote { Wrote out.old at out.new result (spaced (frame_words e)) }
    ensures value { result ≡ at + 30 }
{
    let a = put_six(e.west, out, at);
    let b = put_six(e.east, out, a);
    let c = put_seven(e.south, out, b);
    put_seven(e.north, out, c)
}

// A sheet and its edges, each behind a space.
fn put_ground(sheet: u32, e: Edges, out: &mut [u8], at: usize) -> usize
    requires sheet_bound { sheet < 10_000_000 }
    requires in_hundreds { InHundreds e }
    requires at_in_bounds { at + 38 ≤ length out.old }
    ensures wrote { Wrote out.old at out.new result (spaced (decimal sheet ∷ frame_words e)) }
    ensures upper_bound { result ≤ at + 38 }
{
    let a = put_byte(b' ', out, at);
    let b = put_long(sheet as u64, out, a);
    put_edges(e, out, b)
}

// The word, the number, and the value where the refusal carries one, also where that is 0.
fn put_refusal(why: Refusal, out: &mut [u8], at: usize) -> usize
    requires { at + 40 ≤ length out.old }
    ensures wrote { Wrote out.old at out.new result (spaced (words (on_paper why))) }
    ensures upper_bound { result ≤ at + 40 }
{
    let told = why.numbered();
    let a = put(b" refused", out, at);
    let b = put_spaced(told.number as u64, out, a);
    match told.value {
        Some(value) => put_spaced(value as u64, out, b),
        None => b,
    }
}

// The rest of a row: the sheet and its edges, or the refusal, each word behind a space.
fn put_answer(line: &[u8], out: &mut [u8], at: usize) -> usize
    requires { at + 40 ≤ length out.old }
    ensures wrote { Wrote out.old at out.new result (spaced (words (read_line line.now))) }
    ensures upper_bound { result ≤ at + 40 }
{
    match read_ground(line) {
        Ok(front) => put_ground(front.sheet, front.corners, out, at),
        Err(why) => put_refusal(why, out, at),
    }
}

// Lays the row of a line into lent room, of which it asks for 64 bytes: enough for any row, and it has no more itself.
pub fn row(line: &[u8], number: u64, room: &mut [u8]) -> Result<usize, Refusal>
    ensures result_value { paper result ≡ counted (lay_row number line.now (length room.old)) }
    ensures room_after { room.new ≡ room_after (lay_row number line.now (length room.old)) room.old }
    ensures by_index { (n : ℕ) → paper result ≡ answer n → n ≤ 64 }
{
    if room.len() < 64 {
        return Err(Refusal::Room(64));
    }
    let a = put_number(number, room, 0);
    let b = put_answer(line, room, a);
    let end = put_byte(b'\n', room, b);
    Ok(end)
}
