// The numbers of the fields in the digits and hyphens that bytes begin with. That they are at most 17 is asked of the slice, by
// three functions that are one walk: a type with that fact would be made of the slice by both callers, and opened again in all three.
ghost use Rattle.std.specs.Prelude.{◌≡◌, true, [], ◌^◌, ◌≤◌, ◌<◌, length, get_or};
ghost use Rattle.division.specs.Words.{◌=?◌};
ghost use Rattle.reading.specs.Given.{is_digit, digits_from, field_from, IsScanned};

use arrayvec::ArrayVec;

// Digits that follow one another: the number that they end, and the place behind them.
#[derive(Clone, Copy)]
struct Run {
    value: u64,
    end: usize,
}

fn is_digit(b: u8) -> bool
    ensures { result ≡ is_digit b }
{
    b.is_ascii_digit()
}

fn has_hyphen(bytes: &[u8], at: usize) -> bool
    ensures { result ≡ (get_or bytes.now at 0 =? 45) }
{
    matches!(bytes.get(at), Some(b'-'))
}

// The digits from a place on, behind some that make the number `front`.
fn digits(bytes: &[u8], at: usize, front: u64) -> Run
    requires bytes_len_bound { length bytes.now ≤ 17 }
    requires at_in_bounds { at ≤ length bytes.now }
    requires front_bound { front < 10 ^ at }
    ensures { result ≡ digits_from bytes.now at front }
{
    let mut value = front;
    for i in at..bytes.len() {
        let b = bytes[i];
        if !is_digit(b) {
            return Run { value, end: i };
        }
        value = value * 10 + u64::from(b - b'0');
    }
    Run {
        value,
        end: bytes.len(),
    }
}

// The field of a first digit and the digits from a place on. One with a leading zero ends beyond any label.
fn field(bytes: &[u8], first: u8, at: usize) -> Run
    requires bytes_len_bound { length bytes.now ≤ 17 }
    requires le_at { 1 ≤ at }
    requires at_in_bounds { at ≤ length bytes.now }
    requires first_value { is_digit first ≡ true }
    ensures { result ≡ field_from bytes.now first at }
{
    let front = u64::from(first - b'0');
    let alone = Run {
        value: front,
        end: at,
    };
    if at == bytes.len() {
        return alone;
    }
    let b = bytes[at];
    if !is_digit(b) {
        return alone;
    }
    if first == b'0' {
        return Run { value: 0, end: 17 };
    }
    digits(bytes, at + 1, front * 10 + u64::from(b - b'0'))
}

// The numbers, the first number first, and the place behind them; nothing where those digits and hyphens are no well formed label. 16 bytes
// hold at most eight fields. One pass, field by field: a first digit, the digits behind it, a hyphen.
pub(crate) fn numbers_in(bytes: &[u8], numbers: &mut ArrayVec<u64, 8>) -> Option<usize>
    requires bytes_len_bound { length bytes.now ≤ 17 }
    requires none_yet { numbers.old.items ≡ [] }
    ensures { IsScanned bytes.now numbers.new.items result }
{
    let mut start: usize = 0; // by hand, since the step is a field's length, which no range has
    while start < bytes.len() {
        let first = bytes[start];
        if !is_digit(first) {
            return None;
        }
        let run = field(bytes, first, start + 1);
        if 16 < run.end {
            return None;
        }
        numbers.push(run.value);
        if !has_hyphen(bytes, run.end) {
            return Some(run.end);
        }
        start = run.end + 1;
    }
    None
}
