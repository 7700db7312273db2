// Places in a label, counted from 0.
ghost use Rattle.std.specs.Prelude.{◌≡◌};
ghost use Rattle.label.specs.Text.{first_not, split};
ghost use Rattle.label.specs.Label.{is_label_byte, is_field, start_of};

use crate::piece::piece_end;

// Where the first byte stands that is neither digit nor hyphen; behind the last where all are.
pub fn strange_byte(bytes: &[u8]) -> usize
    ensures { result ≡ first_not is_label_byte bytes.now }
{
    bytes
        .iter()
        .position(|&b| !b.is_ascii_digit() && b != b'-')
        .unwrap_or(bytes.len())
}

fn is_field(bytes: &[u8]) -> bool
    ensures { result ≡ is_field bytes.now }
{
    !matches!(bytes, [] | [b'0', _, ..])
}

// Where the first field begins that is empty or has a leading zero; one behind the label's end where none is so.
pub fn faulty_field(bytes: &[u8]) -> usize
    ensures { result ≡ start_of (first_not is_field (split 45 bytes.now)) (split 45 bytes.now) }
{
    let mut start: usize = 0; // by hand, since the step is a field's length, which no range has
    while start <= bytes.len() {
        let end = start + piece_end(&bytes[start..], b'-');
        if !is_field(&bytes[start..end]) {
            return start;
        }
        start = end + 1;
    }
    start
}

// Where a field begins, the fields counted from 0; one behind the label's end where there are not so many.
pub fn field_start(bytes: &[u8], k: usize) -> usize
    ensures { result ≡ start_of k (split 45 bytes.now) }
{
    let mut start: usize = 0;
    for _ in 0..k {
        if bytes.len() < start {
            return start;
        }
        start += piece_end(&bytes[start..], b'-') + 1;
    }
    start // behind so many fields and their hyphens
}
