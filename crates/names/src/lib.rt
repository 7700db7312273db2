// When two names are the same (document 02, c): when their bytes are equal after each of eight letters that is typed with its mark behind
// it is joined into the single letter.
#![tactic(auto)]

ghost use Rattle.std.specs.Prelude.{◌≡◌};
ghost use Rattle.names.specs.Name.{single, SameName};
ghost use Rattle.names.specs.Given.{letter_in, pair_in, is_apart, Tells};

// The single letter of a letter with a mark behind it, CC and another byte, if the two are joined: its two bytes.
#[tactic(auto, unfolding(crate::specs::Name::table, crate::specs::Name::single_in))]
fn with_mark(letter: u8, second: u8) -> Option<(u8, u8)>
    ensures { result ≡ single letter 0xCC second }
{
    match (second, letter) {
        (0x8C, b'c') => Some((0xC4, 0x8D)),
        (0x8C, b's') => Some((0xC5, 0xA1)),
        (0x8C, b'z') => Some((0xC5, 0xBE)),
        (0x8C, b'C') => Some((0xC4, 0x8C)),
        (0x8C, b'S') => Some((0xC5, 0xA0)),
        (0x8C, b'Z') => Some((0xC5, 0xBD)),
        (0x81, b'c') => Some((0xC4, 0x87)),
        (0x81, b'C') => Some((0xC4, 0x86)),
        _ => None,
    }
}

// That of the first three bytes.
#[tactic(auto, unfolding(crate::specs::Name::table, crate::specs::Name::single_in))]
fn letter_in(name: &[u8]) -> Option<(u8, u8)>
    ensures { result ≡ letter_in name.now }
{
    match name {
        [letter, 0xCC, second, ..] => with_mark(*letter, *second),
        _ => None,
    }
}

// The first two bytes, if there are two.
fn pair_in(name: &[u8]) -> Option<(u8, u8)>
    ensures { result ≡ pair_in name.now }
{
    match name {
        [first, second, ..] => Some((*first, *second)),
        _ => None,
    }
}

// Whether the first name begins with a letter and its mark, and the second with the single letter.
fn is_apart(a: &[u8], b: &[u8]) -> bool
    ensures { result ≡ is_apart a.now b.now }
{
    let Some(letter) = letter_in(a) else {
        return false;
    };
    match pair_in(b) {
        Some(pair) => letter == pair,
        None => false,
    }
}

// Whether two names are the same. Bytes that agree are passed, whatever they are part of; where two differ, one name must have a letter with
// its mark there, and the other the single letter.
pub fn same_name(a: &[u8], b: &[u8]) -> bool
    ensures { Tells result (SameName a.now b.now) }
{
    // two places by hand, since the names advance by different steps
    let mut i: usize = 0;
    let mut j: usize = 0;
    while i < a.len() {
        if j >= b.len() {
            return false;
        }
        if a[i] == b[j] {
            i += 1;
            j += 1;
        } else if is_apart(&a[i..], &b[j..]) {
            i += 3;
            j += 2;
        } else if is_apart(&b[j..], &a[i..]) {
            i += 2;
            j += 3;
        } else {
            return false;
        }
    }
    if j < b.len() {
        return false;
    }
    true
}
