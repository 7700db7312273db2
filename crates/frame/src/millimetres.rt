// Whole millimetres from a float's own bits: the sign (the highest), eleven of the exponent, and the mantissa's fifty-two.
//
// A float that is a number is its mantissa, below 2^53, times a power of two: 2^(exponent - 1 075) metres, where an exponent of 0 counts as 1.
// The mantissa's thousandfold fits 63 bits, and shifted right by 1 075 less the exponent it is millimetres. From 1 076 on, which is 2^53
// metres, it would have to be shifted left, where 64 bits soon end; no such value is near the area.
ghost use Rattle.std.specs.Prelude.{◌≡◌, true, ◌*◌, ◌≤◌};
ghost use Rattle.refusal.specs.Paper.{answer, is_answer};
ghost use Rattle.frame.specs.Exact.{signed, exactly, downward, upward};
ghost use Rattle.frame.specs.Given.{is_minus, exponent_in, mantissa_in, places_in, in_reach, InReach};

fn exponent(bits: u64) -> u64
    ensures { result ≡ exponent_in bits }
{
    bits % 0x8000_0000_0000_0000 / 0x10_0000_0000_0000
}

// The floats nearest to 0 have no leading one.
fn mantissa(bits: u64) -> u64
    ensures { result ≡ mantissa_in bits }
{
    let rest = bits % 0x10_0000_0000_0000;
    if exponent(bits) == 0 {
        return rest;
    }
    0x10_0000_0000_0000 + rest
}

// The mantissa's thousandfold, with the sign.
fn thousandfold(bits: u64) -> i64
    ensures { result ≡ signed (is_minus bits) (mantissa_in bits * 1_000) }
{
    let size = (mantissa(bits) * 1_000) as i64;
    if bits >= 0x8000_0000_0000_0000 {
        return -size;
    }
    size
}

// How many places are behind the point; after 63 none is left in front of it.
fn places(bits: u64) -> u64
    requires { exponent_in bits ≤ 1_075 }
    ensures { result ≡ places_in bits }
{
    let field = exponent(bits);
    if field <= 1_012 {
        return 63;
    }
    1_075 - field
}

// Neither infinite nor no number.
#[tactic(auto, using(crate::proofs::BitLaws::finite_told))]
pub(crate) fn is_number(x: f64) -> bool
    ensures { result ≡ is_answer (exactly x) }
{
    x.is_finite()
}

// Below 2^53 metres in size.
pub(crate) fn in_reach(x: f64) -> bool
    requires { is_answer (exactly x) ≡ true }
    ensures { result ≡ in_reach x }
{
    exponent(x.to_bits()) <= 1_075
}

// Down to a whole millimetre, and up, each by what the two have in common. A shift of a signed number rounds down.
pub(crate) fn down(x: f64) -> i64
    requires { InReach x }
    ensures { answer result ≡ downward x }
{
    let bits = x.to_bits();
    thousandfold(bits) >> places(bits)
}

pub(crate) fn up(x: f64) -> i64
    requires { InReach x }
    ensures { answer result ≡ upward x }
{
    let bits = x.to_bits();
    -(-thousandfold(bits) >> places(bits))
}
