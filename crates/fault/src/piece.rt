// The piece before the first mark.
ghost use Rattle.std.specs.Prelude.{◌≡◌, cond, [], length, get_or};
ghost use Rattle.label.specs.Text.{split};

// A place of a block that has the mark; 64 for one that has not.
fn place_if(hit: bool, j: u8) -> u8
    ensures { result ≡ cond hit j 64 }
{
    if hit { j } else { 64 }
}

// Where the piece ends in a block of 64 bytes: at the least place that has the mark. All places are asked, and none decides whether the
// next is: so a compiled program asks many at a time.
fn block_end(block: &[u8], mark: u8) -> u8
    requires { length block.now ≡ 64 }
    ensures { result ≡ length (get_or (split mark block.now) 0 []) }
{
    let mut at: u8 = 64;
    for j in 0..64 {
        let x = place_if(block[usize::from(j)] == mark, j);
        at = x.min(at);
    }
    at
}

// Where it ends, sought byte by byte.
fn rest_end(rest: &[u8], mark: u8) -> usize
    ensures { result ≡ length (get_or (split mark rest.now) 0 []) }
{
    rest.iter().position(|&b| b == mark).unwrap_or(rest.len())
}

// Where it ends: at the first mark, or at the end of the bytes.
pub fn piece_end(bytes: &[u8], mark: u8) -> usize
    ensures { result ≡ length (get_or (split mark bytes.now) 0 []) }
{
    let mut i: usize = 0; // by hand, since the place of a block is the answer, and what is behind the last block begins there
    while 64 <= bytes.len() - i {
        let at = block_end(&bytes[i..i + 64], mark);
        if at < 64 {
            return i + usize::from(at);
        }
        i += 64;
    }
    i + rest_end(&bytes[i..], mark)
}
