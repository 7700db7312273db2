// What the readers of lists answer.
ghost use Rattle.std.specs.Prelude.{◌≡◌};
ghost use Rattle.refusal.specs.Numbers.{paper};
ghost use Rattle.telling.specs.Told.{status, carried};
ghost use Rattle.telling.specs.Plain.{counting};

use crate::number::tell_refusal;
use shelf::Read;

// How reading ended, with the count of what was placed where it read the list whole; and how many were placed in every case.
pub fn tell_read(read: Read, placed: &mut u64, value: &mut u64) -> u32
    ensures value { result ≡ status (paper read.ended) }
    ensures placed_after { placed.new ≡ read.placed }
    ensures value_after { value.new ≡ carried (counting (paper read.ended) read.placed) }
{
    let count = read.placed as u64;
    *placed = count;
    match read.ended {
        Ok(()) => {
            *value = count;
            0
        }
        Err(why) => tell_refusal(why, value),
    }
}
