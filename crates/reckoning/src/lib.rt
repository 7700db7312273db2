// What the numbers of a label's fields name (document 01, "Labels"): a scale, by the first of them and their count, and by the others a sheet of
// it: its index, and how far it lies from the area's corner. That they stand in a label, and where, is crates/reading.
#![tactic(auto)]

ghost use Rattle.std.specs.Prelude.{◌≡◌};
ghost use Rattle.reckoning.specs.Reckoning.{named};

use crate::ground::ground_from;
use crate::scale::scale_named;

mod ground;
mod scale;

// An index of a scale, and how far its sheet lies to the right of the area's corner and below it, in hundreds of metres.
#[derive(Clone, Copy)]
pub struct Reach {
    pub index: u32,
    pub right: u32,
    pub down: u32,
}

// What numbers name: a scale, and the reach of a sheet of it.
#[derive(Clone, Copy)]
pub struct Named {
    pub scale: u32,
    pub reach: Reach,
}

// Why numbers name no sheet: their first and their count are none of those known; or they name a scale, and the number at a place of theirs
// is out of range at it, the first of those that are.
#[derive(Clone, Copy)]
pub enum Unnamed {
    Scale,
    Number(u32, usize),
}

// What numbers name, whatever they are and however many.
pub fn sheet_named(numbers: &[u64]) -> Result<Named, Unnamed>
    ensures { result ≡ named numbers.now }
{
    let Some((&first, others)) = numbers.split_first() else {
        return Err(Unnamed::Scale);
    };
    let Some(scale) = scale_named(first, numbers.len()) else {
        return Err(Unnamed::Scale);
    };
    match ground_from(scale, others) {
        Ok(reach) => Ok(Named { scale, reach }),
        Err(i) => Err(Unnamed::Number(scale, 1 + i)),
    }
}
