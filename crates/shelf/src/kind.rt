// The two kinds of list, and what they differ in: a trait, so that what is written over a list of any kind is compiled for each, and its loops
// do not ask at each number which kind it is.
ghost use Rattle.std.specs.Prelude.{◌≡◌};
ghost use Rattle.refusal.specs.Numbers.{paper};
ghost use Rattle.holding.specs.Holding as h;
ghost use Rattle.shelf.specs.Kind as k;

use division::sheet::is_sheet;
use holding::{Task, judge, past};
use refusal::Refusal;

pub trait Kind {
    // its name in the definitions
    ghost name: { k.KindName };

    // The number with which a list of so many begins. A list has at most 4 096; of more, the sum is told all the same.
    fn begins(count: u16) -> u32
        ensures { result ≡ (k.kind_of name).begins count };

    // What is wrong with a number of a list, if anything.
    fn judged(task: Task, number: u32) -> Result<(), Refusal>
        ensures { paper result ≡ (k.kind_of name).judge (h.past task) number };
}

// Document 01's lists have sheets.
#[derive(Clone, Copy)]
pub struct Sheets;

impl Kind for Sheets {
    ghost name = { k.Sheets };

    fn begins(count: u16) -> u32 {
        u32::from(count)
    }

    fn judged(task: Task, number: u32) -> Result<(), Refusal> {
        if !is_sheet(number) {
            return Err(past(task));
        }
        Ok(())
    }
}

// And document 02's have holdings.
#[derive(Clone, Copy)]
pub struct Holdings;

impl Kind for Holdings {
    ghost name = { k.Holdings };

    fn begins(count: u16) -> u32 {
        8_192 + u32::from(count)
    }

    fn judged(task: Task, number: u32) -> Result<(), Refusal> {
        judge(task, number)
    }
}

// The count that a first number tells.
pub fn counted<K: Kind>(first: u32) -> Result<usize, Refusal>
    ensures { paper result ≡ (k.kind_of K.name).count first }
{
    let none = K::begins(0);
    let full = K::begins(4_096);
    if !((none <= first) & (first <= full)) {
        return Err(Refusal::BadNumber);
    }
    Ok((first - none) as usize)
}
