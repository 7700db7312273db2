// Local numbers of a cadastral municipality's sheets (document 02, f; source document 000, section 3.11).
//
// A municipality is a rising list of 1 to 400 sheets of 1:2 000. They are numbered from 1 to n by rows of the whole grid, from the top row,
// each row from the west, whatever 1:50 000 sheets they lie in. A 1:1 000 sheet adds its number in that sheet, a 1:500 sheet one more.
#![tactic(auto)]

pub mod numbers;
mod rows;
mod sheets;

// The local numbers of a 1:2 000, a 1:1 000 and a 1:500 sheet, that of the 1:2 000 sheet first.
#[derive(Clone, Copy)]
pub enum Local {
    One(u32),
    Two(u32, u32),
    Three(u32, u32, u32),
}

// Local numbers as three, absent ones 0.
#[derive(Clone, Copy)]
pub struct Triple {
    pub n: u32,
    pub a: u32,
    pub b: u32,
}

// Of any three numbers. Three that no sheet can have, as a third without a second, become local numbers that none has.
impl From<Triple> for Local {
    ghost use Rattle.std.specs.Prelude.{◌≡◌};
    ghost use Rattle.local.specs.Numbers.{from_three};

    ghost from_gives = { λ three local. local ≡ from_three three.n three.a three.b };

    fn from(three: Triple) -> Local {
        let Triple { n, a, b } = three;
        if b != 0 {
            return Local::Three(n, a, b);
        }
        if a != 0 {
            return Local::Two(n, a);
        }
        Local::One(n)
    }
}

impl From<Local> for Triple {
    ghost use Rattle.std.specs.Prelude.{◌≡◌};
    ghost use Rattle.local.specs.Numbers.{as_three};

    ghost from_gives = { λ local three. three ≡ as_three local };

    fn from(local: Local) -> Triple {
        match local {
            Local::One(n) => Triple { n, a: 0, b: 0 },
            Local::Two(n, a) => Triple { n, a, b: 0 },
            Local::Three(n, a, b) => Triple { n, a, b },
        }
    }
}
