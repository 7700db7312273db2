// Local numbers to sheet, and sheet to local numbers.
ghost use Rattle.std.specs.Prelude.{◌≡◌};
ghost use Rattle.refusal.specs.Numbers.{paper};
ghost use Rattle.local.specs.Numbers.{sheet_numbered, part_number, stands_for, local_to_sheet, one_number, two_numbers, three_numbers, numbers_of, number_of, sheet_to_local};
ghost use Rattle.municipality.specs.Given.{OfScale};
ghost use Rattle.local.specs.Given.{Part};

use crate::Local;
use crate::sheets::Municipality;
use division::sheet::is_sheet;
use division::table::Scale;
use municipality::has;
use refusal::Refusal;
use relations::kin::{child, parent};

// The number of a 1:1 000 or a 1:500 sheet in the sheet that it is a part of. It and the functions below that ask for a
// sheet of a scale ask for four different ones: a type would have the scale as a parameter, and say what the clause says.
fn part_number(sheet: u32) -> u32
    requires { Part sheet }
    ensures { result ≡ part_number sheet }
{
    let t = Scale::of(sheet).row();
    (sheet - t.first) % t.parts + 1
}

impl Municipality<'_> {
    // ---- local numbers to sheet

    // The 1:2 000 sheet with a number.
    #[tactic(auto, unfolding(crate::specs::Numbers::sheet_numbered))]
    fn numbered(&self, n: u32) -> Result<u32, Refusal>
        ensures { paper result ≡ sheet_numbered self.now.sheets.now n }
    {
        let last = self.sheets.len() as u32;
        if !(1..=last).contains(&n) {
            return Err(Refusal::NoSuch);
        }
        self.nth_by_rows(n)
    }

    #[tactic(auto, unfolding(crate::specs::Numbers::stands_for))]
    fn stands_for(&self, local: Local) -> Result<u32, Refusal>
        ensures { paper result ≡ stands_for self.now.sheets.now local }
    {
        match local {
            Local::One(n) => self.numbered(n),
            Local::Two(n, a) => child(self.numbered(n)?, 8, a),
            Local::Three(n, a, b) => child(child(self.numbered(n)?, 8, a)?, 9, b),
        }
    }

    // ---- sheet to local numbers

    #[tactic(auto, unfolding(crate::specs::Numbers::number_of))]
    fn number_of(&self, sheet: u32) -> Result<u32, Refusal>
        ensures { paper result ≡ number_of self.now.sheets.now sheet }
    {
        if !has(self.sheets, sheet) {
            return Err(Refusal::NoSuch);
        }
        Ok(self.rank(sheet))
    }

    // The local numbers of a 1:2 000, of a 1:1 000 and of a 1:500 sheet.
    #[tactic(auto, unfolding(crate::specs::Numbers::one_number))]
    fn one_number(&self, sheet: u32) -> Result<Local, Refusal>
        ensures { paper result ≡ one_number self.now.sheets.now sheet }
    {
        let n = self.number_of(sheet)?;
        Ok(Local::One(n))
    }

    #[tactic(auto, unfolding(crate::specs::Numbers::two_numbers))]
    fn two_numbers(&self, sheet: u32) -> Result<Local, Refusal>
        requires { OfScale 8 sheet }
        ensures { paper result ≡ two_numbers self.now.sheets.now sheet }
    {
        let top = parent(sheet)?;
        let n = self.number_of(top)?;
        Ok(Local::Two(n, part_number(sheet)))
    }

    #[tactic(auto, unfolding(crate::specs::Numbers::three_numbers))]
    fn three_numbers(&self, sheet: u32) -> Result<Local, Refusal>
        requires { OfScale 9 sheet }
        ensures { paper result ≡ three_numbers self.now.sheets.now sheet }
    {
        let above = parent(sheet)?;
        let top = parent(above)?;
        let n = self.number_of(top)?;
        Ok(Local::Three(n, part_number(above), part_number(sheet)))
    }

    #[tactic(auto, unfolding(crate::specs::Numbers::numbers_of))]
    fn numbers_of(&self, sheet: u32) -> Result<Local, Refusal>
        ensures { paper result ≡ numbers_of self.now.sheets.now sheet }
    {
        if !is_sheet(sheet) {
            return Err(Refusal::NoSheet);
        }
        match Scale::of(sheet).0 {
            7 => self.one_number(sheet),
            8 => self.two_numbers(sheet),
            9 => self.three_numbers(sheet),
            _ => Err(Refusal::NoSuch),
        }
    }
}

// The sheet of a municipality that has these local numbers.
#[tactic(auto, unfolding(crate::specs::Numbers::local_to_sheet))]
pub fn local_to_sheet(municipality: &[u32], local: Local) -> Result<u32, Refusal>
    ensures { paper result ≡ local_to_sheet municipality.now local }
{
    Municipality::of(municipality)?.stands_for(local)
}

// The local numbers that a sheet has in a municipality.
#[tactic(auto, unfolding(crate::specs::Numbers::sheet_to_local))]
pub fn sheet_to_local(municipality: &[u32], sheet: u32) -> Result<Local, Refusal>
    ensures { paper result ≡ sheet_to_local municipality.now sheet }
{
    Municipality::of(municipality)?.numbers_of(sheet)
}
