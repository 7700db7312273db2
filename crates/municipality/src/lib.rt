// The list of a cadastral municipality (document 02, f): whether it is one, and whether a sheet is of it. How its sheets are numbered is
// crates/local.
#![tactic(auto)]

ghost use Rattle.std.specs.Prelude.{◌≡◌};
ghost use Rattle.refusal.specs.Numbers.{is_in, paper};
ghost use Rattle.rising.specs.Rising.{rising_from};
ghost use Rattle.municipality.specs.Municipality.{of2000, municipality};

use division::sheet::is_sheet;
use division::table::Scale;
use refusal::Refusal;

// The refusal of the first faulty place, if there is one.
fn places(sheets: &[u32]) -> Result<(), Refusal>
    ensures { paper result ≡ rising_from of2000 0 sheets.now }
{
    let first = Scale(7).first();
    let last = Scale(7).last();
    let mut least: u32 = 0;
    for &sheet in sheets {
        if !is_sheet(sheet) {
            return Err(Refusal::NoSheet);
        }
        if !((first <= sheet) & (sheet <= last)) {
            return Err(Refusal::NoMunicipality);
        }
        if sheet < least {
            return Err(Refusal::NotRising);
        }
        least = sheet + 1;
    }
    Ok(())
}

// Whether a list is a municipality.
#[tactic(auto, unfolding(crate::specs::Municipality::municipality))]
pub fn judge(sheets: &[u32]) -> Result<(), Refusal>
    ensures { paper result ≡ municipality sheets.now }
{
    if !(1..=400).contains(&sheets.len()) {
        return Err(Refusal::NoMunicipality);
    }
    places(sheets)
}

// Whether a sheet is one of a list. The comparisons go on to the end, so that many are made at a time: the library's `contains` stops.
pub fn has(sheets: &[u32], sheet: u32) -> bool
    ensures { result ≡ is_in sheets.now sheet }
{
    let mut found = false;
    for &one in sheets {
        found = found | (sheet == one);
    }
    found
}
