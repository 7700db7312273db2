// Holdings (document 02, g): a sheet with a product, under one number.
//
// At 1:5 000 HOK5 and DOF5 share a label, and so do KP2000 and DOF2 at 1:2 000. A holding says which of them lies on the shelf: product 0
// leaves it unstated, 1 is the first product of the scale, and 2 the second, which only scales 6 and 7 have. Its number is three times the
// sheet number plus the product: sheet 344 with its first product is 1 033.
#![tactic(auto)]

ghost use Rattle.std.specs.Prelude.{◌≡◌, ◌≤◌};
ghost use Rattle.refusal.specs.Paper.{refused};
ghost use Rattle.refusal.specs.Numbers.{on_paper, paper};
ghost use Rattle.division.specs.Sheet.{scale_of};
ghost use Rattle.holding.specs.Holding.{has_product, sheet_in, product_in, past, judge, holding, parts_of};

use division::sheet::is_sheet;
use division::table::Scale;
use refusal::Refusal;

// What a number is judged for: numbers that are given are to be written, and those of a list are being read. A refusal in its place is no
// plainer: `judge` would have to ask that it carries no value.
#[derive(Clone, Copy)]
pub enum Task {
    Writing,
    Reading,
}

#[derive(Clone, Copy)]
pub struct Parts {
    pub sheet: u32,
    pub product: u32,
}

// The last holding's number, if its scale had a second product.
const LAST: u32 = 3 * Scale::LAST_SHEET + 2;

// Whether the scale of a number's sheet has its product. A second product have scales 6 and 7 alone, and the sheets of scale 7 come directly
// behind those of scale 6, so that it can be asked of the number; the range is asked first, since the numbers of a list tell it in advance.
fn has_product(number: u32) -> bool
    requires { number ≤ 23_859_521 }
    ensures { result ≡ has_product (scale_of (sheet_in number)) (product_in number) }
{
    let first = 3 * Scale(6).first();
    let last = 3 * Scale(7).last() + 2;
    ((first <= number) & (number <= last)) | (number % 3 < 2)
}

// The refusal of a number past the last.
pub fn past(task: Task) -> Refusal
    ensures { on_paper {A = Unit} result ≡ refused (past task) 0 }
{
    match task {
        Task::Writing => Refusal::NoSheet,
        Task::Reading => Refusal::PastLast,
    }
}

// What is wrong with a holding's number, if anything.
#[tactic(auto, unfolding(crate::specs::Holding::judge))]
pub fn judge(task: Task, number: u32) -> Result<(), Refusal>
    ensures { paper result ≡ judge (past task) number }
{
    if LAST < number {
        return Err(past(task));
    }
    if !has_product(number) {
        return Err(Refusal::NoProduct);
    }
    Ok(())
}

// The number of a sheet with a product.
#[tactic(auto, using(crate::proofs::HoldingLaws::no_third, crate::proofs::HoldingLaws::apart), unfolding(crate::specs::Holding::holding))]
pub fn holding(sheet: u32, product: u32) -> Result<u32, Refusal>
    ensures { paper result ≡ holding sheet product }
{
    if !is_sheet(sheet) {
        return Err(Refusal::NoSheet);
    }
    if 2 < product {
        return Err(Refusal::NoProduct);
    }
    let number = 3 * sheet + product;
    if !has_product(number) {
        return Err(Refusal::NoProduct);
    }
    Ok(number)
}

// The sheet and the product of a holding.
#[tactic(auto, unfolding(crate::specs::Holding::parts_of))]
pub fn holding_parts(number: u32) -> Result<Parts, Refusal>
    ensures { paper result ≡ parts_of number }
{
    judge(Task::Writing, number)?;
    Ok(Parts {
        sheet: number / 3,
        product: number % 3,
    })
}
