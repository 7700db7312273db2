// A municipality's sheets by rows. Where a sheet stands in them follows from how many stand before it on the whole grid, so nothing is
// sorted. To find the n-th, the order of each is worked out once, and then a bound is halved until one order is left.
ghost use Rattle.std.specs.Prelude.{◌≡◌, map, true, ◌+◌, ◌-◌, ◌≤◌, length, get_or, take};
ghost use Rattle.refusal.specs.Paper.{answer};
ghost use Rattle.refusal.specs.Numbers.{is_in, paper};
ghost use Rattle.division.specs.Sheet.{reading_order};
ghost use Rattle.local.specs.Rows.{by_rows, place_in};
ghost use Rattle.municipality.specs.Given.{OfScale};
ghost use Rattle.local.specs.Given.{Reaches, IsNth, count_below};

use crate::sheets::Municipality;
use division::Place;
use division::sheet::sheet_on;
use division::table::Scale;
use refusal::Refusal;

// The place of a 1:2 000 sheet on the whole grid, counted by rows from the north, each row from the west. `across` is how many 1:50 000
// sheets lie in a row, and each of them has `side` rows of as many parts.
#[tactic(auto, using(crate::proofs::RowLaws::index_in), unfolding(division::specs::Table::table, division::specs::Table::table_row, division::specs::Table::rows_of, division::specs::Table::columns_of))]
fn order(sheet: u32) -> u32
    requires { OfScale 7 sheet }
    ensures { result ≡ reading_order sheet }
{
    let t = Scale(7).row();
    let across = Scale(3).row().columns;
    let side = t.side;
    let parts = t.parts;
    let index = sheet - t.first;
    let up = index / parts;
    let part = index % parts;
    let row = up / across * side + part / side;
    let column = up % across * side + part % side;
    row * t.columns + column
}

// How many orders are below a bound.
fn below(orders: &[u32], bound: u32) -> u32
    requires { length orders.now ≤ 400 }
    ensures { result ≡ count_below bound orders.now }
{
    let mut count: u32 = 0;
    for &order in orders {
        count += u32::from(order < bound);
    }
    count
}

// The n-th order, from 1, of at least n orders that are below a bound. The library halves a slice, and here what is halved is a range of
// numbers that no slice holds.
fn nth(orders: &[u32], n: u32, bound: u32) -> u32
    requires { Reaches orders.now n bound }
    ensures { IsNth orders.now n bound result }
{
    let mut low: u32 = 0;
    let mut high = bound;
    while 1 < high - low {
        let middle = low + (high - low) / 2;
        if below(orders, middle) < n {
            low = middle;
        } else {
            high = middle;
        }
    }
    low
}

impl Municipality<'_> {
    // The orders of the sheets, in as many places from the first: room for the largest municipality, since nothing here is on a heap.
    fn orders(&self) -> [u32; 400]
        ensures { take (length self.now.sheets.now) result ≡ map reading_order self.now.sheets.now }
    {
        let mut all = [0u32; 400];
        for (i, &sheet) in self.sheets.iter().enumerate() {
            all[i] = order(sheet);
        }
        all
    }

    // The number of one of the sheets: 1, and how many of them stand before it.
    pub(crate) fn rank(&self, sheet: u32) -> u32
        requires { is_in self.now.sheets.now sheet ≡ true }
        ensures { result ≡ 1 + place_in sheet (by_rows self.now.sheets.now) }
    {
        let at = order(sheet);
        let mut count: u32 = 0;
        for &other in self.sheets {
            count += u32::from(order(other) < at);
        }
        count + 1
    }

    // The sheet that has a number.
    pub(crate) fn nth_by_rows(&self, number: u32) -> Result<u32, Refusal>
        requires one { 1 ≤ number }
        requires last { number ≤ length self.now.sheets.now }
        ensures { paper result ≡ answer (get_or (by_rows self.now.sheets.now) (number - 1) 0) }
    {
        let all = self.orders();
        let t = Scale(7).row();
        let columns = t.columns;
        let at = nth(&all[..self.sheets.len()], number, t.rows * columns);
        let place = Place {
            row: at / columns,
            column: at % columns,
        };
        sheet_on(7, place)
    }
}
