// The rows and columns of a cover, and a delivery set against it.
ghost use Rattle.std.specs.Prelude.{◌≡◌, [], ◌+◌, ◌≤◌, ◌<◌, length, get_or};
ghost use Rattle.refusal.specs.Paper.{answer};
ghost use Rattle.refusal.specs.Numbers.{paper};
ghost use Rattle.division.specs.Words.{from};
ghost use Rattle.division.specs.Table as table;
ghost use Rattle.delivery.specs.Delivery.{in_turn, good_place, against};
ghost use Rattle.delivery.specs.Given.{InGrid, sheets_of, count_of, has_line, IsPlaceIn, IsPlaceOf, Marked, all_marked};

use crate::place::place_at;
use division::Place;
use division::cover::{Block, Span};
use division::sheet::sheet_on;
use division::table::Scale;
use refusal::Refusal;

// Whether a row or a column is one of those.
fn has(span: Span, line: u32) -> bool
    requires { span.first + span.count ≤ 3_000 }
    ensures { result ≡ has_line span line }
{
    let end = span.first + span.count;
    (span.first <= line) & (line < end)
}

// Rows and columns on the grid of a scale, of at most 4 096 sheets, with the first and the last number of the scale.
#[derive(Clone, Copy)]
pub(crate) struct Cover {
    scale: u32,
    first: u32,
    last: u32,
    block: Block,
    ghost in_grid: { InGrid scale block },
    ghost first_is: { first ≡ table.first scale },
    ghost last_is: { last ≡ table.last scale },
}

impl Cover {
    pub(crate) fn of(scale: u32, block: Block) -> Cover
        requires { InGrid scale block }
        ensures scale_is { result.scale ≡ scale }
        ensures block_is { result.block ≡ block }
    {
        Cover {
            scale,
            first: Scale(scale).first(),
            last: Scale(scale).last(),
            block,
        }
    }

    // How many sheets it has.
    pub(crate) fn count(self) -> u32
        ensures { result ≡ count_of self.block }
    {
        self.block.down.count * self.block.across.count
    }

    // Where a place of the scale stands in it, counted from 0.
    fn place_in(self, at: Place) -> Option<u32>
        ensures { IsPlaceIn self.block at result }
    {
        let Block { down, across } = self.block;
        if !(has(down, at.row) & has(across, at.column)) {
            return None;
        }
        let above = at.row - down.first;
        let before = at.column - across.first;
        Some(above * across.count + before)
    }

    // Where a sheet stands in it.
    fn place_of(self, sheet: u32) -> Option<u32>
        ensures { IsPlaceOf (sheets_of self.scale self.block) sheet result }
    {
        if !((self.first <= sheet) & (sheet <= self.last)) {
            return None;
        }
        self.place_in(place_at(self.scale, sheet - self.first))
    }

    // The sheet at a place of it.
    fn sheet_at(self, place: u32) -> u32
        requires { place < count_of self.block }
        ensures { result ≡ get_or (sheets_of self.scale self.block) place 0 }
    {
        let Block { down, across } = self.block;
        let row = down.first + place / across.count;
        let column = across.first + place % across.count;
        sheet_on(self.scale, Place { row, column }).unwrap_or(0)
    }

    // Marks the places whose sheets are delivered, up to the first bad place of the delivery, if there is one.
    fn mark(self, sheets: &[u32], marks: &mut [bool]) -> Result<(), Refusal>
        requires { Marked (sheets_of self.scale self.block) [] marks.old }
        ensures result_value { paper result ≡ in_turn (good_place (sheets_of self.scale self.block) sheets.now) (from 0 (length sheets.now)) }
        ensures marked_after { paper result ≡ answer tt → Marked (sheets_of self.scale self.block) sheets.now marks.new }
    {
        for (i, &sheet) in sheets.iter().enumerate() {
            let Some(at) = self.place_of(sheet) else {
                return Err(Refusal::NotOfCover(i));
            };
            let seen = marks[at as usize];
            if seen {
                return Err(Refusal::SeenBefore(i));
            }
            marks[at as usize] = true;
        }
        Ok(())
    }

    // How many sheets it has, if each has a mark; or else the first that has none.
    fn complete(self, marks: &[bool]) -> Result<u32, Refusal>
        requires { count_of self.block ≤ length marks.now }
        ensures { paper result ≡ all_marked (sheets_of self.scale self.block) marks.now (count_of self.block) }
    {
        let count = self.count();
        for place in 0..count {
            if !marks[place as usize] {
                return Err(Refusal::Missing(self.sheet_at(place)));
            }
        }
        Ok(count)
    }

    // A delivery, set against it with room for so many marks, on the stack.
    pub(crate) fn compared<const ROOM: usize>(self, sheets: &[u32]) -> Result<u32, Refusal>
        requires enough { count_of self.block ≤ ROOM }
        requires room_bound { ROOM ≤ 4_096 }
        ensures { paper result ≡ against (sheets_of self.scale self.block) sheets.now }
    {
        let mut marks = [false; ROOM];
        self.mark(sheets, &mut marks)?;
        self.complete(&marks)
    }
}
