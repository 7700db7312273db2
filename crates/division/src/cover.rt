// The cover of a window.
ghost use Rattle.std.specs.Prelude.{◌≡◌, true, ◌≤◌, ◌<◌, length};
ghost use Rattle.std.proofs.lemmas.List.Edits.{sets};
ghost use Rattle.refusal.specs.Paper.{counted, room_after};
ghost use Rattle.refusal.specs.Numbers.{paper, Admits};
ghost use Rattle.division.specs.Words.{from};
ghost use Rattle.division.specs.Grid.{area, within};
ghost use Rattle.division.specs.Cover.{is_window, columns_in, rows_in, block, spanned, block_in, cover};
ghost use Rattle.division.specs.Given.{window_in, span_of, BlockRoom};

use crate::grid::{Cell, EAST, Grid, NORTH, SOUTH, WEST, distance, millimetres};
use crate::table::Scale;
use crate::{Edges, Place};
use refusal::Refusal;

// Rows or columns that follow one another.
#[derive(Clone, Copy)]
pub struct Span {
    pub first: u32,
    pub count: u32,
}

// Rows and columns.
#[derive(Clone, Copy)]
pub struct Block {
    pub down: Span,
    pub across: Span,
}

// A window in the area.
#[derive(Clone, Copy)]
struct Window {
    edges: Edges,
    ghost some: { is_window edges ≡ true },
    ghost inside: { within area edges ≡ true },
}

impl Window {
    fn of(edges: Edges) -> Result<Window, Refusal>
        ensures { Admits result (window_in edges) (λ window. window.edges ≡ edges) }
    {
        let some = (edges.west < edges.east) & (edges.south < edges.north);
        if !some {
            return Err(Refusal::WindowOrder);
        }
        let inside = ((WEST <= edges.west) & (edges.east <= EAST))
            & ((SOUTH <= edges.south) & (edges.north <= NORTH));
        if !inside {
            return Err(Refusal::WindowOutside);
        }
        Ok(Window { edges })
    }
}

// The cells of a size that the stretch from a up to b meets.
fn span_of(a: u64, b: u64, size: u64) -> Span
    requires size_nonzero { 0 < size }
    requires a_lt_b { a < b }
    requires b_bound { b ≤ 600_000_000 }
    ensures { result ≡ span_of a b size }
{
    let first = a / size;
    let last = (b - 1) / size;
    Span {
        first: first as u32,
        count: (last - first + 1) as u32,
    }
}

// The columns and the rows of a grid that share a point with a window: two functions, since columns are counted with the east values and rows
// against the north values.
fn columns_in(grid: Grid, window: Window) -> Span
    ensures { result ≡ spanned (columns_in grid.scale window.edges) }
{
    let Edges { west, east, .. } = window.edges;
    let size = millimetres(Scale(grid.scale).width());
    span_of(distance(west, WEST), distance(east, WEST), size)
}

fn rows_in(grid: Grid, window: Window) -> Span
    ensures { result ≡ spanned (rows_in grid.scale window.edges) }
{
    let Edges { south, north, .. } = window.edges;
    let size = millimetres(Scale(grid.scale).height());
    span_of(distance(NORTH, north), distance(NORTH, south), size)
}

// Writes the sheets of a block, rows from the north, each from the west.
fn fill(scale: u32, down: Span, across: Span, room: &mut [u32])
    requires { BlockRoom scale down across (length room.old) }
    ensures { room.new ≡ sets room.old 0 (block scale (from down.first down.count) (from across.first across.count)) }
{
    let wide = across.count;
    for i in 0..down.count * wide {
        let place = Place {
            row: down.first + i / wide,
            column: across.first + i % wide,
        };
        room[i as usize] = Cell { scale, place }.sheet();
    }
}

// The rows and columns of a scale that share a point with a window, if their sheets are not too many: all that is refused of a cover, but
// for the room.
#[tactic(auto, unfolding(crate::specs::Cover::coverable, crate::specs::Cover::block_in))]
pub fn block_in(scale: u32, window: Edges) -> Result<Block, Refusal>
    ensures { paper result ≡ block_in scale window }
{
    let grid = Grid::of(scale)?;
    let window = Window::of(window)?;
    let down = rows_in(grid, window);
    let across = columns_in(grid, window);
    if 4_096 < down.count * across.count {
        return Err(Refusal::TooMany);
    }
    Ok(Block { down, across })
}

// The sheets of a scale that share a point with a window, laid into lent room.
pub fn cover(scale: u32, window: Edges, room: &mut [u32]) -> Result<usize, Refusal>
    ensures result_value { paper result ≡ counted (cover scale window (length room.old)) }
    ensures room_after { room.new ≡ room_after (cover scale window (length room.old)) room.old }
{
    let Block { down, across } = block_in(scale, window)?;
    let count = (down.count * across.count) as usize;
    if room.len() < count {
        return Err(Refusal::Room(count));
    }
    fill(scale, down, across, room);
    Ok(count)
}
