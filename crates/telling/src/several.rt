// Answers of several numbers: a status, and a place for each. A function for each of them, since C has its own number of places for it.
ghost use Rattle.std.specs.Prelude.{◌≡◌};
ghost use Rattle.refusal.specs.Numbers.{paper};
ghost use Rattle.local.specs.Numbers.{as_three};
ghost use Rattle.telling.specs.Told.{status, written};

use division::{Edges, Spot};
use frame::Frame;
use holding::Parts;
use local::{Local, Triple};
use refusal::Refusal;
use relations::Offset;

pub fn tell_spot(
    located: Result<Spot, Refusal>,
    scale: &mut u32,
    row: &mut u32,
    column: &mut u32,
) -> u32
    ensures value { result ≡ status (paper located) }
    ensures scale_after { scale.new ≡ written (λ at. at.scale) (paper located) scale.old }
    ensures row_after { row.new ≡ written (λ at. at.place.row) (paper located) row.old }
    ensures column_after { column.new ≡ written (λ at. at.place.column) (paper located) column.old }
{
    match located {
        Ok(at) => {
            *scale = at.scale;
            *row = at.place.row;
            *column = at.place.column;
            0
        }
        Err(why) => why.numbered().number,
    }
}

pub fn tell_corners(
    corners: Result<Edges, Refusal>,
    west: &mut i64,
    east: &mut i64,
    south: &mut i64,
    north: &mut i64,
) -> u32
    ensures value { result ≡ status (paper corners) }
    ensures west_after { west.new ≡ written (λ edges. edges.west) (paper corners) west.old }
    ensures east_after { east.new ≡ written (λ edges. edges.east) (paper corners) east.old }
    ensures south_after { south.new ≡ written (λ edges. edges.south) (paper corners) south.old }
    ensures north_after { north.new ≡ written (λ edges. edges.north) (paper corners) north.old }
{
    match corners {
        Ok(edges) => {
            *west = edges.west;
            *east = edges.east;
            *south = edges.south;
            *north = edges.north;
            0
        }
        Err(why) => why.numbered().number,
    }
}

pub fn tell_frame(
    framed: Result<Frame, Refusal>,
    west: &mut f64,
    east: &mut f64,
    south: &mut f64,
    north: &mut f64,
    middle_e: &mut f64,
    middle_n: &mut f64,
) -> u32
    ensures value { result ≡ status (paper framed) }
    ensures west_after { west.new ≡ written (λ f. f.west) (paper framed) west.old }
    ensures east_after { east.new ≡ written (λ f. f.east) (paper framed) east.old }
    ensures south_after { south.new ≡ written (λ f. f.south) (paper framed) south.old }
    ensures north_after { north.new ≡ written (λ f. f.north) (paper framed) north.old }
    ensures middle_e_after { middle_e.new ≡ written (λ f. f.middle_e) (paper framed) middle_e.old }
    ensures middle_n_after { middle_n.new ≡ written (λ f. f.middle_n) (paper framed) middle_n.old }
{
    match framed {
        Ok(frame) => {
            *west = frame.west;
            *east = frame.east;
            *south = frame.south;
            *north = frame.north;
            *middle_e = frame.middle_e;
            *middle_n = frame.middle_n;
            0
        }
        Err(why) => why.numbered().number,
    }
}

pub fn tell_offset(apart: Result<Offset, Refusal>, east: &mut i64, south: &mut i64) -> u32
    ensures value { result ≡ status (paper apart) }
    ensures east_after { east.new ≡ written (λ by. by.east) (paper apart) east.old }
    ensures south_after { south.new ≡ written (λ by. by.south) (paper apart) south.old }
{
    match apart {
        Ok(by) => {
            *east = by.east;
            *south = by.south;
            0
        }
        Err(why) => why.numbered().number,
    }
}

pub fn tell_local(known: Result<Local, Refusal>, n: &mut u32, a: &mut u32, b: &mut u32) -> u32
    ensures value { result ≡ status (paper known) }
    ensures n_after { n.new ≡ written (λ l. (as_three l).n) (paper known) n.old }
    ensures a_after { a.new ≡ written (λ l. (as_three l).a) (paper known) a.old }
    ensures b_after { b.new ≡ written (λ l. (as_three l).b) (paper known) b.old }
{
    match known {
        Ok(local) => {
            let told = Triple::from(local);
            *n = told.n;
            *a = told.a;
            *b = told.b;
            0
        }
        Err(why) => why.numbered().number,
    }
}

pub fn tell_parts(parted: Result<Parts, Refusal>, sheet: &mut u32, product: &mut u32) -> u32
    ensures value { result ≡ status (paper parted) }
    ensures sheet_after { sheet.new ≡ written (λ parts. parts.sheet) (paper parted) sheet.old }
    ensures product_after { product.new ≡ written (λ parts. parts.product) (paper parted) product.old }
{
    match parted {
        Ok(parts) => {
            *sheet = parts.sheet;
            *product = parts.product;
            0
        }
        Err(why) => why.numbered().number,
    }
}
