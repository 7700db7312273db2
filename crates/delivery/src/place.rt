// The place of a sheet on the grid of its scale, by its index there. Each scale has an arm of its own, so that a compiled program divides by
// numbers that it knows: that takes a third of the time.
ghost use Rattle.std.specs.Prelude.{◌≡◌, ◌/◌};
ghost use Rattle.division.specs.Table.{made, parent_scale, parts};
ghost use Rattle.division.specs.Sheet.{place_at};
ghost use Rattle.division.specs.Given.{Indexed};
ghost use Rattle.delivery.specs.Given.{OfArea, OfParent};

use division::Place;
use division::table::Scale;

// At a scale that is made from the area.
fn in_area(s: u32, i: u32) -> Place
    requires { OfArea s }
    ensures { result ≡ place_at (made s) i }
{
    let columns = Scale(s).row().columns;
    let row = i / columns;
    let column = i % columns;
    Place { row, column }
}

// At a scale that is made from another: the index of the sheet that it is a part of, and with that sheet's place its own. That the scale is
// such a one is said of the number, since each arm below gives its own as a number: a type would be made in the arm only to be opened here.
fn above(s: u32, i: u32) -> u32
    requires { OfParent s i }
    ensures { result ≡ i / parts s }
{
    let parts = Scale(s).row().parts;
    i / parts
}

fn in_parent(s: u32, i: u32, up: Place) -> Place
    requires of_parent { OfParent s i }
    requires up_value { up ≡ place_at (made (parent_scale s)) (i / parts s) }
    ensures { result ≡ place_at (made s) i }
{
    let t = Scale(s).row();
    let side = t.side;
    let part = i % t.parts;
    let row = up.row * side + part / side;
    let column = up.column * side + part % side;
    Place { row, column }
}

// At a scale that is made from scale 3, which the area is made into.
fn once(s: u32, i: u32) -> Place
    requires of_parent { OfParent s i }
    requires s_value { parent_scale s ≡ 3 }
    ensures { result ≡ place_at (made s) i }
{
    in_parent(s, i, in_area(3, above(s, i)))
}

pub(crate) fn place_at(s: u32, i: u32) -> Place
    requires { Indexed s i }
    ensures { result ≡ place_at (made s) i }
{
    match s {
        4 => once(4, i),
        5 => once(5, i),
        6 => in_parent(6, i, once(4, above(6, i))),
        7 => once(7, i),
        8 => in_parent(8, i, once(7, above(8, i))),
        9 => {
            let up = above(9, i);
            in_parent(9, i, in_parent(8, up, once(7, above(8, up))))
        }
        _ => in_area(s, i),
    }
}
