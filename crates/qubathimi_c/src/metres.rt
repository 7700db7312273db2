// Frames and points in metres.
ghost use Rattle.std.specs.Prelude.{◌≡◌};
ghost use Rattle.frame.specs.Metres.{frame_of, sheet_at_metres, frame_at_metres};
ghost use Rattle.telling.specs.Told.{status, carried, written};

use frame::metres::{frame_at_metres, frame_of, sheet_at_metres};
use telling::number::tell;
use telling::several::tell_frame;

#[unsafe(no_mangle)]
pub extern "C" fn qubathimi_frame(
    sheet: u32,
    west: &mut f64,
    east: &mut f64,
    south: &mut f64,
    north: &mut f64,
    middle_e: &mut f64,
    middle_n: &mut f64,
) -> u32
    ensures value { result ≡ status (frame_of sheet) }
    ensures west_after { west.new ≡ written (λ f. f.west) (frame_of sheet) west.old }
    ensures east_after { east.new ≡ written (λ f. f.east) (frame_of sheet) east.old }
    ensures south_after { south.new ≡ written (λ f. f.south) (frame_of sheet) south.old }
    ensures north_after { north.new ≡ written (λ f. f.north) (frame_of sheet) north.old }
    ensures middle_e_after { middle_e.new ≡ written (λ f. f.middle_e) (frame_of sheet) middle_e.old }
    ensures middle_n_after { middle_n.new ≡ written (λ f. f.middle_n) (frame_of sheet) middle_n.old }
{
    tell_frame(
        frame_of(sheet),
        west,
        east,
        south,
        north,
        middle_e,
        middle_n,
    )
}

#[unsafe(no_mangle)]
pub extern "C" fn qubathimi_sheet_at_metres(scale: u32, e: f64, n: f64, value: &mut u64) -> u32
    ensures value { result ≡ status (sheet_at_metres scale e n) }
    ensures value_after { value.new ≡ carried (sheet_at_metres scale e n) }
{
    tell(sheet_at_metres(scale, e, n), value)
}

#[unsafe(no_mangle)]
pub extern "C" fn qubathimi_frame_at_metres(
    scale: u32,
    e: f64,
    n: f64,
    west: &mut f64,
    east: &mut f64,
    south: &mut f64,
    north: &mut f64,
    middle_e: &mut f64,
    middle_n: &mut f64,
) -> u32
    ensures value { result ≡ status (frame_at_metres scale e n) }
    ensures west_after { west.new ≡ written (λ f. f.west) (frame_at_metres scale e n) west.old }
    ensures east_after { east.new ≡ written (λ f. f.east) (frame_at_metres scale e n) east.old }
    ensures south_after { south.new ≡ written (λ f. f.south) (frame_at_metres scale e n) south.old }
    ensures north_after { north.new ≡ written (λ f. f.north) (frame_at_metres scale e n) north.old }
    ensures middle_e_after { middle_e.new ≡ written (λ f. f.middle_e) (frame_at_metres scale e n) middle_e.old }
    ensures middle_n_after { middle_n.new ≡ written (λ f. f.middle_n) (frame_at_metres scale e n) middle_n.old }
{
    tell_frame(
        frame_at_metres(scale, e, n),
        west,
        east,
        south,
        north,
        middle_e,
        middle_n,
    )
}
