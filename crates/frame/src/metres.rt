// The frame of a sheet, the sheet of a point in floats, and the frame of that sheet.
ghost use Rattle.std.specs.Prelude.{◌≡◌};
ghost use Rattle.refusal.specs.Numbers.{paper};
ghost use Rattle.frame.specs.Metres.{metres, frame_on, frame_of, sheet_at_metres, frame_at_metres};
ghost use Rattle.frame.specs.Given.{Hundreds, AllHundreds};

use crate::Frame;
use crate::millimetres::{down, in_reach, is_number, up};
use division::Edges;
use division::sheet::{corners_of, sheet_at};
use division::table::is_scale;
use refusal::Refusal;

fn metres(edge: i64) -> f64
    requires { Hundreds edge }
    ensures { result ≡ metres edge }
{
    f64::from((edge as u64 / 1_000) as u32)
}

// The frame of a ground: whole metres are added and halved as floats, and nothing is rounded.
fn frame_on(ground: Edges) -> Frame
    requires { AllHundreds ground }
    ensures { result ≡ frame_on ground }
{
    let west = metres(ground.west);
    let east = metres(ground.east);
    let south = metres(ground.south);
    let north = metres(ground.north);
    Frame {
        west,
        east,
        south,
        north,
        middle_e: (west + east) / 2.0,
        middle_n: (south + north) / 2.0,
    }
}

// The frame of a sheet in metres.
#[tactic(auto, unfolding(crate::specs::Metres::frame_of))]
pub fn frame_of(sheet: u32) -> Result<Frame, Refusal>
    ensures { paper result ≡ frame_of sheet }
{
    let ground = corners_of(sheet)?;
    Ok(frame_on(ground))
}

// The sheet of a scale in which a point in metres lies.
#[tactic(auto, using(division::proofs::TestLaws::returned), unfolding(crate::specs::Metres::sheet_at_metres))]
pub fn sheet_at_metres(scale: u32, e: f64, n: f64) -> Result<u32, Refusal>
    ensures { paper result ≡ sheet_at_metres scale e n }
{
    if !is_scale(scale) {
        return Err(Refusal::NoScale);
    }
    if !(is_number(e) & is_number(n)) {
        return Err(Refusal::NoNumber);
    }
    // 2^53 metres or more in size, a little before 64-bit millimetres end: outside the area
    if !(in_reach(e) & in_reach(n)) {
        return Err(Refusal::PointOutside);
    }
    // hand the answer on by its parts: to copy it whole can cost as much as to find it
    match sheet_at(scale, down(e), up(n)) {
        Ok(sheet) => Ok(sheet),
        Err(why) => Err(why),
    }
}

// The frame of that sheet.
#[tactic(auto, unfolding(crate::specs::Metres::frame_at_metres))]
pub fn frame_at_metres(scale: u32, e: f64, n: f64) -> Result<Frame, Refusal>
    ensures { paper result ≡ frame_at_metres scale e n }
{
    let sheet = sheet_at_metres(scale, e, n)?;
    frame_of(sheet)
}
