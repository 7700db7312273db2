// What a scanning firm delivers.
ghost use Rattle.std.specs.Prelude.{◌≡◌};
ghost use Rattle.delivery.specs.Delivery.{check_delivery};
ghost use Rattle.telling.specs.Told.{status, carried};
ghost use Rattle.qubathimi_c.specs.Plain.{window};

use delivery::check_delivery;
use division::Edges;
use telling::number::tell;

#[unsafe(no_mangle)]
pub extern "C" fn qubathimi_check_delivery(
    scale: u32,
    west: i64,
    east: i64,
    south: i64,
    north: i64,
    sheets: &[u32],
    value: &mut u64,
) -> u32
    ensures value { result ≡ status (check_delivery scale (window west east south north) sheets.now) }
    ensures value_after { value.new ≡ carried (check_delivery scale (window west east south north) sheets.now) }
{
    let seen = Edges {
        west,
        east,
        south,
        north,
    };
    tell(check_delivery(scale, seen, sheets), value)
}
