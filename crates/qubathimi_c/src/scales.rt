// What belongs to a scale, and the scale of a sheet.
ghost use Rattle.std.specs.Prelude.{◌≡◌};
ghost use Rattle.division.specs.Table.{width, height, rows, columns, first, last};
ghost use Rattle.division.specs.Sheet.{scale_of};

use division::table::Scale;

#[unsafe(no_mangle)]
pub extern "C" fn qubathimi_width(scale: u32) -> u32
    ensures { result ≡ width scale }
{
    Scale(scale).width()
}

#[unsafe(no_mangle)]
pub extern "C" fn qubathimi_height(scale: u32) -> u32
    ensures { result ≡ height scale }
{
    Scale(scale).height()
}

#[unsafe(no_mangle)]
pub extern "C" fn qubathimi_rows(scale: u32) -> u32
    ensures { result ≡ rows scale }
{
    Scale(scale).row().rows
}

#[unsafe(no_mangle)]
pub extern "C" fn qubathimi_columns(scale: u32) -> u32
    ensures { result ≡ columns scale }
{
    Scale(scale).row().columns
}

#[unsafe(no_mangle)]
pub extern "C" fn qubathimi_first(scale: u32) -> u32
    ensures { result ≡ first scale }
{
    Scale(scale).first()
}

#[unsafe(no_mangle)]
pub extern "C" fn qubathimi_last(scale: u32) -> u32
    ensures { result ≡ last scale }
{
    Scale(scale).last()
}

#[unsafe(no_mangle)]
pub extern "C" fn qubathimi_scale_of(sheet: u32) -> u32
    ensures { result ≡ scale_of sheet }
{
    Scale::of(sheet).0
}
