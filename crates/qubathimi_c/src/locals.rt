// Local numbers in a municipality.
ghost use Rattle.std.specs.Prelude.{◌≡◌};
ghost use Rattle.local.specs.Numbers.{local_to_sheet, sheet_to_local, from_three, as_three};
ghost use Rattle.telling.specs.Told.{status, carried, written};

use local::numbers::{local_to_sheet, sheet_to_local};
use local::{Local, Triple};
use telling::number::tell;
use telling::several::tell_local;

#[unsafe(no_mangle)]
pub extern "C" fn qubathimi_local_to_sheet(
    municipality: &[u32],
    n: u32,
    a: u32,
    b: u32,
    value: &mut u64,
) -> u32
    ensures value { result ≡ status (local_to_sheet municipality.now (from_three n a b)) }
    ensures value_after { value.new ≡ carried (local_to_sheet municipality.now (from_three n a b)) }
{
    let known = Local::from(Triple { n, a, b });
    tell(local_to_sheet(municipality, known), value)
}

#[unsafe(no_mangle)]
pub extern "C" fn qubathimi_sheet_to_local(
    municipality: &[u32],
    sheet: u32,
    n: &mut u32,
    a: &mut u32,
    b: &mut u32,
) -> u32
    ensures value { result ≡ status (sheet_to_local municipality.now sheet) }
    ensures n_after { n.new ≡ written (λ l. (as_three l).n) (sheet_to_local municipality.now sheet) n.old }
    ensures a_after { a.new ≡ written (λ l. (as_three l).a) (sheet_to_local municipality.now sheet) a.old }
    ensures b_after { b.new ≡ written (λ l. (as_three l).b) (sheet_to_local municipality.now sheet) b.old }
{
    tell_local(sheet_to_local(municipality, sheet), n, a, b)
}
