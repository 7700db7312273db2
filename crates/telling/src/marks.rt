// A place as one number: its sheet, or the mark of none.
ghost use Rattle.std.specs.Prelude.{◌≡◌};
ghost use Rattle.telling.specs.Plain.{mark};

// A number that is no sheet, for C, which has no `Option`.
pub(crate) const NONE: u32 = 4_294_967_295;

pub fn mark(place: Option<u32>) -> u32
    ensures { result ≡ mark place }
{
    place.unwrap_or(NONE)
}
