// Official names.
ghost use Rattle.std.specs.Prelude.{◌≡◌, unwrap_or};
ghost use Rattle.telling.specs.Plain.{sheet_or_none, verdict_as};

use crate::marks::mark;
use crate::number::Number;
use official::verdict::Verdict;

// How many bytes a name has: 0 where a sheet is not listed.
impl Number for Option<usize> {
    ghost as_number = { λ count. unwrap_or count 0 };

    fn number(self) -> u64 {
        self.unwrap_or(0) as u64
    }
}

impl Number for Verdict {
    ghost as_number = { verdict_as };

    fn number(self) -> u64 {
        match self {
            Verdict::Agrees => 0,
            Verdict::Differs => 1,
            Verdict::NotListed => 2,
        }
    }
}

pub fn tell_listed(listed: Option<u32>, value: &mut u64)
    ensures { value.new ≡ sheet_or_none listed }
{
    *value = u64::from(mark(listed));
}
