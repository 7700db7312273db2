// The scale of a label's numbers.
ghost use Rattle.std.specs.Prelude.{◌≡◌};
ghost use Rattle.reckoning.specs.Given.{marked};

// The scale that a label names, if it names one: the first number and the count of fields together decide it. By the first
// number, and then by the count, as document 01 asks ("What to write where").
#[tactic(auto, unfolding(label::specs::Label::scale_with, label::specs::Label::mark_of, label::specs::Label::count_of, division::specs::Table::table, division::specs::Table::table_row, division::specs::Words::from, division::specs::Words::keep))]
pub(crate) fn scale_named(mark: u64, count: usize) -> Option<u32>
    ensures { result ≡ marked mark count }
{
    match mark {
        250 => match count {
            3 => Some(1),
            _ => None,
        },
        100 => match count {
            3 => Some(2),
            _ => None,
        },
        50 => match count {
            3 => Some(3),
            _ => None,
        },
        25 => match count {
            4 => Some(4),
            _ => None,
        },
        10 => match count {
            4 => Some(5),
            _ => None,
        },
        5 => match count {
            5 => Some(6),
            6 => Some(9),
            _ => None,
        },
        2 => match count {
            4 => Some(7),
            _ => None,
        },
        1 => match count {
            5 => Some(8),
            _ => None,
        },
        _ => None,
    }
}
