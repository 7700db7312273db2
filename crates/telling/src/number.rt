// Answers of one number: a status and a value.
ghost use Rattle.std.specs.Prelude.{◌≡◌, ℕ};
ghost use Rattle.refusal.specs.Numbers.{on_paper, paper};
ghost use Rattle.telling.specs.Told.{status, carried, told_as};

use refusal::Refusal;

// What is told as one number.
pub trait Number {
    // the number that tells it
    ghost as_number: { Self → ℕ };

    fn number(self) -> u64
        ensures { result ≡ as_number self };
}

// A sheet, a holding, a count: the number itself.
impl Number for u32 {
    ghost as_number = { λ n. n };

    fn number(self) -> u64 {
        u64::from(self)
    }
}

impl Number for usize {
    ghost as_number = { λ n. n };

    fn number(self) -> u64 {
        self as u64
    }
}

pub(crate) fn tell_refusal(why: Refusal, value: &mut u64) -> u32
    ensures value { result ≡ status (on_paper {A = ℕ} why) }
    ensures value_after { value.new ≡ carried (on_paper why) }
{
    let told = why.numbered();
    *value = told.value.unwrap_or(0) as u64;
    told.number
}

pub fn tell<T: Number>(answer: Result<T, Refusal>, value: &mut u64) -> u32
    ensures value { result ≡ status (paper answer) }
    ensures value_after { value.new ≡ told_as T.as_number (paper answer) }
{
    match answer {
        Ok(answered) => {
            *value = answered.number();
            0
        }
        Err(why) => tell_refusal(why, value),
    }
}
