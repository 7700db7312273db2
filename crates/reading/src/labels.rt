// Label to sheet: its form, and then what its numbers name.
ghost use Rattle.std.specs.Prelude.{◌≡◌, ℕ, false, ◌≤◌, length};
ghost use Rattle.refusal.specs.Numbers.{on_paper, paper};
ghost use Rattle.label.specs.Label.{well_formed, formed, read_label};
ghost use Rattle.reckoning.specs.Reckoning.{not_named};

use crate::numbers::numbers_in;
use arrayvec::ArrayVec;
use division::table::Scale;
use fault::place::{faulty_field, field_start, strange_byte};
use reckoning::{Unnamed, sheet_named};
use refusal::Refusal;

// Why a label of at most 16 bytes is not well formed: a second pass, over a label that the first has refused. Each kind of fault is sought in
// the whole label before the next: 4, 19, 20.
pub(crate) fn form_fault(bytes: &[u8]) -> Refusal
    requires bytes_len_bound { length bytes.now ≤ 16 }
    requires bytes_value { well_formed bytes.now ≡ false }
    ensures { on_paper result ≡ formed bytes.now }
{
    if bytes.is_empty() {
        return Refusal::LabelLength(0);
    }
    let strange = strange_byte(bytes);
    if strange < bytes.len() {
        return Refusal::StrangeByte(strange);
    }
    Refusal::FieldForm(faulty_field(bytes))
}

// Why the numbers of a label name no sheet: 21, or 5 where the first field out of range begins.
pub(crate) fn not_named(why: Unnamed, label: &[u8]) -> Refusal
    ensures { on_paper {A = ℕ} result ≡ not_named why label.now }
{
    match why {
        Unnamed::Scale => Refusal::NamesNoScale,
        Unnamed::Number(_, k) => Refusal::FieldRange(field_start(label, k)),
    }
}

// The sheet that a label names.
pub fn read_label(bytes: &[u8]) -> Result<u32, Refusal>
    ensures { paper result ≡ read_label bytes.now }
{
    if 16 < bytes.len() {
        return Err(Refusal::LabelLength(16));
    }
    let mut numbers = ArrayVec::<u64, 8>::new();
    if numbers_in(bytes, &mut numbers) != Some(bytes.len()) {
        return Err(form_fault(bytes));
    }
    match sheet_named(numbers.as_slice()) {
        Ok(named) => Ok(Scale(named.scale).first() + named.reach.index),
        Err(why) => Err(not_named(why, bytes)),
    }
}
