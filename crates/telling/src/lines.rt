// Parts of catalogue lines and captions. Nothing refuses them.
ghost use Rattle.std.specs.Prelude.{◌≡◌};
ghost use Rattle.telling.specs.Plain.{source, part_of, caption_at};

use catalogue::parts::Spans;

pub fn tell_spans(at: Spans, label: &mut u64, start: &mut u64, end: &mut u64)
    ensures label_after { label.new ≡ at.label }
    ensures start_after { start.new ≡ at.start }
    ensures end_after { end.new ≡ at.end }
{
    *label = at.label as u64;
    *start = at.start as u64;
    *end = at.end as u64;
}

// The caption of a line whose parts lie so, beside a fallback of that length.
pub fn tell_caption(at: Spans, length: usize, value: &mut u64, start: &mut u64, end: &mut u64)
    ensures value_after { value.new ≡ source (caption_at at length) }
    ensures start_after { start.new ≡ (part_of (caption_at at length)).start }
    ensures end_after { end.new ≡ (part_of (caption_at at length)).end }
{
    if at.bare {
        *value = 1;
        *start = 0;
        *end = length as u64;
        return;
    }
    *value = 0;
    *start = at.start as u64;
    *end = at.end as u64;
}
