// Catalogue lines, their parts and captions.
ghost use Rattle.std.specs.Prelude.{◌≡◌};
ghost use Rattle.catalogue.specs.Line.{read_line};
ghost use Rattle.catalogue.specs.Parts.{label_part, name_part, caption};
ghost use Rattle.names.specs.Name.{SameName};
ghost use Rattle.names.specs.Given.{Tells};
ghost use Rattle.telling.specs.Told.{status, carried};
ghost use Rattle.telling.specs.Plain.{source, part_of};

use catalogue::line::read_line;
use catalogue::parts::spans_of;
use names::same_name;
use telling::lines::{tell_caption, tell_spans};
use telling::number::tell;

#[unsafe(no_mangle)]
pub extern "C" fn qubathimi_read_line(line: &[u8], value: &mut u64) -> u32
    ensures value { result ≡ status (read_line line.now) }
    ensures value_after { value.new ≡ carried (read_line line.now) }
{
    tell(read_line(line), value)
}

#[unsafe(no_mangle)]
pub extern "C" fn qubathimi_line_parts(
    line: &[u8],
    label: &mut u64,
    start: &mut u64,
    end: &mut u64,
) -> u32
    ensures value { result ≡ 0 }
    ensures label_after { label.new ≡ (label_part line.now).end }
    ensures start_after { start.new ≡ (name_part line.now).start }
    ensures end_after { end.new ≡ (name_part line.now).end }
{
    tell_spans(spans_of(line), label, start, end);
    0
}

#[unsafe(no_mangle)]
pub extern "C" fn qubathimi_caption(
    line: &[u8],
    fallback: &[u8],
    value: &mut u64,
    start: &mut u64,
    end: &mut u64,
) -> u32
    ensures value { result ≡ 0 }
    ensures value_after { value.new ≡ source (caption line.now fallback.now) }
    ensures start_after { start.new ≡ (part_of (caption line.now fallback.now)).start }
    ensures end_after { end.new ≡ (part_of (caption line.now fallback.now)).end }
{
    tell_caption(spans_of(line), fallback.len(), value, start, end);
    0
}

#[unsafe(no_mangle)]
pub extern "C" fn qubathimi_same_name(a: &[u8], b: &[u8]) -> bool
    ensures { Tells result (SameName a.now b.now) }
{
    same_name(a, b)
}
