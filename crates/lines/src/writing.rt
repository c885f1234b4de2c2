// Limits and lines in bytes, at the front of lent slices.
ghost use Rattle.std.specs.Prelude.{◌≡◌, ◌<◌, ◌≤◌, ◌+◌, true, ◌∷◌, ◌++◌, length};
ghost use Rattle.lines.specs.Format.{span_bytes, limit_bytes};
ghost use Rattle.lines.specs.Kinds.{kind_number};
ghost use Rattle.lines.specs.Views.{limit_view};
ghost use Rattle.numbers.specs.Lent.{WritesFront};
ghost use Rattle.parts.specs.Limits.{is_limit};
ghost use Rattle.wishes.specs.Format.{counted_bytes};

use crate::Limit;
use crate::kinds::Kind;
use numbers::Number;
use parts::Span;

impl Limit {
    pub(crate) fn len(self) -> usize
        ensures { result ≡ length (limit_bytes (limit_view self)) }
    {
        match self {
            Limit::Museums(museums) => 2 + museums.as_slice().len(),
            Limit::Days(_) | Limit::Minutes(_) => 5,
            Limit::Persons(_) => 2,
            Limit::Name(name) => 2 + name.as_slice().len(),
        }
    }

    pub(crate) fn write(self, out: &mut [u8]) -> Option<usize>
        ensures writes { WritesFront (limit_bytes (limit_view self)) out.old out.new result }
        ensures possible { is_limit (limit_view self) ≡ true }
    {
        match self {
            Limit::Museums(museums) => write_counted(Kind::Museums, museums.as_slice(), out),
            Limit::Days(days) => write_span(Kind::Days, days, out),
            Limit::Minutes(minutes) => write_span(Kind::Minutes, minutes, out),
            Limit::Persons(persons) => write_line(Kind::Persons, &[persons], &[], out),
            Limit::Name(name) => write_counted(Kind::Name, name.as_slice(), out),
        }
    }
}

fn write_counted(kind: Kind, items: &[u8], out: &mut [u8]) -> Option<usize>
    requires { length items.now ≤ 32 }
    ensures { WritesFront (kind_number kind ∷ counted_bytes items.now) out.old out.new result }
{
    // That the length fits is proved: by `try_from` there would be a branch that can't be met.
    write_line(kind, &[items.len() as u8], items, out)
}

fn write_span(kind: Kind, span: Span, out: &mut [u8]) -> Option<usize>
    ensures { WritesFront (kind_number kind ∷ span_bytes span.from span.to) out.old out.new result }
{
    write_line(kind, &span.from.to_bytes(), &span.to.to_bytes(), out)
}

/// Writes a kind and its content, in two parts. `None` if there is no room, and then nothing is written.
pub fn write_line(kind: Kind, first: &[u8], rest: &[u8], out: &mut [u8]) -> Option<usize>
    requires { length first.now + length rest.now < 256 }
    ensures { WritesFront (kind_number kind ∷ first.now ++ rest.now) out.old out.new result }
{
    let middle = 1 + first.len();
    let length = middle + rest.len();
    if out.len() < length {
        return None;
    }
    out[0] = u8::from(kind);
    out[1..middle].copy_from_slice(first);
    out[middle..length].copy_from_slice(rest);
    Some(length)
}
