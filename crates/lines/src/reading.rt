// The content of lines, which is all that follows the kind. Each reader takes the whole of it; `None` if no such line has it.
ghost use Rattle.std.specs.Prelude.{◌≡◌, ℕ, ◌≤◌, true, List, ◌∷◌, length, MatchOption, ◌≢◌, slice_index};
ghost use Rattle.std.specs.Option.{ok_or, option_map};
ghost use Rattle.lines.specs.declared.Fault.TheVariants.{Unreadable};
ghost use Rattle.lines.specs.Format.{span_bytes};
ghost use Rattle.lines.specs.Kinds.{kind_number};
ghost use Rattle.lines.specs.Reading.{line_of};
ghost use Rattle.lines.specs.Views.{line_view};
ghost use Rattle.numbers.specs.Bytes.{two_bytes};
ghost use Rattle.parts.specs.Items.{items};
ghost use Rattle.parts.specs.Limits.{is_short};
ghost use Rattle.wishes.specs.Format.{counted_bytes};

use crate::kinds::Kind;
use crate::{Limit, Line};
use parts::{KeyNumber, Short, Span};

pub fn read_content(kind: Kind, content: &[u8]) -> Option<Line>
    ensures { ok_or (option_map line_view result) Unreadable ≡ line_of (kind_number kind ∷ content.now) }
{
    let limit = match kind {
        Kind::Museums => Limit::Museums(read_counted(content)?),
        Kind::Days => Limit::Days(read_span(content)?),
        Kind::Minutes => Limit::Minutes(read_span(content)?),
        Kind::Persons => Limit::Persons(read_persons(content)?),
        Kind::Name => Limit::Name(read_counted(content)?),
        Kind::Else => return Some(Line::Else(read_key(content)?)),
    };
    Some(Line::Limit(limit))
}

// A count, and so many bytes.
fn read_counted<const LEAST: usize, const MOST: usize, const LOW: u8, const HIGH: u8>(
    content: &[u8],
) -> Option<Short<LEAST, MOST, LOW, HIGH>>
    ensures { MatchOption result
        ((xs : List ℕ) → is_short LEAST MOST LOW HIGH xs ≡ true → content.now ≢ counted_bytes xs)
        (λ s. content.now ≡ counted_bytes (items s)) }
{
    let (count, rest) = content.split_first()?;
    if rest.len() != usize::from(*count) {
        return None;
    }
    Short::new(rest)
}

fn read_span(content: &[u8]) -> Option<Span>
    ensures { MatchOption result ((a b : ℕ) → a ≤ b → content.now ≢ span_bytes a b) (λ s. content.now ≡ span_bytes s.from s.to) }
{
    let (from, rest) = numbers::read(content)?;
    let (to, rest) = numbers::read(rest)?;
    if !rest.is_empty() {
        return None;
    }
    Span::new(from, to)
}

fn read_persons(content: &[u8]) -> Option<u8>
    ensures { MatchOption result (length content.now ≢ 1) (λ n. (length content.now ≡ 1) × (n ≡ slice_index content.now 0)) }
{
    let [persons] = content else {
        return None;
    };
    Some(*persons)
}

fn read_key(content: &[u8]) -> Option<KeyNumber>
    ensures { MatchOption result ((k : ℕ) → k ≤ 4095 → content.now ≢ two_bytes k) (λ k. content.now ≡ two_bytes k.number) }
{
    let (number, rest) = numbers::read(content)?;
    if !rest.is_empty() {
        return None;
    }
    KeyNumber::new(number)
}
