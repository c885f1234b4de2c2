// The parts of a wish: a label and what it is of.
ghost use Rattle.texts.specs.Cuts.{words_of};
ghost use Rattle.texts.specs.Numerals.{number_in};
ghost use Rattle.texts.specs.Results.{word_read};
ghost use Rattle.words.specs.Wishes.{field_read, field_in, name_end};
ghost use Rattle.std.specs.Prelude.{◌≡◌};

use texts::{Cause, Unsigned, after_label, next_word, number, optional_word};

/// The number after the label, and what follows it.
pub fn field<'a, N: Unsigned>(label: &str, text: &'a str) -> Result<(N, &'a str), Cause>
where
    N::Error: Drop,
    ensures { field_read result ≡ field_in (number_in N.most N.value) label.now (words_of text.now) }
{
    let (word, rest) = after_label(label, text)?;
    Ok((number(word)?, rest))
}

/// The name, with which a wish ends.
pub fn name_field(text: &str) -> Result<&str, Cause>
    ensures { word_read result ≡ name_end (words_of text.now) }
{
    let Some((label, rest)) = next_word(text) else {
        return Ok("");
    };
    if label != "name" {
        return Err(Cause::UnknownWord);
    }
    optional_word(rest)
}
