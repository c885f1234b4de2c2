// Words that are told by the word before them.
ghost use Rattle.texts.specs.Cuts.{words_of};
ghost use Rattle.texts.specs.Labels.{labelled, only_after, pair_after};
ghost use Rattle.texts.specs.Results.{word_read, pair_read, cut_read};
ghost use Rattle.std.specs.Prelude.{◌≡◌};

use crate::Cause;
use crate::cut::{last_of, word_and_rest};

/// The word after the label, and what follows it.
pub fn after_label<'a>(label: &str, text: &'a str) -> Result<(&'a str, &'a str), Cause>
    ensures { pair_read result ≡ labelled label.now (words_of text.now) }
{
    let (word, rest) = word_and_rest(text)?;
    if word != label {
        return Err(Cause::UnknownWord);
    }
    word_and_rest(rest)
}

/// The word after the label, where there is no more.
pub fn only_after<'a>(label: &str, text: &'a str) -> Result<&'a str, Cause>
    ensures { word_read result ≡ only_after label.now (words_of text.now) }
{
    let (word, rest) = after_label(label, text)?;
    last_of(word, rest)
}

/// The words after two labels, where there are no more.
pub fn pair_after<'a>(first: &str, second: &str, text: &'a str) -> Result<(&'a str, &'a str), Cause>
    ensures { cut_read result ≡ pair_after first.now second.now (words_of text.now) }
{
    let (word, rest) = after_label(first, text)?;
    Ok((word, only_after(second, rest)?))
}
