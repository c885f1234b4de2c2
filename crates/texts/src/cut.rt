// A text cut into words: spaces, tabs and carriage returns part them, as many as there are.
ghost use Rattle.std.specs.Prelude.{◌≡◌, [], ◌∷◌, MatchOption};
ghost use Rattle.std.specs.Option.{option_map};
ghost use Rattle.texts.specs.Cuts.{words_of, one_word, maybe_word, last_word, head_tail};
ghost use Rattle.texts.specs.Labels.{next, no_more};
ghost use Rattle.texts.specs.Results.{word_read, pair_read, both_parts, cut_read};

use crate::Cause;

/// What parts words.
pub const GAPS: [char; 3] = [' ', '\t', '\r'];

/// The first word, and what follows it.
pub fn next_word(text: &str) -> Option<(&str, &str)>
    ensures { MatchOption result (words_of text.now ≡ []) (λ p. words_of text.now ≡ p.0.now ∷ words_of p.1.now) }
{
    let trimmed = text.trim_start_matches(GAPS);
    if trimmed.is_empty() {
        return None;
    }
    Some(trimmed.split_once(GAPS).unwrap_or((trimmed, "")))
}

/// The same, where there has to be a word.
pub fn word_and_rest(text: &str) -> Result<(&str, &str), Cause>
    ensures { pair_read result ≡ next (words_of text.now) }
{
    next_word(text).ok_or(Cause::MissingWord)
}

/// What stands before the last word, and that word.
// `next_word` from the other end: other calls of the library, and the other order in the pair.
pub fn last_word(text: &str) -> Option<(&str, &str)>
    ensures { option_map both_parts result ≡ last_word text.now }
{
    let trimmed = text.trim_end_matches(GAPS);
    if trimmed.is_empty() {
        return None;
    }
    Some(trimmed.rsplit_once(GAPS).unwrap_or(("", trimmed)))
}

// The word, where no other follows it.
pub(crate) fn last_of<'a>(word: &'a str, rest: &str) -> Result<&'a str, Cause>
    ensures { word_read result ≡ no_more word.now (words_of rest.now) }
{
    match next_word(rest) {
        None => Ok(word),
        Some(_) => Err(Cause::TooManyWords),
    }
}

/// The one word that there is.
pub fn only_word(text: &str) -> Result<&str, Cause>
    ensures { word_read result ≡ one_word (words_of text.now) }
{
    let (word, rest) = word_and_rest(text)?;
    last_of(word, rest)
}

/// The one word that there is, and the empty word where there is none.
pub fn optional_word(text: &str) -> Result<&str, Cause>
    ensures { word_read result ≡ maybe_word (words_of text.now) }
{
    match next_word(text) {
        None => Ok(""),
        Some((word, rest)) => last_of(word, rest),
    }
}

/// What stands before the first colon, and after it.
pub fn head_and_tail(text: &str) -> Result<(&str, &str), Cause>
    ensures { cut_read result ≡ head_tail text.now }
{
    text.split_once(':').ok_or(Cause::MissingWord)
}
