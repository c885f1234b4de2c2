// The laws of lines; those of wishes are passed on. Each function only carries a theorem: its contract is the statement.
ghost use Rattle.lines.specs.Laws.{LinesBack, LinesExact, FormatTells, LinesNoTie, NamesApart, LineTwice};

pub use wishes::laws::{wish_format, wishes_back, wishes_exact};

/// Every line that can be is read back from its bytes as it was.
pub fn lines_back()
    ensures { LinesBack }
{}

/// Whatever is read as a line is written as just these bytes.
pub fn lines_exact()
    ensures { LinesExact }
{}

/// Which bytes are lines and which have which fault, in the format's own words.
pub fn format_tells()
    ensures { FormatTells }
{}

/// No line is the message of a tie.
pub fn lines_no_tie()
    ensures { LinesNoTie }
{}

/// Two different names hold together for no wish.
pub fn names_apart()
    ensures { NamesApart }
{}

/// A line that stands on a ticket or a yes already adds nothing.
pub fn line_twice()
    ensures { LineTwice }
{}
