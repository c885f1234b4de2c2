// The laws of words. Each function only carries a theorem: its contract is the statement.
ghost use Rattle.words.specs.Laws.{LinesReadBack, WishesReadBack};

/// What is printed of a line is read as just that line.
pub fn lines_read_back()
    ensures { LinesReadBack }
{}

/// What is printed of a wish in range is read as just that wish.
pub fn wishes_read_back()
    ensures { WishesReadBack }
{}
