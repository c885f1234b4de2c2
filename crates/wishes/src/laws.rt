// The laws of wishes. Each function only carries a theorem: its contract is the statement.
ghost use Rattle.wishes.specs.Laws.{WishesBack, WishesExact, WishFormat};

/// Every wish is read back from its bytes as it was.
pub fn wishes_back()
    ensures { WishesBack }
{}

/// Whatever is read as a wish is written as just these bytes.
pub fn wishes_exact()
    ensures { WishesExact }
{}

/// Which bytes begin with a wish, in the format's own words.
pub fn wish_format()
    ensures { WishFormat }
{}
