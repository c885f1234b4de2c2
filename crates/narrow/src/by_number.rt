// The theorems on tickets whose limits are numbers, each the contract of a function that only carries it.
ghost use Rattle.narrow.specs.Numbered.Promise.{TicketGiven, YesGiven, Narrower, LineLess, MoreGiven, Main};

// Whoever has a ticket was given one that it extends.
pub fn numbered_ticket_given()
    ensures { TicketGiven }
{}

// Whoever has a yes has its key, or was given one that it narrows.
pub fn numbered_yes_given()
    ensures { YesGiven }
{}

// A line more lets no more through.
pub fn numbered_narrower()
    ensures { Narrower }
{}

// A line more on what was given lets one do no more.
pub fn numbered_line_less()
    ensures { LineLess }
{}

// Whoever was given more can do no less.
pub fn numbered_more_given()
    ensures { MoreGiven }
{}

// A wish can be let through exactly where the program says so, by what it says to show.
pub fn numbered_main()
    ensures { Main }
{}
