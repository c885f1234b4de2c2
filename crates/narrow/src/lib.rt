// The model: MACs as terms, what can be derived from what somebody was given, what the house lets through, and what `can` says.
// The definitions stand in specs/, the proofs in proofs/. Each function here only carries a theorem: its contract is the statement,
// and without the proof the crate is refused.
#![tactic(auto)]

mod by_number;

ghost use Rattle.narrow.specs.Promise.{MakesWithin, MakesOnly, KeysGiven, TicketGiven, YesGiven, TieGiven, TodayClosed, LetsMeans, ShownNarrower};
ghost use Rattle.narrow.specs.Promise.{Sound, Complete, AttackersMeet, FewYeses, MoreCovered, LineLess, MoreGiven, MoreHolds};
ghost use Rattle.narrow.specs.TermBytes.{SameOrBroken, ShownOrBroken, CanOrBroken, FormatsApart, InputsGive, CanOrHmacBroken};
ghost use Rattle.narrow.specs.Worked.{WorkedCases};

pub use by_number::{
    numbered_line_less, numbered_main, numbered_more_given, numbered_narrower,
    numbered_ticket_given, numbered_yes_given,
};

// What is made by adding lines, making yeses under given keys and tying can be derived.
pub fn makes_within()
    ensures { MakesWithin }
{}

// Whoever can derive a ticket's MAC was given that ticket with its last lines left off, perhaps none.
pub fn ticket_given()
    ensures { TicketGiven }
{}

// Whoever can derive a yes's MAC has its key, or was given it with its last limits left off, perhaps none.
pub fn yes_given()
    ensures { YesGiven }
{}

// Whoever can derive a tie was given it, or can derive both its parts.
pub fn tie_given()
    ensures { TieGiven }
{}

// The policy of today takes with a ticket those with its last lines left off.
pub fn today_closed()
    ensures { TodayClosed }
{}

// What `lets` decides, in words of its own.
pub fn lets_means()
    ensures { LetsMeans }
{}

// A line more on what is shown lets no more through.
pub fn shown_narrower()
    ensures { ShownNarrower }
{}

// Where `can` says yes, what it shows can be made of what was given, and is let through.
pub fn sound()
    ensures { Sound }
{}

// Where something can be derived that is let through, `can` says yes; where it says no, it shows nothing.
pub fn complete()
    ensures { Complete }
{}

// Where the wide attacker is let through, the narrow one is.
pub fn attackers_meet()
    ensures { AttackersMeet }
{}

// What is shown has no more yeses than lines.
pub fn few_yeses()
    ensures { FewYeses }
{}

// Whoever has each thing that somebody else has, or has it with last lines left off, can no less.
pub fn more_covered()
    ensures { MoreCovered }
{}

// A line more on a given thing, wherever it stands, never turns no into yes.
pub fn line_less()
    ensures { LineLess }
{}

// More given, in any order, never turns yes into no.
pub fn more_given()
    ensures { MoreGiven }
{}

// `can` knows the wish only through what lines say.
pub fn more_holds()
    ensures { MoreHolds }
{}

// Two terms with the same bytes are the same, or parts of them have the same bytes from different sources.
pub fn same_or_broken()
    ensures { SameOrBroken }
{}

// What is shown with right bytes can be derived, or it is broken there.
pub fn shown_or_broken()
    ensures { ShownOrBroken }
{}

// Complete, on bytes: `can` says yes, or it is broken there.
pub fn can_or_broken()
    ensures { CanOrBroken }
{}

// No message of the formats is that of a tie; so between terms that MAC only such messages, what is broken is HMAC itself.
pub fn formats_apart()
    ensures { FormatsApart }
{}

// Worked cases: what is shown for some rows of given things.
pub fn worked_cases()
    ensures { WorkedCases }
{}

// Nobody derives the house's key, and whoever derives key k was given it.
pub fn keys_given()
    ensures { KeysGiven }
{}

// What the narrow attacker makes is what was given, or the term of a ticket, a yes or a tie.
pub fn makes_only()
    ensures { MakesOnly }
{}

// The input of HMAC is what a term's bytes are worked out from.
pub fn inputs_give()
    ensures { InputsGive }
{}

// Complete, on bytes, where only the formats' messages are MACed: `can` says yes, or HMAC itself is broken there.
pub fn can_or_hmac_broken()
    ensures { CanOrHmacBroken }
{}
