// The laws of the decks that are printed. The functions do nothing: their contracts are the laws.
ghost use Rattle.deck_room.specs.Printed.{OnePassesNoLimit, PrintedAreFew, PrintedAreShort, PrintedPassesNoLimit, ServingPassNoLimit};

/// A text of any units becomes at most four statements for each of its tokens, and three more for each unit.
pub fn printed_are_few()
    ensures { PrintedAreFew }
{}

/// Its deck has at most 500 bytes for each of its tokens, and 1,070 for each unit, where the units are sound and no text takes more
/// than twenty cards.
pub fn printed_are_short()
    ensures { PrintedAreShort }
{}

/// So the printed deck of a text of sound units, with no text of more than twenty cards, passes no limit of a deck, where the text has
/// at most 200,000 tokens, which is limit 2 of a text; and where it has one unit in any case.
pub fn cards_pass_no_limit()
    ensures any { PrintedPassesNoLimit }
    ensures one { OnePassesNoLimit }
{}

/// The units in memory that serve for those of such a text are sound, and have no such text: their deck passes no limit.
pub fn serving_units_pass_no_limit()
    ensures { ServingPassNoLimit }
{}
