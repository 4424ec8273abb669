// The laws of reading printed decks. The functions do nothing: their contracts are the laws.
ghost use Rattle.std.specs.Prelude.{◌≡◌, ◌≤◌, ◌+◌, ◌*◌, ℕ, Bool, false, List, length, map, None, Ok, Some};
ghost use Rattle.std.specs.List.{AllByRecursion};
ghost use Rattle.ground.specs.declared.fault.Refusal.{Refusal};
ghost use Rattle.ground.specs.declared.fault.Refusal.TheVariants.{Memory};
ghost use Rattle.f66_tree.specs.Syntax.{Act, Header, Routine};
ghost use Rattle.f66_tree.specs.Views.{fields_of};
ghost use Rattle.f66_tree.specs.declared.format.Field.{Field as FieldData};
ghost use Rattle.f66_check.specs.Answers.{IsSoundUnit};
ghost use Rattle.stmt_text.specs.Fitting.{IsPrintable};
ghost use Rattle.stmt_text.specs.Texts.{header_text, statement_text};
ghost use Rattle.stmt_reader.specs.Declarations.{header_of};
ghost use Rattle.stmt_reader.specs.Faults.{HeaderRead, NoHeader, Read, header_answer, text_answer};
ghost use Rattle.stmt_reader.specs.Lexing.{tokens_of};
ghost use Rattle.deck.specs.Decks.{deck_of};
ghost use Rattle.deck.specs.LongTexts.{fault_of_deck};
ghost use Rattle.deck.specs.ReadableStatements.{IsReadableAct};
ghost use Rattle.deck.specs.Written.{filled, statements_of, written_unit};
ghost use Rattle.deck_reader.specs.Answers.{IsDeckRefusal, deck_units};
ghost use Rattle.deck_laws.specs.Fitting.{FitsDeck, HasShortNames, IsShallow};
ghost use Rattle.deck_laws.specs.Headers.{HasHeader, IsReadableHeader};
ghost use Rattle.deck_laws.specs.Places.{units_at, unplaced};
ghost use Rattle.deck_laws.specs.Small.{IsSmallDeck};
ghost use Rattle.deck_laws.specs.Whole.{AreWholeFields, IsSoundDeck};

/// The text of a statement with names of six characters at most is no header (X3.9-1966, sections 7 and 8), nor is the line that a
/// deck gives for it.
pub fn statements_are_no_headers()
    ensures text { (labelled : Bool) (a : Act) → IsReadableAct a → HasShortNames a → header_answer labelled (statement_text a) ≡ NoHeader }
    ensures line { (labelled : Bool) (a : Act) → IsReadableAct a → HasShortNames a → header_answer labelled (filled 66 (statement_text a)) ≡ NoHeader }
{}

/// The text of such a statement with no more than 110 open parentheses is read as this statement and has no fault, and so is its line.
pub fn statements_are_answered()
    ensures text { (a : Act) → IsReadableAct a → HasShortNames a → IsShallow a → text_answer (statement_text a) ≡ Read a }
    ensures line { (a : Act) → IsReadableAct a → HasShortNames a → IsShallow a → text_answer (filled 66 (statement_text a)) ≡ Read a }
{}

/// The text of a header with names of six characters at most (X3.9-1966, sections 8.3 to 8.5) is read as this header, and so is its
/// line, which has no label.
pub fn headers_are_answered()
    ensures text { (h : Header) → HasHeader h → IsReadableHeader h → header_of (tokens_of (header_text h)) ≡ Some h }
    ensures line { (h : Header) → HasHeader h → IsReadableHeader h → header_answer false (filled 66 (header_text h)) ≡ HeaderRead h }
{}

/// The printed deck of units of such headers and statements gives these units again, each statement at its first card: they are the
/// same but for places.
pub fn decks_are_given_again()
    ensures units { (units : List Routine) → FitsDeck units → deck_units (deck_of units) ≡ Ok (units_at 1 units) }
    ensures places { (units : List Routine) (n : ℕ) → map unplaced (units_at n units) ≡ map unplaced units }
    ensures same { (units read : List Routine) → FitsDeck units → deck_units (deck_of units) ≡ Ok read → map unplaced read ≡ map unplaced units }
{}

/// A deck of units that fit their cards has no text that is too long.
pub fn fitting_texts_pass()
    ensures { (units : List Routine) → AllByRecursion IsPrintable units → fault_of_deck units ≡ None }
{}

/// In the format of a tree in memory only I, L, A and groups have counts, and A has a width of one.
pub fn formats_are_whole()
    ensures { (all : List FieldData) → AreWholeFields (fields_of all) }
{}

/// Sound units are sound at any cards.
pub fn soundness_asks_no_places()
    ensures { (units : List Routine) (n : ℕ) → AllByRecursion IsSoundUnit units → AllByRecursion IsSoundUnit (units_at n units) }
{}

/// A sound unit with no more than 110 open parentheses in a statement fits its cards, as far as no text passes twenty of them: the
/// rules of soundness give short names, labels of five digits, numbers in range and the characters of cards.
pub fn sound_decks_fit()
    ensures { (units : List Routine) → IsSoundDeck units → FitsDeck units }
{}

/// A text that passes no twenty cards takes 1,460 bytes at most, and an END line ten. So sound units with no more than 90,000 headers
/// and statements pass no limit on the bytes of a deck.
pub fn small_decks_pass_no_limit()
    ensures bytes { (units : List Routine) → fault_of_deck units ≡ None → length (deck_of units) ≤ 1460 * statements_of (map written_unit units) + 10 * length units }
    ensures sound { (units : List Routine) → IsSmallDeck units → IsSoundDeck units }
{}

/// So the printed deck of sound units is read as these units, the same but for places, and is refused for want of memory alone.
pub fn sound_decks_are_accepted()
    ensures read { (units read : List Routine) → IsSoundDeck units → deck_units (deck_of units) ≡ Ok read → map unplaced read ≡ map unplaced units }
    ensures accepted { (units : List Routine) (r : Refusal) → IsSoundDeck units → IsDeckRefusal (deck_units (deck_of units)) r → r ≡ Memory }
{}
