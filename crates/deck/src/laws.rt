// The laws of decks.
ghost use Rattle.std.specs.Prelude.{◌≡◌, ℕ, ◌<◌, ◌≤◌, List, [], ◌∷◌, ◌++◌, decimal, length, map, true, false, Some, None};
ghost use Rattle.std.specs.List.{AllByRecursion};
ghost use Rattle.f66_tree.specs.Syntax.{Act, Formula, Routine};
ghost use Rattle.card_reader.specs.Reading.{read_deck_cards, Reading};
ghost use Rattle.stmt_text.specs.Texts.{formula_text, statement_text};
ghost use Rattle.stmt_reader.specs.Levels.{stands};
ghost use Rattle.stmt_reader.specs.Lexing.{is_in_chars, lexed, tokens_of};
ghost use Rattle.stmt_reader.specs.Machine.{expression_of};
ghost use Rattle.stmt_reader.specs.Statements.{after_word, statement_of};
ghost use Rattle.stmt_reader.specs.declared.token.Token.TheVariants.{Chars};
ghost use Rattle.stmt_reader.specs.declared.lexer.Part.TheVariants.{Clear, InWord};
ghost use Rattle.deck.specs.Decks.{deck_of};
ghost use Rattle.deck.specs.Endings.{part_after};
ghost use Rattle.deck.specs.Readable.{is_readable};
ghost use Rattle.deck.specs.ReadableStatements.{IsReadableAct};
ghost use Rattle.deck.specs.ReadBack.{IsReadableMain, said, units_of};
ghost use Rattle.deck.specs.Written.{IsWritable, deck_lines, filled, statements_of, written_unit};

/// A printed deck gives its headers and statements again, each with blanks up to the end of its last card, and no fault.
pub fn decks_are_read()
    ensures { (units : List Routine) → AllByRecursion (AllByRecursion IsWritable) (map written_unit units) → 0 < length units → length units ≤ 600 → statements_of (map written_unit units) ≤ 2000000 → length (deck_of units) ≤ 134217728
        → read_deck_cards (deck_of units) ≡ record { front = []; lines = deck_lines 1 (map written_unit units); fault = None } }
{}

/// The text of an expression of the grammar is read as this expression.
pub fn expressions_are_read()
    ensures { (e : Formula) → stands 0 e ≡ true → is_readable e ≡ true → expression_of (tokens_of (formula_text e [])) ≡ Some e }
{}

/// The text of a statement is read as this statement.
pub fn statements_are_read()
    ensures { (a : Act) → IsReadableAct a → statement_of (tokens_of (statement_text a)) ≡ Some a }
{}

/// What stands behind the letters that name a statement is read as if it stood alone.
pub fn keywords_are_taken()
    ensures { (letters text : List ℕ) → after_word letters (lexed (InWord letters) text) ≡ Some (lexed (Clear false) text) }
{}

/// The blanks that a reader adds up to the end of the last card add no token, unless a Hollerith text goes on there.
pub fn blanks_are_nothing()
    ensures { (text : List ℕ) → is_in_chars (part_after (Clear false) text) ≡ false → tokens_of (filled 66 text) ≡ tokens_of text }
{}

/// A Hollerith text is read with all its characters, where digits may begin one.
pub fn hollerith_texts_are_read()
    ensures { (text k : List ℕ) → length text ≤ 2147483647 → lexed (Clear true) (decimal (length text) ++ 72 ∷ (text ++ k)) ≡ Chars text ∷ lexed (Clear false) k }
{}

/// The line that a deck gives for a statement is read as this statement.
pub fn statement_lines_are_read()
    ensures { (a : Act) → IsReadableAct a → statement_of (tokens_of (filled 66 (statement_text a))) ≡ Some a }
{}

/// The printed deck of mains is read as their statements, each with its label.
pub fn mains_are_read()
    ensures { (units : List Routine) → AllByRecursion IsReadableMain units → AllByRecursion (AllByRecursion IsWritable) (map written_unit units) → 0 < length units → length units ≤ 600 → statements_of (map written_unit units) ≤ 2000000
        → length (deck_of units) ≤ 134217728 → units_of (read_deck_cards (deck_of units)).lines ≡ Some (map (λ (unit : Routine). map said unit.lines) units) }
{}
