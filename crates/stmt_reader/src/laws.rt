// The laws of reading.
ghost use Rattle.std.specs.Prelude.{◌≡◌, ℕ, List, [], ◌∷◌, true, Some};
ghost use Rattle.std.specs.List.{AllByRecursion};
ghost use Rattle.f66_tree.specs.Syntax.{Act, Assign, Declared, Formula};
ghost use Rattle.stmt_reader.specs.declared.token.Token.{Token as TokenData};
ghost use Rattle.stmt_reader.specs.declared.token.Token.TheVariants as t;
ghost use Rattle.stmt_reader.specs.Declarations.{declarations_of};
ghost use Rattle.stmt_reader.specs.Exactness.{IsDeclared, IsProper, SpellsAssignment, SpellsCall, SpellsChoice, SpellsCondition, SpellsList, SpellsSign};
ghost use Rattle.stmt_reader.specs.Formats.{Items, items_of, spell_items};
ghost use Rattle.stmt_reader.specs.Levels.{stands};
ghost use Rattle.stmt_reader.specs.Lexing.{tokens_of};
ghost use Rattle.stmt_reader.specs.Machine.{expression_of};
ghost use Rattle.stmt_reader.specs.Spelled.{spell_declared};
ghost use Rattle.stmt_reader.specs.Spelling.{spell, spell_members};
ghost use Rattle.stmt_reader.specs.Statements.{assignment_of, call_of, computed_of, condition_of, place_if, sign_of};

/// The tokens that spell an expression of the grammar give it, and what gives an expression spells it.
pub fn expressions_are_exact()
    ensures spelled { (e : Formula) → stands 0 e ≡ true → expression_of (spell e []) ≡ Some e }
    ensures taken { (tokens : List TokenData) (e : Formula) → AllByRecursion IsProper tokens → expression_of tokens ≡ Some e → (stands 0 e ≡ true) × (spell e [] ≡ tokens) }
{}

/// The same of assignments.
pub fn assignments_are_exact()
    ensures spelled { (x e : Formula) → place_if x ≡ Some x → stands 0 x ≡ true → stands 0 e ≡ true → assignment_of (spell x (t.Equals ∷ spell e [])) ≡ Some (Assign x e) }
    ensures taken { (tokens : List TokenData) (a : Act) → AllByRecursion IsProper tokens → assignment_of tokens ≡ Some a → SpellsAssignment tokens a }
{}

/// The tokens that spell what a format has, as it is written, give it, and no others do.
pub fn formats_are_exact()
    ensures spelled { (all : Items) → items_of (spell_items all []) ≡ Some all }
    ensures taken { (tokens : List TokenData) (all : Items) → items_of tokens ≡ Some all → spell_items all [] ≡ tokens }
{}

/// Each word among the tokens of a text is a name.
pub fn tokens_are_proper()
    ensures { (text : List ℕ) → AllByRecursion IsProper (tokens_of text) }
{}

/// What stands behind CALL is read exactly.
pub fn calls_are_exact()
    ensures spelled { (tokens : List TokenData) (a : Act) → SpellsCall tokens a → call_of tokens ≡ Some a }
    ensures taken { (tokens : List TokenData) (a : Act) → AllByRecursion IsProper tokens → call_of tokens ≡ Some a → SpellsCall tokens a }
{}

/// The same of a computed GO TO.
pub fn choices_are_exact()
    ensures spelled { (tokens : List TokenData) (a : Act) → SpellsChoice tokens a → computed_of tokens ≡ Some a }
    ensures taken { (tokens : List TokenData) (a : Act) → AllByRecursion IsProper tokens → computed_of tokens ≡ Some a → SpellsChoice tokens a }
{}

/// The same of an arithmetic IF.
pub fn signs_are_exact()
    ensures spelled { (tokens : List TokenData) (a : Act) → SpellsSign tokens a → sign_of tokens ≡ Some a }
    ensures taken { (tokens : List TokenData) (a : Act) → AllByRecursion IsProper tokens → sign_of tokens ≡ Some a → SpellsSign tokens a }
{}

/// The same of the condition of a logical IF.
pub fn conditions_are_exact()
    ensures spelled { (e : Formula) (rest : List TokenData) → stands 0 e ≡ true → condition_of (t.Open ∷ spell e (t.Close ∷ rest)) ≡ Some (e, rest) }
    ensures taken { (tokens : List TokenData) (c : Formula × List TokenData) → AllByRecursion IsProper tokens → condition_of tokens ≡ Some c → SpellsCondition tokens c }
{}

/// The same of the names of a type statement, a DIMENSION, and an area of a COMMON.
pub fn declarations_are_exact()
    ensures spelled { (d : Declared) (ds : List Declared) → IsDeclared d → AllByRecursion IsDeclared ds → declarations_of (spell_members spell_declared t.Comma d ds []) ≡ Some (d ∷ ds) }
    ensures taken { (tokens : List TokenData) (ds : List Declared) → AllByRecursion IsProper tokens → declarations_of tokens ≡ Some ds → SpellsList IsDeclared spell_declared t.Comma tokens ds }
{}
