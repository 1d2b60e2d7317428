//! Laws of the grammar alone.

ghost use Rattle.std.specs.Prelude.{◌≡◌, ◌↔◌, ℕ, ◌≤◌, pos, true, List, length, Some, Result, Ok, Err, suc};
ghost use Rattle.wi_values.specs.Address.{is_within_one};
ghost use Rattle.wi_lexer.specs.Token.{IsToken};
ghost use Rattle.wi_lexer.specs.Inner.Tokens.{tokens};
ghost use Rattle.wi_lexer.specs.declared.token.Kind.{Kind};
ghost use Rattle.wi_parser.specs.declared.content.Content.{Content};
ghost use Rattle.wi_parser.specs.declared.fault.ParseFault.{ParseFault};
ghost use Rattle.wi_parser.specs.Tree.{Tree};
ghost use Rattle.wi_parser.specs.Symbol.{Symbol};
ghost use Rattle.wi_parser.specs.Inner.Levels.{Spells, loosest};
ghost use Rattle.wi_parser.specs.Nesting.{depth};
ghost use Rattle.wi_parser.specs.Inner.Deepest.{deepest};
ghost use Rattle.wi_parser.specs.Spelling.{spelling, IsSpelling};
ghost use Rattle.wi_parser.specs.Inner.Reader.{whole};
ghost use Rattle.wi_parser.specs.Inner.FormulaText.{formula_symbols, symbol_of, symbols_of};
ghost use Rattle.wi_parser.specs.Limits.{max_formula};
ghost use Rattle.wi_parser.specs.Inner.Reading.{IsWithinLimits, parsed, content_read};
ghost use Rattle.wi_parser.specs.Symbols.{Means, AreSymbols};
ghost use Rattle.wi_parser.specs.Contents.{IsFormulaText, IsNoFormulaText, IsTextOf};
ghost use Rattle.wi_parser.specs.Inner.Parsed.{IsParsed};
ghost use Rattle.wi_parser.specs.Inner.Answered.{IsAnsweredAs};
ghost use Rattle.wi_parser.specs.Printing.{printed};
ghost use Rattle.wi_parser.specs.Writable.{IsFormulaTree};
ghost use Rattle.wi_parser.specs.Reads.{reads, rectangles_of};
ghost use Rattle.wi_parser.specs.Shift.{in_sheet, shifted};
ghost use Rattle.wi_parser.specs.Inner.Moves.{all_references};

/// A text means a symbol exactly where it is a token of some kind that stands for it.
pub fn what_tokens_mean()
    ensures { (text : List ℕ) (s : Symbol) → Means text s
        ↔ ((k : Kind) × IsToken k text × (symbol_of k text ≡ s)) }
{}

/// The symbols of a text are those of its tokens, and it has no others.
pub fn what_symbols_are()
    ensures { (text : List ℕ) (ts : List Symbol) → AreSymbols text ts
        ↔ (symbols_of (tokens text) ≡ ts) }
{}

/// The symbols of a formula's text are those of what follows its `=`.
pub fn what_formula_symbols_are()
    ensures { (text body : List ℕ) (ts : List Symbol) → IsFormulaText text body
        → AreSymbols body ts ↔ (formula_symbols text ≡ ts) }
{}

/// A formula's text is parsed as one tree, or refused for one cause.
pub fn what_is_parsed()
    ensures { (text body : List ℕ) (r : Result Tree ParseFault) → IsFormulaText text body
        → IsParsed text r ↔ (parsed text ≡ r) }
{}

/// A text stands for one content where it has no fault, and is refused for the first fault that it has.
pub fn what_a_content_is()
    ensures { (text : List ℕ) (r : Result Content ParseFault) → IsAnsweredAs text r
        ↔ (content_read text ≡ r) }
{}

/// What is read from symbols is spelled by them.
pub fn what_is_read()
    ensures { (d : ℕ) (ts : List Symbol) (t : Tree) → whole d ts ≡ Some t → Spells loosest t ts }
{}

/// What is spelled is read, where it does not nest too deep.
pub fn what_is_spelled()
    ensures { (d : ℕ) (ts : List Symbol) (t : Tree) → Spells loosest t ts → depth t ≤ d
        → whole (suc d) ts ≡ Some t }
{}

/// No symbols spell two trees.
pub fn one_tree()
    ensures { (t u : Tree) (ts : List Symbol) → Spells loosest t ts → Spells loosest u ts → t ≡ u }
{}

/// No text has two trees.
pub fn one_tree_of_a_text()
    ensures { (text : List ℕ) (t u : Tree) → IsTextOf text t → IsTextOf text u → t ≡ u }
{}

/// A text that is no formula's is refused.
pub fn what_no_formula_is()
    ensures { (text : List ℕ) → IsNoFormulaText text → (e : ParseFault) × (parsed text ≡ Err e) }
{}

/// A tree nests no deeper than the parentheses of its symbols.
pub fn no_deeper()
    ensures { (t : Tree) (ts : List Symbol) → Spells loosest t ts → depth t ≤ deepest 0 ts }
{}

/// A tree has one spelling.
pub fn one_spelling()
    ensures { (k : ℕ) (t : Tree) (ts : List Symbol) → Spells k t ts → ts ≡ spelling t }
{}

/// The levels of the grammar spell the grammatical trees, each by its spelling.
pub fn what_the_levels_spell()
    ensures { (t : Tree) (ts : List Symbol) → IsSpelling t ts ↔ Spells loosest t ts }
{}

/// A text is read as a tree exactly where it spells the tree within the limits.
pub fn what_a_text_is()
    ensures { (text : List ℕ) (t : Tree) → (parsed text ≡ Ok t)
        ↔ (IsWithinLimits text × Spells loosest t (formula_symbols text)) }
{}

/// The symbols of a formula as printed are those that spell its tree, however long its text is.
pub fn printed_symbols()
    ensures { (t : Tree) → IsFormulaTree t → formula_symbols (printed t) ≡ spelling t }
{}

/// A formula as printed is read as its tree, where its text is not too long.
pub fn printed_reads_back()
    ensures { (t : Tree) → IsFormulaTree t → length (printed t) ≤ max_formula
        → parsed (printed t) ≡ Ok t }
{}

/// A formula whose references are in the sheet stays as it is where it moves by nothing.
pub fn shifted_by_nothing()
    ensures { (t : Tree) → all_references in_sheet t ≡ true → shifted (pos 0) (pos 0) t ≡ Some t }
{}

/// A tree reads exactly the cells of its rectangles.
pub fn what_is_in_its_rectangles()
    ensures { (t : Tree) (a : ℕ) → reads t a ≡ is_within_one (rectangles_of t) a }
{}
