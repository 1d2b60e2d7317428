//! Laws of the tokens alone.

ghost use Rattle.std.specs.Prelude.{◌≡◌, ◌↔◌, ℕ, true, List, [], ◌∷◌, ◌++◌, Some, None};
ghost use Rattle.wi_lexer.specs.Quoted.{quoted};
ghost use Rattle.wi_lexer.specs.Cell.{WrittenCell, IsCell, cell_text};
ghost use Rattle.wi_lexer.specs.Inner.Cell.{cell_of};
ghost use Rattle.wi_lexer.specs.Reference.{reference_text};
ghost use Rattle.wi_lexer.specs.Inner.Reference.{reference_of};
ghost use Rattle.wi_lexer.specs.Rectangle.{rectangle_text};
ghost use Rattle.wi_lexer.specs.Inner.Rectangle.{rectangle_of};
ghost use Rattle.wi_lexer.specs.Inner.Text.{text_content};
ghost use Rattle.wi_lexer.specs.Token.{IsToken, IsLongest, NoToken};
ghost use Rattle.wi_lexer.specs.Inner.Token.{token_at};
ghost use Rattle.wi_lexer.specs.Tokens.{Tokens, AreTokens, then_tokens};
ghost use Rattle.wi_lexer.specs.Inner.Tokens.{tokens};
ghost use Rattle.wi_lexer.specs.Inner.Ends.{ends};
ghost use Rattle.wi_lexer.specs.declared.token.Kind.{Kind};

/// What is found is the longest token.
pub fn longest_is_found()
    ensures { (bs : List ℕ) (k : Kind) (n : ℕ) → token_at bs ≡ Some (k, n) → IsLongest k n bs }
{}

/// The longest token is found.
pub fn longest_token()
    ensures { (bs : List ℕ) (k : Kind) (n : ℕ) → IsLongest k n bs → token_at bs ≡ Some (k, n) }
{}

/// Where nothing is found, no token begins.
pub fn no_token()
    ensures { (bs : List ℕ) → token_at bs ≡ None → NoToken bs }
{}

/// What is found in a whole text are its tokens, and no others are.
pub fn what_tokens_are()
    ensures { (text : List ℕ) (ts : Tokens) → AreTokens text ts ↔ (ts ≡ tokens text) }
{}

/// A token stays one where what follows doesn't go on with it.
pub fn token_and_rest()
    ensures { (k : Kind) (text rest : List ℕ) → IsToken k text → ends k rest ≡ true
        → tokens (text ++ rest) ≡ then_tokens ((k, text) ∷ []) (tokens rest) }
{}

/// A text in which a cell is found is the text of that cell.
pub fn cell_found()
    ensures { (bs : List ℕ) (c : WrittenCell) → cell_of bs ≡ Some c
        → IsCell c × (cell_text c ≡ bs) }
{}

/// Each cell is found in its text.
pub fn cell_spelled()
    ensures { (c : WrittenCell) → IsCell c → cell_of (cell_text c) ≡ Some c }
{}

/// A text in which the cell of a reference is found is the reference to that cell.
pub fn reference_found()
    ensures { (bs : List ℕ) (c : WrittenCell) → reference_of bs ≡ Some c
        → IsCell c × (reference_text c ≡ bs) }
{}

/// Each reference is found in its text.
pub fn reference_spelled()
    ensures { (c : WrittenCell) → IsCell c → reference_of (reference_text c) ≡ Some c }
{}

/// A text in which the cells of a rectangle are found is the reference to it.
pub fn rectangle_found()
    ensures { (bs : List ℕ) (c d : WrittenCell) → rectangle_of bs ≡ Some (c, d)
        → IsCell c × IsCell d × (rectangle_text c d ≡ bs) }
{}

/// Each reference to a rectangle is found in its text.
pub fn rectangle_spelled()
    ensures { (c d : WrittenCell) → IsCell c → IsCell d
        → rectangle_of (rectangle_text c d) ≡ Some (c, d) }
{}

/// Each content is found in its text in double quotes.
pub fn text_spelled()
    ensures { (content : List ℕ) → text_content (quoted content) ≡ content }
{}
