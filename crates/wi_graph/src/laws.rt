//! Laws of the definitions. Each is the contract of a function that does nothing.

ghost use Rattle.std.specs.Prelude.{◌≡◌, ◌↔◌, ℕ, true, List, length, Option};
ghost use Rattle.wi_parser.specs.declared.content.Content.{Content};
ghost use Rattle.wi_parser.specs.Sheet.{Sheet, content_of, has_formula, cells_with_formula};
ghost use Rattle.wi_graph.specs.Circular.{circular};
ghost use Rattle.wi_graph.specs.Reach.{Walks};
ghost use Rattle.wi_graph.specs.Edges.{Edges, AreEdgesOf, edges_after, sheet_after};
ghost use Rattle.wi_graph.specs.Latest.{LatestOfCone, OneIsLatest, LatestRises, LatestByStep, LatestIsAmong, EditDirties, NoneIsDirty, DirtyStays, FlushingBegins, FlushesOne};

/// A cell is circular exactly where walks of references of every length begin with it, and exactly where one does that
/// has as many steps as there are formulas and ends with a formula.
pub fn circular_cells_begin_long_walks()
    ensures every_length { (s : Sheet) (c : ℕ)
        → (circular s c ≡ true) ↔ ((n : ℕ) → (d : ℕ) × Walks n s c d) }
    ensures longest { (s : Sheet) (c : ℕ) → (circular s c ≡ true)
        ↔ ((d : ℕ) × Walks (length (cells_with_formula s)) s c d
        × (has_formula (content_of s d) ≡ true)) }
{}

/// The edges after an edit are those of the edited sheet. So what is staged and then taken is the graph of that sheet.
pub fn edges_follow_edits()
    ensures { (es : Edges) (s : Sheet) (changes : List (ℕ × Option Content)) → AreEdgesOf es s
        → AreEdgesOf (edges_after es changes) (sheet_after s changes) }
{}

/// The latest edit that a cell's value may rest on is the latest of those that named a cell which it reaches now.
pub fn latest_is_reached()
    ensures cone { LatestOfCone }
    ensures one { OneIsLatest }
    ensures rises { LatestRises }
    ensures step { LatestByStep }
    ensures among { LatestIsAmong }
{}

/// It may be stamped late, as long as it is known which cells are dirty.
pub fn latest_may_be_dirty()
    ensures edit { EditDirties }
    ensures none { NoneIsDirty }
    ensures stays { DirtyStays }
    ensures begins { FlushingBegins }
    ensures flushes { FlushesOne }
{}
