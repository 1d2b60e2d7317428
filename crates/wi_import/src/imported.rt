//! What an import gives.

use wi_parser::NewContent;
use wi_values::Rect;

/// What an import gives: what each cell gets, in the order of the fields, and the rectangles of cells that it names,
/// one for each record.
#[derive(Drop)]
pub struct Import {
    /// A content, or none where the field is empty.
    pub changes: Vec<NewContent>,
    pub named: Vec<Rect>,
}
