//! What the words ask for.

/// What the program's words ask for.
#[derive(Clone, Copy)]
pub struct Options<'a> {
    /// The path of a script that is run first, as it was given.
    pub load: Option<&'a str>,
    /// How many values the calculator keeps, 1 to 1,000,000.
    pub keep: usize,
}
