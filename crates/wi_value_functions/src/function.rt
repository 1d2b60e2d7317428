//! The functions, by how a call of one is evaluated.

use wi_fraction::Mode;

/// A function.
#[derive(Clone, Copy)]
pub enum Function {
    /// A function that evaluates its first parameter, and then one that this chooses, and no other.
    Lazy(LazyFunction),
    /// A function that takes the values of its parameters, whether they are references or not.
    Values(ValueFunction),
    /// A function that takes also what its parameters refer to.
    References(ReferenceFunction),
}

/// A function that evaluates the parameter that counts, and no other.
#[derive(Clone, Copy)]
pub enum LazyFunction {
    If,
    IfError,
    IfNa,
    Choose,
}

/// A function of values alone.
#[derive(Clone, Copy)]
pub enum ValueFunction {
    Abs,
    False,
    Int,
    /// ISBLANK and the other tests of a value.
    Is(Test),
    Mod,
    Na,
    Not,
    Power,
    Quotient,
    /// ROUND, ROUNDDOWN, ROUNDUP and TRUNC, by the mode of each.
    Round(Mode),
    Sign,
    Text(TextFunction),
    True,
    Value,
}

/// What ISBLANK, ISERR and so on test of a value.
#[derive(Clone, Copy)]
pub enum Test {
    Blank,
    Err,
    Error,
    Logical,
    Na,
    NonText,
    Number,
    Text,
}

/// A function of texts.
#[derive(Clone, Copy)]
pub enum TextFunction {
    Concatenate,
    Exact,
    Find,
    Left,
    Len,
    Mid,
    Rept,
    Right,
}

/// A function that takes references.
#[derive(Clone, Copy)]
pub enum ReferenceFunction {
    Fold(FoldFunction),
    Lookup(LookupFunction),
}

/// A function that folds the items of its parameters, the cells of references among them.
#[derive(Clone, Copy)]
pub enum FoldFunction {
    And,
    Average,
    Count,
    CountA,
    Max,
    Min,
    Or,
    Product,
    Sum,
}

/// A function that looks cells up: one that is sought or stands at a place, those that meet a criterion, or those of
/// several references place by place.
#[derive(Clone, Copy)]
pub enum LookupFunction {
    CountIf,
    HLookup,
    Index,
    Match,
    SumIf,
    SumProduct,
    VLookup,
}
