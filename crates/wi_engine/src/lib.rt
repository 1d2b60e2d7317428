//! Recalculation: values of cells by a stack of frames, over what is remembered, and walks along references.
#![tactic(auto)]

mod ahead;
mod asked;
mod attempt;
mod beside;
mod cone;
mod content_ref;
mod engine;
mod filled;
mod findings;
mod frame;
mod known;
mod lacking;
mod lists;
mod memo;
mod occupied;
mod placing;
mod plan;
mod planning;
mod pool;
mod question;
mod remembered;
mod rising;
mod scan;
mod stack;
mod together;
mod walk;
mod what_if;

pub use memo::Memo;
pub use placing::{PlacedCell, PlacedPlan};
pub use plan::{Plan, Planned};
pub use planning::make_plan;
pub use pool::Pool;
pub use question::Question;
pub use remembered::Remembered;
pub use walk::{reached, reached_from};
pub use what_if::what_if_alone;
