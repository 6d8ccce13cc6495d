//! Lists that contracts see as plain lists, whatever memory lies behind them.
#![tactic(auto)]

mod ample;
mod few;
mod pool;
mod reserved;
mod sequence;

pub use ample::Ample;
pub use few::Few;
pub use pool::Pool;
pub use reserved::Reserved;
pub use sequence::Sequence;
