//! Data flow: which values reach each block of code, as the least solution of the blocks' equations, and analyses of a
//! compiler by it.
#![tactic(auto)]

mod block;
mod definitions;
mod dependents;
mod expressions;
mod solver;
mod variables;
mod waiting;

pub use block::{Block, FlowBlock};
pub use definitions::{DefinitionBlock, reaching_definitions};
pub use expressions::{ExpressionBlock, available_expressions};
pub use solver::solve;
pub use variables::{VariableBlock, live_variables};
