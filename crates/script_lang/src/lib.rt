// The script grammar: which texts are scripts, and the list of commands that each says.
#![tactic(auto)]

mod call_forms;
mod commands;
mod core_forms;
mod forms;
mod grammar;
pub mod laws;
mod lines;
mod progress;
mod recipe_forms;
mod recipes;
mod record_forms;

pub use commands::{Command, ParseFault, RegionSet, Script};
pub use grammar::parse;
pub use recipes::{Recipe, RecipeLine};
pub use word_kinds::{Cause, name};
