//! The command line of the programs, the file of entities that it names, and their exit statuses.
#![tactic(auto)]

mod ending;
mod entities;
mod flags;
mod line;
mod program;
mod starting;

pub use ending::finish;
pub use entities::{NamedEntities, read_entities};
pub use line::{LineFault, Settings, parse_line};
pub use program::Program;
pub use starting::{RunSettings, Stop, read_entity_file, start, start_with};
