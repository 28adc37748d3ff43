//! What the programs and the library for C do around the parser: reading to the end, writing to the end, a run from one to the other and
//! its faults, and the result of a call from C.
#![tactic(auto)]

mod fault;
mod read;
mod render;
mod room;
pub mod run;
mod watched;
mod write;

pub use fault::{RunFault, status};
pub use read::read_all;
pub use render::Render;
pub use room::{DONE, NO_MEMORY, NOT_UTF8, TOO_LONG, answer, hand_over};
pub use watched::{Notes, PATIENCE, Watched};
pub use write::write_text;
