//! Emphasis: delimiter runs, the pairs that they form, and the kinds of the spans that these become (CommonMark 6.2, GFM 6.5).
#![tactic(auto)]

mod bottom;
mod flanking;
pub mod laws;
mod nesting;
mod pairing;
mod quotes;
mod run;
mod span;

pub use flanking::{Flanking, flanking_of};
pub use nesting::innermost;
pub use pairing::{pair_runs, pair_two};
pub use quotes::{Quote, quote_characters, quote_of};
pub use run::{Pair, PlacedRun, Run};
pub use span::SpanKind;
