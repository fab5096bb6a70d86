// Where bytes come from and where they go, for code that works through them piece by piece. Each end is known by what came of it or
// went to it so far, so what is proved of such code holds for files, for memory, and for whatever else is an end.
#![tactic(auto)]

mod traits;

pub use traits::{Sink, Source};
