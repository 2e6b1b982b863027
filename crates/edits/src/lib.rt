// Steps of the operations carried out in place, as the Rust does: the nodes, the totals up the chain, the
// regions and the published count are edited, and the model ends as its new nodes give it.
//
// Each takes any `Model`, with soundness and what holds of the node as clauses: docs/PROMISES.md relies on these
// functions, and a type with that invariant would ask more of a caller.
#![tactic(auto)]

mod closed;
mod grown;
mod opened;
mod visiting;

pub use closed::close_node;
pub use grown::{end_of, grow_node};
pub use opened::open_node;
pub use visiting::{grow_step, set_version};
