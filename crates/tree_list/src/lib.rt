// The tree list model's operations. Each is public, asks nothing of its caller, and answers by one
// definition of model's specs/; what it cannot serve it refuses with the `Refusal` of document 01's number.
#![tactic(auto)]

mod blank;
mod checks;
mod closing;
mod counting;
mod fetching;
mod items;
mod logs;
mod opening;
mod releasing;
mod rows;
mod starting;
mod updating;
mod visits;

pub use closing::close;
pub use counting::count;
pub use fetching::fetch;
pub use opening::open;
pub use releasing::release;
pub use starting::new;
pub use updating::update;
