// The machine of document 01: every event, on the one block. A step is planned in `steps` and performed here.
#![tactic(auto)]

mod dispatch;
mod recovery;
mod work;

pub use dispatch::apply;
