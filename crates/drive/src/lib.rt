// A schedule played as its bytes come in, a piece at a time: what the programs that play one have in common.
#![tactic(auto)]

mod player;

pub use player::Player;
