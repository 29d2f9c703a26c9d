// What the programs print of a board and of its frame.
#![tactic(auto)]

pub mod blocks;
pub mod boards;
pub mod frames;
pub mod lines;
pub mod show;

// A value as the programs print it.
#[derive(Clone, Copy)]
pub struct Shown<T>(pub T);
