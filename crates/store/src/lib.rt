// The numbered store: sets are added, pieces of unitigs joined and closed, and a vertex's set is shown.
#![tactic(auto)]

pub mod state; // the state, and what the calls answer
mod lengths; // how long the buffers are that are lent
mod start; // a fresh store
mod altered; // 15, which every later call tests first
mod numbered; // 10, 11 and repeats, which every numbered call tests next
mod filed; // the record that a coordinate names
mod opened; // the open runs
mod add;
mod close;
mod join;
mod show;
