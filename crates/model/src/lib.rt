// The model: what the herd is meant to do, and what is promised of it.
//
// The definitions stand in specs/. Each function here has a theorem about them for its contract,
// said in plain words above it; the function itself does nothing.
//
// state: of one call, one pass, one state
// world: of all together, herd, agents and lines, at every moment of every run
// run: of code over kept words, wherever it is cut
// cases: worked cases, by computation
#![tactic(auto)]

pub mod cases;
pub mod run;
pub mod state;
pub mod world;
