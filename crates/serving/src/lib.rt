// The herd's code: waking from kept words, and answering a line over them.
//
// `answer` is the function that the programs call for each line. Its contract says that it carries out `herd_code`, on any device,
// to its end or cut in it, and that this code is right for the meaning of lines: of every run of it, over every list of lines,
// with the power failing between any two stores, each answer is one that the meaning gives, and what was answered stands.
#![tactic(auto)]

pub mod answer;
pub mod bars;
pub mod respond;
pub mod wake;
