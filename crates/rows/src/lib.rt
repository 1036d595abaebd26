// The labels of all stations gathered into one array of rows, and the searches over them. Stations count from 0.
#![tactic(auto)]

pub mod choice;
pub mod order;
pub mod ring;
