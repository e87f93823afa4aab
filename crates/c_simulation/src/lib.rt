//! How a call in monitored C follows the call of the source whose translation it is: the relation between their states, and what
//! expressions without effects come to on both sides. It has laws alone.
#![tactic(auto)]

pub mod laws;
