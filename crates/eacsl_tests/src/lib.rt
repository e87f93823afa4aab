//! Tests of public calls of the layers, of what no text shows that `tests/run` gives to the program, and a few texts through the top call.
//!
//! A test is proved before it runs, and each `assert_eq!` in it costs seconds. So a module has few of them, in functions that its
//! tests call with plain values.
#![tactic(auto)]

// texts and grammars
#[cfg(test)]
mod annotations;
#[cfg(test)]
mod layouts;
#[cfg(test)]
mod monitored;
#[cfg(test)]
mod printing;
#[cfg(test)]
mod reading;

// code and the machine
#[cfg(test)]
mod forms;
#[cfg(test)]
mod lowering;
#[cfg(test)]
mod machine;
#[cfg(test)]
mod memory;
#[cfg(test)]
mod runtime;
#[cfg(test)]
mod shadow;

// ranges and conversions
#[cfg(test)]
mod numbers;

// the outside
#[cfg(test)]
mod host;
#[cfg(test)]
mod ports;

// the whole
#[cfg(test)]
mod broken;
#[cfg(test)]
mod engine;
#[cfg(test)]
mod program;

// what the tests compare with
#[cfg(test)]
mod same;
