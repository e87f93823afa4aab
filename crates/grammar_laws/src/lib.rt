//! That the grammars of C and of monitored C are those that the heads of their files have, production by production. The functions have
//! nothing to do.
#![tactic(auto)]

pub mod annotations;
pub mod declarations;
pub mod expressions;
pub mod files;
pub mod monitored;
pub mod statements;
