//! Rows by computation: what the definitions of annotated C say of small texts, trees and runs, each as a closed lemma.
//!
//! They stand above the definitions, so that a row more proves nothing else anew.
#![tactic(auto)]
