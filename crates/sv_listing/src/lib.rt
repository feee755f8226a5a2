//! What is known of an application before any run: which dictionary it has, and where it asks for too much. Definitions
//! alone.
#![tactic(auto)]
