//! What attestation machines do, after Petz and Alexander, NFM 2021: the table of instructions, as one
//! equation on values for each. Definitions and laws alone, for the crates of machines and of sessions
//! that they run; they know no store, no id and no location in memory.
#![tactic(auto)]
