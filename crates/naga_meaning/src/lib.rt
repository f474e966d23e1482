//! What function bodies of the shader IR compute, and laws that passes keep it.
//!
//! A body has a meaning under an interpretation: functions that say what each operator computes, what each statement
//! does to a state and whether it ends the run, how a value decides a condition, and which case a switch enters, by the
//! values of its selector and cases. The meaning is the outcome: the final state, how the body ended, and the value that
//! it returned. The laws hold for every interpretation, every bound on the turns of loops and every start.
//!
//! There is nothing to call here. Each law is a function that does nothing and whose contract states the law.
//! `specs/Values.antt` defines interpretations and outcomes, `specs/Functions.antt` the meaning of a function,
//! `specs/Readings.antt` which expressions are evaluated where they are used, and `specs/Things.antt` what the handles of
//! a module represent.
#![tactic(auto)]

pub mod laws;
