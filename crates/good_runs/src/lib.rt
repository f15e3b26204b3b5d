//! What a good run is: the first paths with a verdict for each direction, every test a test, every proof a proof, and each
//! refutation shared by all faults that it refutes; and what follows for the reader of a verdict.
//! Stands on pd_base, netlist, path_laws, state_sets, state_laws, trees and runs, and has no code.
//! The layers above cite `IsGoodRun`, `IsShortestRun`, `IsTruth` and `AllKeepPromises` (specs/), and that the verdicts of a good run keep their
//! promises (proofs/Promising.antt): what each tells (proofs/Verdicts.antt), and what it is bound to be (proofs/Completeness.antt).
#![tactic(auto)]
