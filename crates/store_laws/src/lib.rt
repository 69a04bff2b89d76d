// Paper 02 §11: what is promised of a store that survives a pull (specs/Demand.antt), and why it holds. No code.
#![tactic(auto)]
