#![tactic(auto)]
// The specification of ZealFS version 1 as document 01 has it: definitions in specs/, computed rows in proofs/. No code.
