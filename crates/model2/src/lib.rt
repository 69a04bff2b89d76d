// Version 2 of the format as paper 02 §12 has it: definitions in specs/, computed rows in proofs/. No code, and no promise yet cites them.
#![tactic(auto)]
