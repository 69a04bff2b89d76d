// The specification computed on real images: document 01's cases and the second table, in proofs/. No code and no definitions to believe.
#![tactic(auto)]
