// Version 2's calls computed on images of more than 65,536 bytes, in proofs/. No code and no definitions to believe.
#![tactic(auto)]
