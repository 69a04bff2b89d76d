// Version 2's calls computed on real images: answers, places, and whole images after them, in proofs/. No code and no definitions to believe.
#![tactic(auto)]
