// The laws of the specification up to the three demands: proofs/, ending in proofs/Headline.antt. No code and no definitions to believe.
#![tactic(auto)]
