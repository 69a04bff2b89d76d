// The laws behind the codes of refusals over any version of the format (paper 02 §12): a call's number and place are so small that one number of 64 bits
// tells both. No code and no definitions to believe.
#![tactic(auto)]
