// The laws of calls over any version of the format (paper 02 §12): one call, and lists of calls. No code and no definitions to believe.
#![tactic(auto)]
