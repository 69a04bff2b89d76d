// Where a path leads on the bytes of an image, and what a call answers and does there, over any version of the format (paper 02 §12). No code.
#![tactic(auto)]
