// What the code of version 2 knows of an image whose header is right, and of a sound one (paper 02 §12). Definitions and laws, no code.
#![tactic(auto)]
