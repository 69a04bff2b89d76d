#![tactic(auto)]
// The laws of directories, walks and changes over any view of an image, so for every version of the format (paper 02 §12). No code and no
// definitions to believe.
