// What the results of the calls on a cartridge of version 2 stand for (paper 02 §12): specs/Answers.antt says what each stands for, and proofs/Injective.antt that two
// that differ stand for two answers. The types are those of `outcomes`, with the refusals of this version. No code.
#![tactic(auto)]
