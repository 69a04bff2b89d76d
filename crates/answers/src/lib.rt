// What the results of the calls stand for: specs/Answers.antt says what each stands for, and proofs/Injective.antt that two that differ stand for two answers.
// The types are those of `outcomes`, with the refusals of this version. No code.
#![tactic(auto)]
