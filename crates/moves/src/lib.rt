// Paper 02 §13: an image with its pages at new places, and the proposals that say where.
#![tactic(auto)]
