// Document 01 worked by hand: its examples marked P, and the inputs that shut out each dud. There is no code here: see proofs/.
#![tactic(auto)]
