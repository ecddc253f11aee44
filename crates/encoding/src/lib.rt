// What the clauses of a written file mean and how many there are: specs/ and proofs/. No code stands here.
#![tactic(auto)]
