// The writer's definitions and what is proved of them: specs/ and proofs/. There is no code here.
#![tactic(auto)]
