// Document 01's run texts, machine, holdings and programs as definitions: specs/ has them, proofs/ their laws. There is no code here: the crates above have it.
#![tactic(auto)]
