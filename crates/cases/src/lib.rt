// Worked cases of documents 01 and 02, as theorems about the definitions: the starred ones are in proofs/Cases.antt.
#![tactic(auto)]
