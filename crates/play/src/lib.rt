// What a player of journals rests on, as laws about the definitions: specs/Play.antt says what, proofs/ has them.
#![tactic(auto)]
