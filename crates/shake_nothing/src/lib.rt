// No code: a theorem in which the checker computes SHAKE128 of nothing from the definitions, as an answer from outside to hold them against.
#![tactic(auto)]
