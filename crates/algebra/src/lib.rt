// No code: finite sums, congruence mod q, matrices of words, and whole numbers with a sign, with their laws.
#![tactic(auto)]
