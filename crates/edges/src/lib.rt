// Numbers on each side of an edge (docs/RULES.md, 5): no code, one table and the theorem that covers it.
#![tactic(auto)]
