// The noise of the third demand over signed numbers, and how large it can be (docs/RULES.md, 1.3 and 4.5.3): no code, definitions and theorems.
#![tactic(auto)]
