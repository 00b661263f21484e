// No code: key generation, encapsulation and decapsulation one after the other, as the calls leave things: the third demand of the calls themselves.
#![tactic(auto)]
