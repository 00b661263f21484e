// No code: FrodoKEM's key generation, encapsulation and decapsulation as definitions, the noise and its margin, and the third demand with its proof.
#![tactic(auto)]
