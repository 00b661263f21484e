// No code: the laws that walks of a function's MIR by hand share, where a struct is lent by &mut or holds a reference.
#![tactic(auto)]
