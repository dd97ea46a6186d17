// Fields of bytes, each with its place, what is read there, what is taken and what is written: definitions and laws, and no code.
#![tactic(auto)]
