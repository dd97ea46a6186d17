// What every call keeps of a session, which bytes are free, and demand 3 for sessions: theorems, and no code.
#![tactic(auto)]
