//! What files keep of the state of the plain machine, and what a stop among commands may leave. Definitions and theorems, no code.
#![tactic(auto)]
