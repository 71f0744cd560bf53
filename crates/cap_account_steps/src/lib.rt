//! Steps of a frame: points of its body, and states that rest while others act. Lemmas alone.
#![tactic(auto)]
