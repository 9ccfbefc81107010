//! What a search knows between two nodes, and what each act keeps of it.
//!
//! There is little code here: the specs say what holds of a search while its tree grows, and the laws say that it
//! holds at the beginning, that each act keeps it, and that the answers which follow from it are accepted. A search
//! has a history of which no code keeps anything: its solved nodes in the order of their numbers.
#![tactic(auto)]

mod incumbent;
mod laws;

pub use incumbent::Incumbent;
pub use laws::{
    beginning_law, bound_count_law, draining_law, endless_count_law, entry_key_law, improving_law,
    infeasible_law, optimal_law, parting_law, parting_lineage_law, putting_back_law, rising_law,
    room_law, settling_law, settling_lineage_law, stopped_law, stopping_in_hand_law, stopping_law,
    taking_law, waiting_key_law,
};
