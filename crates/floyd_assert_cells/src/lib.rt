//! Parts of memory: what a heaplet has where an object of a type has a value. Definitions and laws, which no code runs.
#![tactic(auto)]

mod laws;

pub use laws::{
    arrays_and_structs, layouts_of_objects, objects_at_paths, objects_in_shares, scalars_in_memory,
    whole_objects, worked_examples,
};
