//! Typed networks: what stands where in a network, of what type, and what may stand there instead.
//!
//!     let below = at(&net, &position);
//!     let needs = leaves(alloc, &typed)?;
//!     let whole = replace(alloc, &net, &position, &tree)?;
//!
//! A `TypedNet` is a network within the limits, with its types. `at`, `replace`, `type_at` and
//! `leaves` answer what the definitions of these names say. Typed networks output typed values
//! (`typing_laws`); what does the same may stand for what stood at a position (`replacing_laws`).
//! Networks themselves are in `net_tree`, what they denote in `net_meaning`; those of their calls
//! that describe whole networks are reachable here too.
//!
//! First `specs/Standing`, then `specs/Placed`, then `src/typed_net.rt`.
#![tactic(auto)]

mod arrow;
mod laws;
mod need;
mod needs;
mod output;
mod part_types;
mod place;
mod replacing;
mod scope;
mod standing;
mod typed_net;

pub use arrow::Arrow;
pub use laws::{replacing_laws, typing_laws};
pub use need::LeafNeed;
pub use needs::leaves;
pub use net_meaning::{
    congruence_laws, output_examples, stream_laws, switching_laws, weight_examples,
};
pub use net_tree::{
    Direction, Law, LawStep, Members, Net, NetChild, Position, Tree, height, same_net, weight,
};
pub use part_types::{arrow_from, event_with, list_of, pair_under};
pub use place::{Binds, Place, at, bound_in, child, place_below};
pub use replacing::replace;
pub use scope::ScopeTypes;
pub use standing::{Standing, child_standing, type_at};
pub use typed_net::TypedNet;
