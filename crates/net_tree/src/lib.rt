//! Networks: their trees, steps of certificates over them, and their measures.
//!
//!     let weight = weight(alloc, &net)?;
//!     let again = net.try_copy(alloc)?;
//!     let is_equal = same_net(&net, &again);
//!
//! Contracts see a `Net` as a `Network` (`tree_of`), over leaves of any type; copies share their
//! parts. `weight`, `height` and `measured` answer what the definitions of these names say.
//! `Position` is the list of child numbers that leads to a part; `LawStep` says at which part which
//! law is taken.
//!
//! First `specs/Network`, then `specs/Weight` and `Height`, then `src/net.rt`.
#![tactic(auto)]

mod equal;
mod forms;
mod law_step;
mod limits;
mod measure;
mod net;
mod position;

pub use equal::{Parts, form_number, parts_inside, same_net};
pub use forms::{FedForm, LeafForm, PairForm};
pub use law_step::{Direction, LAST_EXPRESSION_LAW, LAST_NETWORK_LAW, Law, LawStep, Tree, TreeRef};
pub use limits::{MOST_DELAY, MOST_MEMBERS, MOST_WAIT};
pub use measure::{MOST_HEIGHT, MOST_SIZE, MOST_WEIGHT, Measures, height, measured, weight};
pub use net::{Members, Net, NetChild};
pub use position::{Position, push_position};
