//! From the files of a call to their trees: the bytes of each, its tokens, the trees of the model and of the data files, and the types of the
//! model's expressions; or why the call ends there.
#![tactic(auto)]

mod data_files;
mod fetching;
mod front;
mod load;
mod names;
mod reading;
mod refusal;
mod scanning;
mod stop;

pub use fetching::fetch;
pub use front::Front;
pub use names::name_at;
pub use reading::read;
pub use refusal::{Fault, ItemFault, Refusal};
pub use scanning::Tokens;
pub use stop::{Stop, refused};
