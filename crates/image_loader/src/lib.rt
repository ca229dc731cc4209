// What a run needs of an image that passes the check: an index of its lists.
#![tactic(auto)]

mod loading;

pub use loading::{Loaded, load};
