#![tactic(auto)]

mod bytes;
mod laws;
mod lent;
mod moves;
mod refusal;
mod sizes;
mod store;

pub use bytes::tell_bytes;
pub use laws::stores_keep_their_pages;
pub use lent::Lent;
pub use moves::move_page;
pub use refusal::Refusal;
pub use sizes::{check_sizes, is_page_size};
pub use store::PageStore;
