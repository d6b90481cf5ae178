#![tactic(auto)]

mod bounded;
mod compare;
mod funding;
mod laws;
mod lru;
mod policy;
mod refusal;
mod row;
mod rows;

pub use funding::MinFunding;
pub use laws::{choose_by, letters, worked_choices};
pub use lru::Lru;
pub use policy::Policy;
pub use refusal::Refusal;
pub use row::Row;
pub use rows::Rows;
