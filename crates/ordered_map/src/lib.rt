#![tactic(auto)]

// An ordered map in a lent table of records: a search tree balanced by the rule of Adelson-Velsky and Landis (1962).
mod chain;
mod edit;
mod enter;
mod excise;
mod head;
mod key;
mod label;
mod laws;
mod least;
mod locate;
mod map;
mod node;
mod path;
mod rise;
mod search;
mod take;

pub use head::Head;
pub use key::Key;
pub use label::Label;
pub use laws::finds_after_putting_down;
pub use map::OrderedMap;
pub use node::Node;
