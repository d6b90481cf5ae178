#![tactic(auto)]

mod pool;

pub use pool::FramePool;
