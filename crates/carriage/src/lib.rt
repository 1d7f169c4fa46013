// A carriage takes cells from a near end to a far end. What every carriage keeps to, and the queue, the simplest one.
#![tactic(auto)]

mod carriage;
mod fate;
mod laws;
mod queue;

pub use carriage::Carriage;
pub use fate::Fate;
pub use laws::puts_arrive;
pub use queue::Queue;
