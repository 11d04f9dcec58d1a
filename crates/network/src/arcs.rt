//! What a way through the network is made of.
pub use hour::Item;

/// A step along an item, from its tail to its head, or back from its head to its tail.
#[derive(Clone, Copy)]
pub enum Step {
    Forward(Item),
    Backward(Item),
}
