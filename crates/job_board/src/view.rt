// What a pass knows of a queue.
use std::collections::LinkedList;

/// What a pass knows of a queue. No value of it is made.
pub struct View<X> {
    /// The pass's number. The first pass has 0.
    pub number: u64,
    /// How many passes there are, if this is the first one.
    pub made: u64,
    /// Whether the pass was taken back.
    pub spent: bool,
    /// How many items may be put in all.
    pub capacity: u64,
    /// How many jobs may be put in all.
    pub limit: u64,
    /// How many items this pass may still put.
    pub items_left: u64,
    /// How many jobs this pass may still put.
    pub cost_left: u64,
    /// What the pass put.
    pub put: LinkedList<X>,
    /// What the pass took.
    pub taken: LinkedList<X>,
    /// What the passes that were taken back put and took, in order of their numbers.
    pub returned: LinkedList<(LinkedList<X>, LinkedList<X>)>,
}
