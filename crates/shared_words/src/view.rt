// What is known of a seat.
use std::collections::LinkedList;

/// A step on a guest's word. It exists in proofs alone.
pub struct Touch {
    /// The index of the word in the table.
    pub word: u64,
    /// The word that the step found. A store finds what it stores.
    pub found: u64,
}

/// A word that was stored. It exists in proofs alone.
pub struct Stored {
    /// The index of the word in the table.
    pub word: u64,
    pub value: u64,
}

/// What is known of a seat. It exists in proofs alone.
pub struct View {
    /// The tickets that the seat took, in order.
    pub tickets: LinkedList<u64>,
    /// How many tickets it may still take.
    pub budget: u64,
    /// How many steps on guest words it took.
    pub steps: u64,
    /// The last one.
    pub last: Touch,
    /// The words that it stored, in order.
    pub stored: LinkedList<Stored>,
}
