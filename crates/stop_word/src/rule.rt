// The rule of the word, and how each step changes what its seat knows.
use atomic_table::{Join, Play, Split, TableRule};

/// What a seat knows. No value of it is made.
pub struct View {
    /// Whether it is the stopper's.
    pub stopper: bool,
    /// Whether the stopper has stopped.
    pub stopped: bool,
    /// Whether a watcher has seen the word stopped. The stopper's view says so of the watchers that it took back.
    pub seen: bool,
}

/// The word is 1 exactly if the stopper has stopped, and is seen so only then.
pub(crate) struct StopRule;

impl TableRule<u8, View, ()> for StopRule {
    ghost use Rattle.stop_word.specs.Stops.{Stops, first_view};

    ghost holds = { λ _ s. Stops s.words s.views };

    ghost first = { λ _. first_view };
}

// A watcher is made of the stopper, and taken back.
pub(crate) struct Watches;

impl Split<View> for Watches {
    ghost use Rattle.stop_word.specs.Stops.{watcher_view};

    ghost left = { λ v. v };

    ghost right = { λ v. watcher_view };
}

impl Join<View> for Watches {
    ghost use Rattle.stop_word.specs.Stops.{view_of_both, watcher_view};

    ghost both = { view_of_both };

    ghost spent = { watcher_view };
}

pub(crate) struct Stores;

impl Play<u8, View> for Stores {
    ghost use Rattle.stop_word.specs.Stops.{after_stop};
    ghost use Rattle.std.specs.Prelude.{◌≡◌};

    ghost then = { λ s m n w. (w.0 ≡ after_stop m.0) × (w.1 ≡ m.1) };
}

pub(crate) struct Loads;

impl Play<u8, View> for Loads {
    ghost use Rattle.stop_word.specs.Stops.{after_load};
    ghost use Rattle.std.specs.Prelude.{◌≡◌};

    ghost then = { λ s m n w. (w.0 ≡ after_load m.0 n) × (w.1 ≡ m.1) };
}

// A load by the stopper, which compares what was seen with what it has done.
pub(crate) struct Compares;

impl Play<u8, View> for Compares {
    ghost use Rattle.std.specs.Prelude.{◌≡◌, true};

    ghost then = { λ s m n w. (w.0 ≡ m.0) × (w.1 ≡ m.1) × (m.0.stopper ≡ true → m.0.seen ≡ true → m.0.stopped ≡ true) };
}
