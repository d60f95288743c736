// The rules of the two queues, and how each call changes what its pass knows.
ghost use Rattle.std.specs.Prelude.{◌≡◌, ◌+◌, ◌≤◌, ℕ, [], ◌∷◌, ◌++◌, length};

use crate::item::{JobItem, ResultItem};
use crate::view::View;
use crossbeam_queue::protocol::{Join, Lesson, Outcome, Protocol, Split};
use std::marker::{Brand, PhantomData};

/// The size of a board. The call that makes the board picks it.
pub(crate) trait Size {
    ghost jobs: { ℕ };

    ghost workers: { ℕ };
}

impl Size for Brand {
    ghost jobs = { 0 };

    ghost workers = { 0 };
}

/// The rule of the job queue.
pub(crate) struct JobsInOrder;

impl<J> Protocol<JobItem<J>, View<JobItem<J>>> for JobsInOrder {
    ghost use Rattle.job_board.specs.Queue.{InOrder, root};
    ghost use Rattle.job_board.specs.Items.{job_cost};

    ghost holds = { InOrder job_cost };

    ghost first = { root };
}

/// The rule of the result queue.
pub(crate) struct ResultsInOrder;

impl<R> Protocol<ResultItem<R>, View<ResultItem<R>>> for ResultsInOrder {
    ghost use Rattle.job_board.specs.Queue.{InOrder, root};
    ghost use Rattle.job_board.specs.Items.{no_cost};

    ghost holds = { InOrder no_cost };

    ghost first = { root };
}

// Makes a pass that only takes.
pub(crate) struct Taking<S: Size> {
    of: PhantomData<S>,
}

impl<J, S: Size> Split<View<JobItem<J>>> for Taking<S> {
    ghost use Rattle.std.specs.Prelude.{◌+◌};
    ghost use Rattle.job_board.specs.Queue.{after_split, split_off};

    ghost left = { after_split (S.jobs + S.workers) S.jobs 0 };

    ghost right = { split_off (S.jobs + S.workers) S.jobs 0 };
}

impl<R, S: Size> Split<View<ResultItem<R>>> for Taking<S> {
    ghost use Rattle.std.specs.Prelude.{◌+◌, ◌*◌};
    ghost use Rattle.job_board.specs.Queue.{after_split, split_off};

    ghost left = { after_split (S.jobs * S.workers + 1) 0 0 };

    ghost right = { split_off (S.jobs * S.workers + 1) 0 0 };
}

// Makes a pass that may put a result for each job.
pub(crate) struct Putting<S: Size> {
    of: PhantomData<S>,
}

impl<R, S: Size> Split<View<ResultItem<R>>> for Putting<S> {
    ghost use Rattle.std.specs.Prelude.{◌+◌, ◌*◌};
    ghost use Rattle.job_board.specs.Queue.{after_split, split_off};

    ghost left = { after_split (S.jobs * S.workers + 1) 0 S.jobs };

    ghost right = { split_off (S.jobs * S.workers + 1) 0 S.jobs };
}

// Takes a pass back.
pub(crate) struct Returns;

impl<X> Join<View<X>> for Returns {
    ghost use Rattle.job_board.specs.Queue.{after_join, spent_view};

    ghost both = { after_join };

    ghost spent = { spent_view };
}

pub(crate) struct Puts;

impl<J> Outcome<JobItem<J>, View<JobItem<J>>> for Puts {
    ghost use Rattle.job_board.specs.Queue.{after_put};
    ghost use Rattle.job_board.specs.Items.{job_cost};

    ghost then = { λ v x w. w ≡ after_put job_cost v x };
}

impl<R> Outcome<ResultItem<R>, View<ResultItem<R>>> for Puts {
    ghost use Rattle.job_board.specs.Queue.{after_put};
    ghost use Rattle.job_board.specs.Items.{no_cost};

    ghost then = { λ v x w. w ≡ after_put no_cost v x };
}

impl<X> Lesson<X, View<X>> for Puts {
    ghost fact = { λ v items. length items + v.items_left ≤ v.capacity };
}

pub(crate) struct Takes;

impl<J> Outcome<JobItem<J>, View<JobItem<J>>> for Takes {
    ghost use Rattle.job_board.specs.Queue.{after_take, total_cost};
    ghost use Rattle.job_board.specs.Items.{job_cost};

    ghost then = { λ v x w. (w ≡ after_take v x) × (total_cost job_cost w.taken ≤ v.limit) };
}

impl<R> Outcome<ResultItem<R>, View<ResultItem<R>>> for Takes {
    ghost use Rattle.job_board.specs.Queue.{after_take};

    ghost then = { λ v x w. w ≡ after_take v x };
}

impl<X> Lesson<X, View<X>> for Takes {
    ghost use Rattle.job_board.specs.Queue.{IsPartOf};

    ghost fact = { IsPartOf };
}

// The first pass takes what is left, when all others are back.
pub(crate) struct Drains;

impl<X> Outcome<X, View<X>> for Drains {
    ghost use Rattle.job_board.specs.Queue.{after_take};

    ghost then = { λ v x w. (w ≡ after_take v x) × (length w.taken ≤ v.capacity) };
}

impl<X> Lesson<X, View<X>> for Drains {
    ghost use Rattle.job_board.specs.Queue.{History};

    ghost fact = { λ v items. History ((v.put, []) ∷ v.returned) (v.taken ++ items) };
}
