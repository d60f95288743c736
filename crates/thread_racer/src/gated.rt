// A gate that somebody else keeps.
use disk_model::Gate;

/// A gate that its owner still sees.
#[derive(Drop)]
pub struct Gated<'a, G> {
    pub(crate) gate: &'a G,
}

impl<G: Gate> Gate for Gated<'_, G> {
    fn pass(&self, worker: u32, job: u32) {
        self.gate.pass(worker, job);
    }
}
