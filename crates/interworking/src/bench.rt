// Two exchanges and the lines between them.
ghost use Rattle.interworking.specs.Runs.{Reached};

use crate::end::End;
use policy::Policy;

/// Some run led to every value: from both newly opened, by any steps.
#[derive(Drop)]
pub struct Bench<P: Policy, Q: Policy> {
    pub(crate) near: End<P>,
    pub(crate) far: End<Q>,
    ghost run: { ∥ Reached near far ∥₁ },
}
