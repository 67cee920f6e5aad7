// Steps of both exchanges. In every state that they lead to the two keep what is promised of them.
ghost use Rattle.std.specs.Prelude.{◌≡◌, not, IfOk, IfErr};
ghost use Rattle.interworking.specs.Opening.{Fresh, NotOpened};
ghost use Rattle.interworking.specs.Runs.{Agrees};
ghost use Rattle.interworking.specs.Stepping.{Stepped, Ran};

use crate::bench::Bench;
use crate::end::End;
use crate::fault::Fault;
use crate::opening::furnish;
use crate::step::{Side, Step};
use policy::Policy;
use status::Cic;
use std::alloc::Global;

impl<P: Policy, Q: Policy> Bench<P, Q> {
    /// Both newly opened with the same first CIC and equipment, the near one with the higher point
    /// code or the far one.
    pub fn open(
        alloc: Global,
        first: Cic,
        equipment: &[u32],
        higher: bool,
        near: P,
        far: Q,
    ) -> Result<Bench<P, Q>, Fault>
    where
        P: Drop,
        Q: Drop,
        ensures opened { IfOk result (λ b.
            Fresh P.Policy.PLACES first equipment.now higher b.near
            × Fresh Q.Policy.PLACES first equipment.now (not higher) b.far) }
        ensures refused { IfErr result
            (NotOpened P.Policy.PLACES Q.Policy.PLACES first equipment.now higher) }
    {
        let near = furnish(alloc, first, equipment, higher, near)?;
        let far = furnish(alloc, first, equipment, !higher, far)?;
        Ok(Bench { near, far })
    }

    /// The near exchange.
    pub fn near(&self) -> &End<P>
        ensures { result.now ≡ self.now.near }
    {
        &self.near
    }

    /// The far exchange.
    pub fn far(&self) -> &End<Q>
        ensures { result.now ≡ self.now.far }
    {
        &self.far
    }

    /// Takes a step; how many words it told. A step that is refused, or for which memory is wanting,
    /// changes nothing.
    pub fn step(&mut self, side: Side, step: Step<'_>) -> Result<usize, Fault>
        ensures done { Stepped side step.entry result self.old.near
            self.old.far self.new.near self.new.far }
        ensures promised { Agrees self.new.near self.new.far }
    {
        match side {
            Side::Near => self.near.step(step, &mut self.far),
            Side::Far => self.far.step(step, &mut self.near),
        }
    }

    /// Takes steps in a row, and goes on after those that are refused.
    pub fn run(&mut self, steps: &[(Side, Step<'_>)])
        ensures done { Ran steps.now self.old.near self.old.far
            self.new.near self.new.far }
        ensures promised { Agrees self.new.near self.new.far }
    {
        for (side, step) in steps {
            let _ = self.step(*side, *step);
        }
    }
}
