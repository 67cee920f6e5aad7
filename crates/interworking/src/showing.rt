// What a program can see of an end.
ghost use Rattle.std.specs.Prelude.{◌≡◌};
ghost use Rattle.interworking.specs.Lines.{carried};

use crate::end::End;
use crate::line::Line;
use circuit::Circuit;
use policy::Policy;
use supervision::Config;

impl<P: Policy> End<P> {
    /// The numbers of its trunk.
    pub fn config(&self) -> Config
        ensures { result ≡ self.now.config }
    {
        self.trunk.config()
    }

    /// Its circuits.
    pub fn table(&self) -> &[Circuit]
        ensures { result.now ≡ self.now.table }
    {
        &self.table
    }

    /// All words told since opening.
    pub fn told(&self) -> &[u32]
        ensures { result.now ≡ self.now.told }
    {
        &self.told
    }

    /// The line out of it.
    pub fn line(&self) -> &Line
        ensures { carried result.now ≡ self.now.line }
    {
        &self.line
    }
}
