// One end of the lines.
use crate::line::Line;
use circuit::Circuit;
use policy::Policy;
use std::marker::Model;
use supervision::Trunk;

/// An exchange with a table and a policy of its own, what it told, and the line out of it.
#[derive(Drop)]
pub struct End<P: Policy> {
    pub(crate) trunk: Trunk,
    pub(crate) table: Vec<Circuit>,
    pub(crate) policy: P,
    // all words told since opening
    pub(crate) told: Vec<u32>,
    pub(crate) line: Line,
}

impl<P: Policy> Model for End<P> {
    ghost use Rattle.interworking.specs.Exchanges.{Exchange};

    ghost Value = { Exchange };

    ghost use Rattle.interworking.specs.Lines.{carried};

    ghost view = { λ e. record {
      config = e.trunk.config;
      table = e.table.items;
      held = P.Policy.held e.policy;
      told = e.told.items;
      line = carried e.line;
    } };

    ghost use Rattle.std.specs.Prelude.{◌≡◌, length};
    ghost use Rattle.supervision.specs.Trunks.{places};

    ghost invariant = { λ e. length e.table.items ≡ places e.trunk.config };
}
