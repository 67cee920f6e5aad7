// The iterator over the circuits that a status names.
ghost use Rattle.std.specs.Prelude.{◌≡◌, [], ◌∷◌, length, MatchOption};
ghost use Rattle.status.specs.Naming.{left_named};
ghost use Rattle.std.specs.Iterator.{at_most};

use crate::cic::Cic;
use crate::group::Group;

/// The circuits that are still to be named, rising. `Group::named` makes one.
#[derive(Clone, Copy)]
pub struct Named<'a> {
    pub(crate) first: Cic,
    pub(crate) group: Group<'a>,
    // the next bit to look at
    pub(crate) next: u16,
}

impl Iterator for Named<'_> {
    type Item = Cic;

    ghost next_gives = { λ s r t.
        MatchOption r ((left_named s ≡ []) × (t ≡ s)) (λ x. left_named s ≡ x ∷ left_named t) };

    ghost remaining = { λ s. at_most (length (left_named s)) };

    fn next(&mut self) -> Option<Cic> {
        let n = self.group.next_set(self.next)?;
        self.next = n as u16 + 1;
        Some(self.first.after(n))
    }
}
