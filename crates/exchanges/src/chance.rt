// Steps by chance, from a seed.
ghost use Rattle.std.specs.Prelude.{◌<◌};

use interworking::{Side, Step};
use message::CallKind;
use status::Cic;
use supervision::Order;

// A linear congruential generator.
#[derive(Clone, Copy)]
pub struct Chance(pub u64);

impl Chance {
    // A number below a limit.
    fn below(&mut self, limit: u64) -> u64
        requires { 0 < limit }
        ensures { result < limit }
    {
        self.0 = self
            .0
            .wrapping_mul(6_364_136_223_846_793_005)
            .wrapping_add(1_442_695_040_888_963_407);
        (self.0 >> 33) % limit
    }

    // One of the first circuits, so that messages about one circuit cross often.
    fn circuit(&mut self) -> Cic {
        Cic(1 + self.below(4) as u16)
    }

    pub fn side(&mut self) -> Side {
        if self.below(2) == 0 {
            Side::Near
        } else {
            Side::Far
        }
    }

    // Three steps in four receive, so that the lines are empty now and then.
    pub fn step(&mut self) -> Step<'static> {
        if self.below(4) > 0 {
            return Step::Receive;
        }
        match self.below(10) {
            0 => Step::Expire {
                timer: 1 + self.below(23) as u8,
                at: self.below(5) as u16,
                kind: self.below(2) as u8,
            },
            1 => Step::Call {
                cic: self.circuit(),
                kind: CallKind::Anm,
                body: &[0x01],
            },
            _ => Step::Order(self.order()),
        }
    }

    fn order(&mut self) -> Order<'static> {
        match self.below(9) {
            0 | 1 => Order::Seize(&[0x0a]),
            2 => Order::Release {
                cic: self.circuit(),
                location: 4,
                value: 16,
            },
            3 => Order::Block(self.circuit()),
            4 => Order::Unblock(self.circuit()),
            5 => Order::Reset(self.circuit()),
            6 => Order::GroupBlock {
                kind: self.below(2) as u8,
                system: 0,
                mask: 2 * self.below(16) as u32,
            },
            7 => Order::GroupUnblock {
                kind: self.below(2) as u8,
                system: 0,
                mask: 2 * self.below(16) as u32,
            },
            _ => Order::GroupReset(0),
        }
    }
}
