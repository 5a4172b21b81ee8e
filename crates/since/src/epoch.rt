// A value in epochs: a number, and an index over a length.
ghost use Rattle.std.specs.Prelude.{◌≡◌};
ghost use Rattle.since.specs.Epoch.{epoch_of, epoch_well_formed, divisor, parts, epoch_leb};

// The lowest bit of the index and that of the length, and what each is below.
const INDEX: u64 = 0x100_0000;

const LENGTH: u64 = 0x100_0000_0000;

const BOUND: u64 = 0x1_0000;

// N, I and L of N + I / L.
#[derive(Clone, Copy)]
pub(crate) struct Epoch {
    pub number: u32,
    pub index: u16,
    pub length: u16,
}

impl From<u64> for Epoch {
    ghost from_gives = { λ value e. e ≡ epoch_of value };

    #[tactic(auto, unfolding(crate::specs::Epoch::epoch_of))]
    fn from(value: u64) -> Epoch {
        Epoch {
            number: (value % INDEX) as u32,
            index: (value / INDEX % BOUND) as u16,
            length: (value / LENGTH % BOUND) as u16,
        }
    }
}

impl Epoch {
    #[tactic(auto, unfolding(crate::specs::Epoch::epoch_well_formed))]
    pub fn is_well_formed(self) -> bool
        ensures { result ≡ epoch_well_formed self }
    {
        self.index < self.length || self.index == 0 && self.length == 0
    }

    // What the fraction is over, where 0 over 0 counts as 0 over 1.
    #[tactic(auto, unfolding(crate::specs::Epoch::divisor))]
    fn divisor(self) -> u64
        ensures { result ≡ divisor self }
    {
        self.length.max(1) as u64
    }

    // All of the value, in parts of which the divisor makes an epoch.
    #[tactic(auto, using(crate::proofs::EpochOrder::bounds), unfolding(crate::specs::Epoch::parts))]
    fn parts(self) -> u64
        ensures { result ≡ parts self }
    {
        self.number as u64 * self.divisor() + self.index as u64
    }

    // Whether it is not later than another.
    #[tactic(auto, using(crate::proofs::EpochOrder::bounds), unfolding(crate::specs::Epoch::epoch_leb))]
    pub fn leb(self, other: Epoch) -> bool
        ensures { result ≡ epoch_leb self other }
    {
        self.parts() * other.divisor() <= other.parts() * self.divisor()
    }
}
