// The fields of a since, and the order of what they mean.
ghost use Rattle.std.specs.Prelude.{◌≡◌};
ghost use Rattle.since.specs.Since.{since_fields, well_formed, value_leb, reached};

use crate::epoch::Epoch;

// The relative flag, the lowest bit of the metric flag, and that of the five reserved ones, below which is the value.
const RELATIVE: u64 = 0x8000_0000_0000_0000;

const METRIC: u64 = 0x2000_0000_0000_0000;

const RESERVED: u64 = 0x100_0000_0000_0000;

const EPOCHS: u8 = 1;

const NO_METRIC: u8 = 3;

#[derive(Clone, Copy)]
struct Since {
    // 1 where the value counts from the block that has the input's cell, 0 where it is absolute.
    relative: u8,
    // 0 blocks, 1 epochs, 2 seconds; 3 is none.
    metric: u8,
    reserved: u8,
    value: u64,
}

impl From<u64> for Since {
    ghost from_gives = { λ since s. s ≡ since_fields since };

    #[tactic(auto, unfolding(crate::specs::Since::since_fields))]
    fn from(since: u64) -> Since {
        Since {
            relative: (since / RELATIVE) as u8,
            metric: (since / METRIC % 4) as u8,
            reserved: (since / RESERVED % 32) as u8,
            value: since % RESERVED,
        }
    }
}

impl Since {
    // No reserved bit, one of the three metrics, and epochs that are well-formed.
    #[tactic(auto, unfolding(crate::specs::Since::well_formed, crate::specs::Since::in_epochs))]
    fn is_well_formed(self) -> bool
        ensures { result ≡ well_formed self }
    {
        self.reserved == 0
            && match self.metric {
                EPOCHS => Epoch::from(self.value).is_well_formed(),
                NO_METRIC => false,
                _ => true,
            }
    }

    // Whether the value of a wait is not above that of a since with its metric.
    #[tactic(auto, unfolding(crate::specs::Since::value_leb, crate::specs::Since::in_epochs))]
    fn value_leb(self, since: Since) -> bool
        ensures { result ≡ value_leb self since }
    {
        if self.metric == EPOCHS {
            Epoch::from(self.value).leb(Epoch::from(since.value))
        } else {
            self.value <= since.value
        }
    }

    // Whether a wait is over at a since: as relative as it, in its metric, and no lower.
    #[tactic(auto, unfolding(crate::specs::Since::reached))]
    fn is_reached(self, since: Since) -> bool
        ensures { result ≡ reached self since }
    {
        self.relative == since.relative && self.metric == since.metric && self.value_leb(since)
    }
}

// Whether the number is a since that says something.
pub fn is_well_formed(since: u64) -> bool
    ensures { result ≡ well_formed (since_fields since) }
{
    Since::from(since).is_well_formed()
}

// Whether a wait is over at a since.
pub fn is_reached(wait: u64, since: u64) -> bool
    ensures { result ≡ reached (since_fields wait) (since_fields since) }
{
    Since::from(wait).is_reached(Since::from(since))
}
