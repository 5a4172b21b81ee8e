// Lists of numbers that rise strictly.
ghost use Rattle.std.specs.Prelude.{◌≡◌};
ghost use Rattle.octets.specs.Lists.{is_rising};

// Whether each number is above the one before it.
#[tactic(auto, using(crate::proofs::RisingLaws::rising_turns))]
pub fn is_rising(numbers: &[u16]) -> bool
    ensures { result ≡ is_rising 0 numbers.now }
{
    let mut least: u32 = 0;
    for &number in numbers {
        let number = u32::from(number);
        if number < least {
            return false;
        }
        least = number + 1;
    }
    true
}
