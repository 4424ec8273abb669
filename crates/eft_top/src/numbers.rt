// The number of steps.
ghost use Rattle.std.specs.Prelude.{◌≡◌};
ghost use Rattle.eft_top.specs.Words.{steps_in as steps_in_word};

/// The greatest limit of steps.
const MOST_STEPS: u64 = 1_000_000_000_000;

/// The number that decimal digits give, from 1 to the greatest limit.
pub fn steps_in(word: &[u8]) -> Option<u64>
    ensures { result ≡ steps_in_word word.now }
{
    let mut steps = 0;
    for digit in word {
        if steps > MOST_STEPS {
            return None;
        }
        if !digit.is_ascii_digit() {
            return None;
        }
        steps = steps * 10 + u64::from(digit.saturating_sub(b'0'));
    }
    (1 <= steps && steps <= MOST_STEPS).then_some(steps)
}
