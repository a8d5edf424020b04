// The number of a refusal that a kind of book gives by its own rule.
// Assumes nothing.
ghost use Rattle.std.specs.Prelude.{◌≡◌, ◌<◌, MatchOption};

// A number from 1 to 255. No other number can be held, so no refusal has the number 0.
// No plainer as a NonZeroU8: definitions name the field `value`, which std's type does not show.
#[derive(Clone, Copy, PartialEq, Eq, Debug)]
pub struct RuleNumber {
    value: u8,
    ghost lawful: { 0 < value },
}

impl RuleNumber {
    // A rule's number, or none for 0.
    pub fn new(value: u8) -> Option<RuleNumber>
        ensures { MatchOption result (value ≡ 0) (λ n. n.value ≡ value) }
    {
        if value == 0 {
            return None;
        }
        Some(RuleNumber { value })
    }

    // The number itself.
    pub fn value(self) -> u8
        ensures { result ≡ self.value }
    {
        self.value
    }
}
