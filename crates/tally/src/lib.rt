// The tally call: the counts of one reading added to a tally.

#![tactic(auto)]

ghost use Rattle.std.specs.Prelude.{◌≡◌, true, false, MatchOption};
ghost use Rattle.code.specs.Tallies.{added, full, tallied};

use code::{Counts, Refusal, Tally};

// The tally with the counts added; none where one of its four counts would pass the largest number of 32 bits.
fn sum(t: Tally, n: Counts) -> Option<Tally>
    ensures { MatchOption result (full t n ≡ true) (λ u. (full t n ≡ false) × (u ≡ added t n)) }
{
    Some(Tally {
        strands: t.strands.checked_add(1)?,
        counts: Counts {
            clean: t.counts.clean.checked_add(n.clean)?,
            corrected: t.counts.corrected.checked_add(n.corrected)?,
            lost: t.counts.lost.checked_add(n.lost)?,
        },
    })
}

// Adds the three counts of one reading to a tally, and one strand, and answers the new tally.
// Turned down: 7 one of the tally's four counts would pass 4,294,967,295; then none of them is changed.
pub fn add(t: Tally, n: Counts) -> Result<Tally, Refusal>
    ensures { result ≡ tallied t n }
{
    sum(t, n).ok_or(Refusal::TallyFull)
}
