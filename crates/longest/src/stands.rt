ghost use Rattle.longest.specs.Longest.{LongestWait, FreshGate, ReachOfGate, ToldOfGate};

use first_come::FirstCome;
use gate::Gate;
use keys::KeyKind;
use runs::guarantee_stands;

// The gate over first-come, for m cores, m from 1 to 16. Every run of one list of
// calls, with any declaration in range, ends with task m - 1 holding after 2m - 1
// blocked ticks, where no hold is longer than a tick. Check accepts the gate as
// it is made. And 2m - 1 is the reach of whatever such gate check accepts, so no
// count told is above it. That there is a run of these calls is shown by running
// them, not here.
pub fn longest_wait_stands<K: KeyKind>()
    ensures longest { LongestWait K.KeyKind }
    ensures fresh { FreshGate K.KeyKind }
    ensures reach { ReachOfGate K.KeyKind }
    ensures told { ToldOfGate K.KeyKind }
{
    guarantee_stands::<Gate<FirstCome>, K>();
}
