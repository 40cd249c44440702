ghost use Rattle.event_text.specs.Events.{deadline_event_of, fixed_event_of};

use crate::kind::EventKind;
use event_text::{TextFault, read_deadline_event, read_fixed_event};
use keys::{BandLevel, Deadline, Fixed};
use runs::Call;

impl EventKind for Deadline {
    ghost read = { deadline_event_of };

    fn read_event(line: &[u8]) -> Result<Call<u32>, TextFault> {
        read_deadline_event(line)
    }
}

// The two kinds differ in their reader alone, and that is what an impl is for.
impl EventKind for Fixed {
    ghost read = { fixed_event_of };

    fn read_event(line: &[u8]) -> Result<Call<BandLevel>, TextFault> {
        read_fixed_event(line)
    }
}
