ghost use Rattle.std.specs.Prelude.{◌≡◌};
ghost use Rattle.board.specs.Events.{event_refusal, event_record, verdict, unless};

use crate::event::TaskEvent;
use crate::record::TaskRecord;
use jobs::TaskState;
use runs::Refusal;

impl TaskRecord {
    // The state of the job and the event together decide: the next state is
    // written, or the event is refused and nothing is.
    pub fn step(&mut self, event: TaskEvent, runs: bool) -> Result<(), Refusal>
        ensures told { result ≡ verdict (event_refusal self.old runs event) }
        ensures next { self.new ≡ unless (event_refusal self.old runs event) self.old (event_record self.old event) }
    {
        match (self.state, event) {
            (TaskState::Idle, TaskEvent::Arrive(code)) => {
                self.state = TaskState::Ready;
                self.code = code;
                Ok(())
            }
            (_, TaskEvent::Arrive(_)) => Err(Refusal::AlreadyPending),
            (TaskState::Idle, _) => Err(Refusal::NoJobPending),
            (TaskState::Waiting(_), _) => Err(Refusal::Waits),
            (TaskState::Ready, TaskEvent::Release) => Err(Refusal::HoldsNothing),
            _ if !runs => Err(Refusal::DoesNotRun),
            (TaskState::Holding(_), TaskEvent::Release) => {
                self.state = TaskState::Ready;
                Ok(())
            }
            (TaskState::Holding(_), _) => Err(Refusal::HoldsResource),
            (TaskState::Ready, TaskEvent::Finish) => {
                self.state = TaskState::Idle;
                Ok(())
            }
            (
                TaskState::Ready,
                TaskEvent::Request {
                    resource,
                    granted,
                    told,
                },
            ) => {
                self.serial = self.serial.checked_add(1).ok_or(Refusal::CountSpent)?;
                self.resource = resource.get();
                self.state = if granted {
                    TaskState::Holding(self.resource)
                } else {
                    TaskState::Waiting(self.resource)
                };
                self.told = told;
                self.blocked = 0;
                Ok(())
            }
        }
    }
}
