ghost use Rattle.std.specs.Prelude.{[], ◌∷◌};
ghost use Rattle.kernel.specs.Views.{noted, Plain};
ghost use Rattle.kernel.specs.Promises.{Took, Holds, GateFigure, Ran};

use crate::kernel::Kernel;
use keys::KeyKind;
use longest::longest_wait_stands;
use orders::Order;
use runs::{Accepted, Call, Refusal, guarantee_stands};

impl<O: Order, K: KeyKind> Kernel<O, K> {
    // Any call, by its kind.
    fn dispatch(&mut self, call: Call<K::Declared>) -> Result<Accepted, Refusal>
        ensures took { Took O.Order K.KeyKind self.old call result self.new }
        ensures plain { Plain call result }
    {
        let done = |()| Accepted {
            told: 0,
            next: None,
        };
        match call {
            Call::Arrive(task, declared) => self.arrive(task, declared).map(done),
            Call::Request(task, resource) => self
                .request(task, resource)
                .map(|told| Accepted { told, next: None }),
            Call::Release(task) => self.release(task).map(|next| Accepted { told: 0, next }),
            Call::Finish(task) => self.finish(task).map(done),
            Call::Tick => self.tick().map(done),
        }
    }

    // One call of the kernel. This is where every event goes in, and where the
    // guarantee over every run is stated: over any order of service and any kind
    // of key, for every checked start and every history that led here.
    pub fn handle(&mut self, call: Call<K::Declared>) -> Result<Accepted, Refusal>
        ensures took { Took O.Order K.KeyKind self.old call result self.new }
        ensures plain { Plain call result }
        ensures holds { Holds O.Order K.KeyKind self.old (noted call result ∷ []) self.new }
        ensures figure { GateFigure K.KeyKind }
    {
        guarantee_stands::<O, K>();
        longest_wait_stands::<K>();
        self.dispatch(call)
    }

    // Runs a whole list of calls, one after the other, and tells how many were
    // accepted. The promise is that of one call, for the list.
    pub fn run(&mut self, calls: &[Call<K::Declared>]) -> usize
        ensures ran { Ran O.Order K.KeyKind self.old calls.now result self.new }
        ensures figure { GateFigure K.KeyKind }
    {
        guarantee_stands::<O, K>();
        longest_wait_stands::<K>();
        let mut accepted = 0;
        for call in calls {
            if self.dispatch(*call).is_ok() {
                accepted += 1;
            }
        }
        accepted
    }
}
