//! A mount with its device, as a core drives it.
use std::alloc::Global;
use vx_base::{Event, History, LineLists, Reply};
use vx_calls::Mount;
use vx_core::{Calls, Performed};
use vx_dev::{BlockDev, DevFault};

/// A mount, and the device that it works on.
pub struct Mounted<D> {
    pub dev: D,
    pub mount: Mount,
    /// The history has at most so many events.
    pub room: usize,
}

impl<D: BlockDev> Mounted<D> {
    ghost use Rattle.std.specs.Prelude.{◌≡◌};

    /// The device and the history, for whoever is done with the mount.
    pub fn into_parts(self) -> (D, History)
        ensures device { result.0 ≡ self.dev }
        ensures history { result.1 ≡ self.mount.kernel.history.items }
    {
        let Mounted {
            dev,
            mount,
            room: _,
        } = self;
        let kernel = mount.kernel;
        (dev, History::from_events(kernel.history))
    }
}

impl<D: BlockDev> Calls for Mounted<D> {
    ghost use Rattle.vx_calls.specs.Potentials.{owed, per_call};
    ghost use Rattle.vx_run.specs.Mounted.{view_of, Keeps, IsBuilt};

    ghost view = { λ m. view_of m.room m.mount (D.state m.dev) };

    ghost kept = { λ o m. Keeps o m.room m.mount (D.state m.dev) };

    ghost built = { IsBuilt };

    ghost owed = { λ m. owed m.mount };

    ghost per_call = { per_call };

    fn perform(
        &mut self,
        alloc: Global,
        lines: &mut LineLists,
        session: u8,
        answered: u32,
    ) -> Performed {
        match self
            .mount
            .perform(alloc, &mut self.dev, lines, session, answered)
        {
            vx_calls::Performed::Again => Performed::Again,
            vx_calls::Performed::Done {
                place,
                answer,
                commits,
            } => Performed::Done {
                place,
                answer,
                commits,
            },
        }
    }

    fn reach(&mut self, place: u64) -> Result<bool, DevFault> {
        self.mount.reach(&mut self.dev, place)
    }

    fn answer(&mut self, place: u64, answer: Reply) {
        self.mount.answer(&self.dev, place, answer);
    }

    fn stop(&mut self) {
        self.mount.stop(&self.dev);
    }

    fn leave(&mut self) -> Result<bool, DevFault> {
        self.mount.leave(&mut self.dev)
    }

    fn history(&self) -> &[Event] {
        self.mount.kernel.history.as_slice()
    }

    fn disabled(&self) -> Option<u64> {
        self.mount.disabled
    }

    fn has_ended(&self) -> bool {
        matches!(
            self.mount.kernel.history.last(),
            Some(Event::Stopped { .. } | Event::Unmounted { .. })
        )
    }
}
