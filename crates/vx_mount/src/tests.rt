use crate::{Turn, Turns, drive, unmount};
use std::test::Fail;

/// One session with one line: nothing is done yet, or the line is answered, or the run is unmounted too.
#[derive(Drop)]
struct Single {
    unmounted: Option<bool>,
}

impl Turns for Single {
    ghost use Rattle.vx_mount.specs.Singles.{view_of, work_of};

    ghost view = { λ s. view_of s.unmounted };

    ghost work = { λ s. work_of s.unmounted };

    ghost sound = { λ s. Unit {0} };

    ghost kept = { λ o s. Unit {0} };

    fn sessions(&self) -> u8 {
        1
    }

    fn turn(&mut self, _actor: u8) -> Turn {
        match self.unmounted {
            None => {
                self.unmounted = Some(false);
                Turn::Turned
            }
            Some(_) => Turn::Finished,
        }
    }

    fn unmount_turn(&mut self) -> Turn {
        match self.unmounted {
            None => Turn::Finished,
            Some(unmounted) => {
                if unmounted {
                    return Turn::Finished;
                }
                self.unmounted = Some(true);
                Turn::Turned
            }
        }
    }

    fn facts(&self) {}
}

#[test]
fn drives_and_unmounts(rt: HostRuntime) -> Result<(), Fail> {
    let mut core = Single { unmounted: None };
    drive(&mut core, &[0, 0]);
    assert_eq!(rt; core.unmounted, Some(false));
    unmount(&mut core);
    assert_eq!(rt; core.unmounted, Some(true));
    Ok(())
}
