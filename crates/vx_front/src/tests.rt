//! Two callers at a table: what each of them reads, before and after answered calls, and beside a kernel that publishes.
ghost use Rattle.std.specs.Prelude.{◌≡◌, ◌<◌, ◌^◌};

use super::*;
use std::test::Fail;
use std::thread::join;

struct FirstCall;

impl EntryName for FirstCall {
    ghost use Rattle.vx_front.specs.Views.{no_entry};

    ghost entry = { record no_entry { caller = 1 } };
}

#[test]
fn reads_what_was_published(rt: HostRuntime) -> Result<(), Fail> {
    let (fronts, mut kernel, mut seats) = Fronts::new(rt.alloc(), 2)?;
    let mut two = seats.pop().ok_or("no second seat")?;
    let mut one = seats.pop().ok_or("no first seat")?;
    assert_eq!(rt; one.number(), 1);
    assert_eq!(rt; two.number(), 2);
    assert_eq!(rt; fronts.front(&mut one), 0);
    fronts.publish(&mut kernel, 5);
    assert_eq!(rt; fronts.front(&mut one), 5);
    fronts.publish(&mut kernel, 3);
    assert_eq!(rt; fronts.front(&mut two), 5);
    fronts.answer_call::<FirstCall>(&mut kernel, &mut one, 8);
    fronts.answer_call::<FirstCall>(&mut kernel, &mut one, 0);
    assert_eq!(rt; fronts.front(&mut two), 8);
    assert_eq!(rt; fronts.front(&mut one), 8);
    fronts.end_caller(&mut kernel, one);
    Ok(())
}

// Publishes the numbers below n, in their order.
fn publish_below(fronts: &Fronts, mut kernel: KernelSeat, n: u64)
    requires { kernel.table ≡ fronts.now }
{
    for front in 0..n {
        fronts.publish(&mut kernel, front);
    }
}

// Reads n times, and answers the last front.
fn read_often(fronts: &Fronts, mut caller: CallerSeat, n: u64) -> u64
    requires { caller.table ≡ fronts.now }
{
    let mut last = 0;
    for _ in 0..n {
        last = fronts.front(&mut caller);
    }
    last
}

#[test]
fn reads_beside_the_kernel(rt: HostRuntime) -> Result<(), Fail> {
    let (fronts, kernel, mut seats) = Fronts::new(rt.alloc(), 2)?;
    let mut two = seats.pop().ok_or("no second seat")?;
    let one = seats.pop().ok_or("no first seat")?;
    let shared = &fronts;
    let (last, ()) = join(
        &rt,
        || -> u64
            requires { one.table ≡ shared.now }
        { read_often(shared, one, 1000) },
        || -> ()
            requires { kernel.table ≡ shared.now }
        { publish_below(shared, kernel, 1000) },
    );
    assert!(rt; last < 1000);
    assert_eq!(rt; fronts.front(&mut two), 999);
    Ok(())
}
