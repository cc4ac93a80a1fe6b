//! What the kernel and the callers step with.
ghost use Rattle.std.specs.Prelude.{◌≡◌};

use crate::views::View;
use atomic_table::Seat;
use std::marker::Model;

/// What the kernel steps with.
#[derive(Drop)]
pub struct KernelSeat {
    pub(crate) seat: Seat<u64, View>,
}

impl Model for KernelSeat {
    ghost use Rattle.std.specs.Prelude.{◌≡◌, ◌<◌, []};
    ghost use Rattle.vx_front.specs.declared.views.View.TheVariants.{Kernel};
    ghost use Rattle.vx_front.specs.Views.{KernelState};
    ghost use Rattle.vx_front.specs.Steps.{kernel_in};

    ghost Value = { KernelState };

    ghost view = { λ s. record { table = s.seat.table_id; knows = kernel_in s.seat.me.0 } };

    ghost invariant = { λ s. (s.seat.me ≡ (Kernel (kernel_in s.seat.me.0), [])) × ((kernel_in s.seat.me.0).made < s.seat.table_id.words) };
}

/// What one caller steps with.
#[derive(Drop)]
pub struct CallerSeat {
    pub(crate) number: u32,
    pub(crate) seat: Seat<u64, View>,
}

impl Model for CallerSeat {
    ghost use Rattle.std.specs.Prelude.{◌≡◌, ◌<◌, []};
    ghost use Rattle.vx_front.specs.declared.views.View.TheVariants.{Caller};
    ghost use Rattle.vx_front.specs.Views.{CallerState};
    ghost use Rattle.vx_front.specs.Steps.{caller_in};

    ghost Value = { CallerState };

    ghost view = { λ s. record { table = s.seat.table_id; knows = caller_in s.seat.me.0 } };

    ghost invariant = { λ s. (s.seat.me ≡ (Caller (caller_in s.seat.me.0), [])) × (s.number ≡ (caller_in s.seat.me.0).number) × (0 < s.number) × (s.number < s.seat.table_id.words) };
}

impl CallerSeat {
    /// The caller's number, from 1.
    pub fn number(&self) -> u32
        ensures { result ≡ self.now.knows.number }
    {
        self.number
    }
}
