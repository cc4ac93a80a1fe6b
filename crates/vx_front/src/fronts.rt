//! The table of a mount's front and its callers' calls.
ghost use Rattle.std.specs.Prelude.{◌≡◌, ℕ, ◌+◌, ◌≤◌, ◌<◌, ◌++◌, ◌∷◌, [], length, IfOk, OnOk};
ghost use mathlib.Core.List.{IsPrefix};
ghost use Rattle.vx_front.specs.Views.{with_front, calls_by, known_of, new_kernel, new_caller, with_caller, with_fronts, with_entry, with_ended, with_read, with_begun, with_answer, kernel_note, caller_note, kernel_with_note, caller_with_note, new_seats};
ghost use Rattle.vx_front.specs.Steps.{CallerFacts, EndedFacts, KernelFacts, Agrees, IsIdle, IsAnswered};

use crate::seats::{CallerSeat, KernelSeat};
use crate::steps::{
    Begin, Close, EntryName, FrontRule, Look, NewCaller, NewNote, Open, Publish, Read, TakeIn,
};
use crate::views::View;
use atomic_table::Table;
use std::alloc::{AllocError, Global};
use std::marker::Model;

/// The front of a mount, and a count of each caller's calls. Contracts see which table it is.
#[derive(Drop)]
pub struct Fronts {
    table: Table<u64, View, (), FrontRule, Global>,
}

impl Model for Fronts {
    ghost use Rattle.std.specs.Prelude.{◌<◌, ◌≡◌};
    ghost use Rattle.atomic_table.specs.Seated.{TableId, table_id_coded};

    ghost Value = { TableId };

    ghost coded = { table_id_coded };

    ghost view = { λ f. f.table.shared.table_id };

    ghost invariant = { λ f. (0 < f.table.shared.table_id.words) × (f.table.shared.table_id.slots ≡ 0) };
}

impl Fronts {
    /// A table with the front 0, the kernel's seat, and the callers' seats in the order of their numbers.
    pub fn new(
        alloc: Global,
        callers: u32,
    ) -> Result<(Fronts, KernelSeat, Vec<CallerSeat>), AllocError>
        requires { (1 ≤ callers) × (callers ≤ 16) }
        ensures kernel { IfOk result (λ r. r.1 ≡ record { table = r.0; knows = new_kernel callers }) }
        ensures callers { IfOk result (λ r. r.2.items ≡ new_seats r.0 callers) }
    {
        let words = vec![in alloc; 0u64; callers as usize + 1]?;
        let (table, seat) = Table::of_words(alloc, words.as_slice(), &())?;
        let fronts = Fronts { table };
        let mut kernel = KernelSeat { seat };
        let seats = fronts.make_all(alloc, &mut kernel, callers)?;
        Ok((fronts, kernel, seats))
    }

    fn make_all(
        &self,
        alloc: Global,
        kernel: &mut KernelSeat,
        callers: u32,
    ) -> Result<Vec<CallerSeat>, AllocError>
        requires room { callers < self.now.words }
        requires kernel { kernel.old ≡ record { table = self.now; knows = new_kernel 0 } }
        ensures kernel { OnOk result (kernel.new ≡ record { table = self.now; knows = new_kernel callers }) }
        ensures callers { IfOk result (λ r. r.items ≡ new_seats self.now callers) }
    {
        let mut seats = Vec::new(alloc);
        for i in 0..callers {
            let seat = self.make(kernel, i + 1);
            seats.push(seat)?;
        }
        Ok(seats)
    }

    // The next caller's seat.
    fn make(&self, kernel: &mut KernelSeat, number: u32) -> CallerSeat
        requires table { kernel.old.table ≡ self.now }
        requires number { number ≡ kernel.old.knows.made + 1 }
        requires room { number < self.now.words }
        ensures kernel { kernel.new ≡ record { table = kernel.old.table; knows = with_caller kernel.old.knows } }
        ensures caller { result ≡ record { table = kernel.old.table; knows = new_caller (kernel.old.knows.made + 1) } }
    {
        let seat = self.table.shared.split_seat::<NewCaller>(&mut kernel.seat);
        CallerSeat { number, seat }
    }

    /// The front, without waiting.
    pub fn front(&self, caller: &mut CallerSeat) -> u64
        requires { caller.old.table ≡ self.now }
        ensures same { caller.new.table ≡ caller.old.table }
        ensures knows { caller.new.knows ≡ with_read caller.old.knows result }
        ensures rises { caller.old.knows.front ≤ result }
    {
        self.table.shared.load::<Read>(&mut caller.seat, 0)
    }

    /// Publishes a front, if it is greater than the last.
    pub fn publish(&self, kernel: &mut KernelSeat, front: u64)
        requires { kernel.old.table ≡ self.now }
        ensures same { kernel.new.table ≡ kernel.old.table }
        ensures knows { kernel.new.knows ≡ with_fronts kernel.old.knows (with_front kernel.old.knows.fronts front) }
    {
        self.table
            .shared
            .fetch_max::<Publish>(&mut kernel.seat, 0, front);
    }

    /// What the rule says of a caller's view.
    pub fn look(&self, caller: &mut CallerSeat)
        requires { caller.old.table ≡ self.now }
        ensures same { caller.new ≡ caller.old }
        ensures facts { CallerFacts caller.old.knows }
    {
        self.table.shared.load::<Look>(&mut caller.seat, 0);
    }

    /// What the rule says of the kernel's view.
    pub fn look_as_kernel(&self, kernel: &mut KernelSeat)
        requires { kernel.old.table ≡ self.now }
        ensures same { kernel.new ≡ kernel.old }
        ensures facts { KernelFacts kernel.old.knows }
    {
        self.table.shared.load::<Look>(&mut kernel.seat, 0);
    }

    // The caller learns the kernel's log and its last front.
    fn tell_caller(&self, kernel: &mut KernelSeat, caller: &mut CallerSeat)
        requires kernel { kernel.old.table ≡ self.now }
        requires caller { caller.old.table ≡ self.now }
        ensures kernel { kernel.new ≡ kernel.old }
        ensures same { caller.new.table ≡ caller.old.table }
        ensures knows { caller.new.knows ≡ caller_with_note caller.old.knows (kernel_note kernel.old.knows) }
    {
        let note = self.table.shared.split_seat::<NewNote>(&mut kernel.seat);
        self.table
            .shared
            .join_seat::<TakeIn>(&mut caller.seat, note);
    }

    // The kernel learns of the caller's calls.
    fn tell_kernel(&self, caller: &mut CallerSeat, kernel: &mut KernelSeat)
        requires kernel { kernel.old.table ≡ self.now }
        requires caller { caller.old.table ≡ self.now }
        ensures caller { caller.new ≡ caller.old }
        ensures same { kernel.new.table ≡ kernel.old.table }
        ensures knows { kernel.new.knows ≡ kernel_with_note kernel.old.knows (caller_note caller.old.knows) }
    {
        let note = self.table.shared.split_seat::<NewNote>(&mut caller.seat);
        self.table
            .shared
            .join_seat::<TakeIn>(&mut kernel.seat, note);
    }

    /// The kernel learns of the caller's calls, and the caller the log and the last front.
    pub fn meet(&self, kernel: &mut KernelSeat, caller: &mut CallerSeat)
        requires kernel { kernel.old.table ≡ self.now }
        requires caller { caller.old.table ≡ self.now }
        requires made { caller.old.knows.number ≤ kernel.old.knows.made }
        ensures tables { (kernel.new.table ≡ self.now) × (caller.new.table ≡ self.now) }
        ensures kernel { kernel.new.knows ≡ kernel_with_note kernel.old.knows (caller_note caller.old.knows) }
        ensures caller { caller.new.knows ≡ caller_with_note caller.old.knows (kernel_note kernel.old.knows) }
        ensures kernel_facts { KernelFacts kernel.new.knows }
        ensures caller_facts { CallerFacts caller.new.knows }
        ensures agree { Agrees kernel.new.knows caller.new.knows }
        ensures later { IsPrefix caller.old.knows.seen caller.new.knows.seen }

        // Of an idle caller the log has its answered calls and no others.
        ensures all { IsIdle caller.old.knows → calls_by caller.new.knows.number kernel.new.knows.log ≡ caller.new.knows.mine }
    {
        self.tell_kernel(caller, kernel);
        self.tell_caller(kernel, caller);
        self.look(caller);
        self.look_as_kernel(kernel);
    }

    /// The caller begins a call.
    pub fn begin_call(&self, caller: &mut CallerSeat)
        requires { caller.old.table ≡ self.now }
        ensures same { caller.new.table ≡ caller.old.table }
        ensures knows { caller.new.knows ≡ with_begun caller.old.knows }
    {
        self.table
            .shared
            .fetch_add::<Begin>(&mut caller.seat, caller.number as usize, 1);
    }

    /// The kernel's log gains the answered call that E names, of a caller that is known to have begun one more.
    pub fn open_call<E: EntryName>(&self, kernel: &mut KernelSeat, caller: u32)
        requires table { kernel.old.table ≡ self.now }
        requires caller { (E.entry.caller ≡ caller) × (caller ≤ kernel.old.knows.made) }
        requires begun { length (calls_by caller kernel.old.knows.log) < known_of kernel.old.knows caller }
        ensures same { kernel.new.table ≡ kernel.old.table }
        ensures knows { kernel.new.knows ≡ with_entry kernel.old.knows E.entry }
    {
        self.table
            .shared
            .fetch_add::<Open<E>>(&mut kernel.seat, caller as usize, 1);
    }

    /// The caller has its answer, which it has seen as the next of its calls in the log.
    pub fn close_call<E: EntryName>(&self, caller: &mut CallerSeat)
        requires table { caller.old.table ≡ self.now }
        requires seen { IsPrefix (caller.old.knows.mine ++ E.entry ∷ []) (calls_by caller.old.knows.number caller.old.knows.seen) }
        ensures same { caller.new.table ≡ caller.old.table }
        ensures knows { caller.new.knows ≡ with_answer caller.old.knows E.entry }
    {
        self.table
            .shared
            .fetch_add::<Close<E>>(&mut caller.seat, caller.number as usize, 1);
    }

    /// Counts the answered call that E names, once its front is published. The log has the call, and the caller its answer.
    pub fn answer_call<E: EntryName>(
        &self,
        kernel: &mut KernelSeat,
        caller: &mut CallerSeat,
        front: u64,
    )
        requires kernel { kernel.old.table ≡ self.now }
        requires caller { caller.old.table ≡ self.now }
        requires made { caller.old.knows.number ≤ kernel.old.knows.made }
        requires idle { IsIdle caller.old.knows }
        requires entry { E.entry.caller ≡ caller.old.knows.number }
        ensures tables { (kernel.new.table ≡ self.now) × (caller.new.table ≡ self.now) }
        ensures answered { IsAnswered E.entry front kernel.old.knows caller.old.knows kernel.new.knows caller.new.knows }
    {
        self.meet(kernel, caller);
        self.begin_call(caller);
        self.meet(kernel, caller);
        self.publish(kernel, front);
        self.open_call::<E>(kernel, caller.number());
        self.meet(kernel, caller);
        self.close_call::<E>(caller);
    }

    fn take_in(&self, kernel: &mut KernelSeat, caller: CallerSeat)
        requires kernel { kernel.old.table ≡ self.now }
        requires caller { caller.table ≡ self.now }
        ensures same { kernel.new.table ≡ kernel.old.table }
        ensures knows { kernel.new.knows ≡ with_ended kernel.old.knows caller.knows }
    {
        let CallerSeat { number: _, seat } = caller;
        self.table
            .shared
            .join_seat::<TakeIn>(&mut kernel.seat, seat);
    }

    /// The kernel takes in a caller that has ended. Of an idle one the log has its answered calls and no others.
    pub fn end_caller(&self, kernel: &mut KernelSeat, caller: CallerSeat)
        requires kernel { kernel.old.table ≡ self.now }
        requires caller { caller.table ≡ self.now }
        ensures same { kernel.new.table ≡ kernel.old.table }
        ensures knows { kernel.new.knows ≡ with_ended kernel.old.knows caller.knows }
        ensures facts { KernelFacts kernel.new.knows }
        ensures ended { EndedFacts kernel.new.knows caller.knows }
        ensures all { IsIdle caller.knows → calls_by caller.knows.number kernel.new.knows.log ≡ caller.knows.mine }
    {
        self.take_in(kernel, caller);
        self.look_as_kernel(kernel);
    }
}
