//! The intent log.
ghost use Rattle.std.specs.Prelude.{◌≡◌, ◌⊎◌, ◌+◌, ◌-◌, ◌*◌, ◌<◌, ◌≤◌, ◌^◌, ◌&&◌, [], Some, None, true, false, IsTrue, IsSome, IsNone, OnOk, OnErr, IfOk, length, All, option_map, option_copied, is_some, if◌then◌else◌, filter, nat_le, vec_capacity};
ghost use Rattle.vx_base.specs.Faults.{HasCause};
ghost use Rattle.vx_dev.specs.Tape.{Did, Failed};
ghost use Rattle.vx_dev.specs.declared.device.Operation.TheVariants.{Put};
ghost use Rattle.vx_layout.specs.LogForms as forms;
ghost use Rattle.vx_layout.specs.LogForms.{IsHomeSector};
ghost use Rattle.vx_dev.specs.Runs.{Ran, BrokeOff, puts};
ghost use Rattle.vx_log.specs.Ends.{IsEnds, standing_log};
ghost use Rattle.vx_log.specs.Logs.{LogView, IsLog, AreStarts, IsBoundary, next_serial, fresh_log, closed, closing_length, with_start, stage_writes, after_stage, is_body_out, opened, advanced, restarted, has_spare};

use crate::batch::Batch;
use crate::body::log_length;
use crate::head::head_sector;
use crate::read::Ends;
use crate::stage::put_body;
use std::alloc::{AllocError, Global};
use std::marker::Model;
use vx_dev::{BlockDev, DevFault};

/// The sector of the device that holds the head sector.
const HEAD_SECTOR: u64 = 2;

/// The most sectors that a stage writes.
const STAGE_SECTORS: u32 = 8;

/// A batch that is being written, and how many of its log sectors are.
#[derive(Drop)]
pub struct Closing {
    batch: Batch,
    written: u32,
}

/// The intent log of a device. It keeps what the head sector says and where the batches between tail
/// and head begin; the batches themselves are on the device alone.
#[derive(Drop)]
pub struct Log {
    sectors: u32,
    serial: u64,
    tail: u64,
    head: u64,
    starts: Vec<u64>,
    closing: Option<Closing>,
    spare: Option<Batch>,
}

impl Model for Log {
    ghost use Rattle.std.specs.Prelude.{◌≡◌, ◌*◌, ◌≤◌, [], IfSome, is_some, vec_capacity};
    ghost use Rattle.vx_log.specs.Logs.{LogView, IsLog};

    ghost Value = { LogView };

    ghost view = { λ l. record { sectors = l.sectors; serial = l.serial; tail = l.tail; head = l.head; starts = l.starts.items; closing = l.closing; spare = is_some l.spare } };

    ghost invariant = { λ l. IsLog (record { sectors = l.sectors; serial = l.serial; tail = l.tail; head = l.head; starts = l.starts.items; closing = l.closing; spare = is_some l.spare })
        × (l.sectors ≤ 2 * vec_capacity l.starts) × IfSome l.spare (λ batch. batch ≡ []) };
}

impl Log {
    /// The empty log of a new image. It takes all the memory that it ever needs.
    pub fn fresh(alloc: Global, log_blocks: u32) -> Result<Log, AllocError>
        requires low { 256 ≤ log_blocks }
        requires high { log_blocks ≤ 2048 }
        ensures { IfOk result (λ log. log ≡ fresh_log (2 * log_blocks)) }
    {
        let starts = Vec::with_capacity(alloc, log_blocks as usize)?;
        Ok(Log {
            sectors: 2 * log_blocks,
            serial: 1,
            tail: 0,
            head: 0,
            starts,
            closing: None,
            spare: None,
        })
    }

    /// The log whose head sector says this, with batches that begin at these positions. `starts` is all the memory that it ever needs.
    pub fn standing(log_blocks: u32, ends: Ends, starts: Vec<u64>) -> Log
        requires low { 256 ≤ log_blocks }
        requires high { log_blocks ≤ 2048 }
        requires ends { IsEnds (2 * log_blocks) ends }
        requires starts { AreStarts ends.tail starts.items ends.head }
        requires room { log_blocks ≤ vec_capacity starts }
        ensures { result ≡ standing_log (2 * log_blocks) ends starts.items }
    {
        Log {
            sectors: 2 * log_blocks,
            serial: ends.serial,
            tail: ends.tail,
            head: ends.head,
            starts,
            closing: None,
            spare: None,
        }
    }

    /// The position at which the live part of the log begins.
    pub fn tail(&self) -> u64
        ensures { result ≡ self.now.tail }
    {
        self.tail
    }

    /// The position before which the live part of the log ends.
    pub fn head(&self) -> u64
        ensures number { result ≡ self.now.head }
        ensures log { IsLog self.now }
    {
        self.head
    }

    /// The number of head sectors written so far on the image, modulo 2^64.
    pub fn serial(&self) -> u64
        ensures { result ≡ self.now.serial }
    {
        self.serial
    }

    /// The free sectors of the log.
    pub fn room(&self) -> u32
        ensures number { result ≡ self.now.sectors - (self.now.head - self.now.tail) }
        ensures log { IsLog self.now }
    {
        self.sectors - (self.head - self.tail) as u32
    }

    /// The batch that is being written, if there is one.
    pub fn closing(&self) -> Option<&Batch>
        ensures { option_copied result ≡ option_map (λ c. c.batch) self.now.closing }
    {
        self.closing.as_ref().map(|c| &c.batch)
    }

    /// Hands back the emptied room of the batch that was written last, once, and not while another
    /// batch is being written.
    pub fn take_back(&mut self) -> Option<Batch>
        ensures batch { result ≡ (if has_spare self.old then Some [] else None) }
        ensures left { self.new ≡ record self.old { spare = self.old.spare && is_some self.old.closing } }
    {
        if self.closing.is_some() {
            None
        } else {
            self.spare.take()
        }
    }

    /// Begins to write a batch.
    pub fn close_batch(&mut self, batch: Batch)
        requires free { IsNone self.old.closing }
        requires homes { All (λ e. IsHomeSector self.old.sectors e.0) batch }
        requires room { self.old.head + forms.log_length (length batch) ≤ self.old.tail + self.old.sectors }
        requires limit { self.old.head + forms.log_length (length batch) ≤ 2 ^ 62 }
        ensures { self.new ≡ closed self.old batch }
    {
        let _short = batch.len();
        self.closing = Some(Closing { batch, written: 0 });
    }

    /// Writes up to eight more of the batch's log sectors, and answers whether all are written. After
    /// a fault the stage counts as not begun.
    pub fn put_next<D: BlockDev>(&mut self, dev: &mut D) -> Result<bool, DevFault>
        requires closing { IsSome self.old.closing }
        requires area { 4 + self.old.sectors ≤ (D.state dev.old).size }
        ensures ok { OnOk result (Ran (puts (stage_writes self.old.sectors self.old.head self.old.closing)) (D.state dev.old) (D.state dev.new)) }
        ensures certain { OnOk result ((D.state dev.new).doubt ≡ (D.state dev.old).doubt) }
        ensures stage { OnOk result (self.new ≡ record self.old { closing = after_stage self.old.closing }) }
        ensures out { IfOk result (λ out. out ≡ is_body_out self.new.closing) }
        ensures err { OnErr result (BrokeOff (stage_writes self.old.sectors self.old.head self.old.closing) (D.state dev.old) (D.state dev.new)) }
        ensures same { OnErr result (self.new ≡ self.old) }
        ensures size { (D.state dev.new).size ≡ (D.state dev.old).size }
        ensures reads { (D.state dev.new).read_faults ≡ (D.state dev.old).read_faults }
        ensures cause { HasCause (D.state dev.old).write_faults (D.state dev.new).write_faults result }
    {
        let Some(closing) = &self.closing else {
            unreachable!()
        };
        let length = log_length(closing.batch.len());
        let end = length.min(closing.written + STAGE_SECTORS);
        put_body(
            dev,
            self.sectors,
            self.head,
            closing.batch.entries(),
            closing.written,
            end,
        )?;
        set_written(&mut self.closing, end);
        Ok(end == length)
    }

    /// Writes the head sector with the batch that is being written, whose log sectors a barrier has
    /// passed behind. After a fault the log is as before, and the head sector may be written or not.
    pub fn open_gate<D: BlockDev>(&mut self, dev: &mut D) -> Result<(), DevFault>
        requires out { IsTrue (is_body_out self.old.closing) }
        requires area { 4 + self.old.sectors ≤ (D.state dev.old).size }
        ensures put { OnOk result (Did (Put 2 (forms.head_sector (next_serial self.old.serial) self.old.tail (self.old.head + closing_length self.old.closing))) (D.state dev.old) (D.state dev.new)) }
        ensures certain { OnOk result ((D.state dev.new).doubt ≡ (D.state dev.old).doubt) }
        ensures opened { OnOk result (self.new ≡ opened self.old) }
        ensures failed { OnErr result (Failed 2 (forms.head_sector (next_serial self.old.serial) self.old.tail (self.old.head + closing_length self.old.closing)) (D.state dev.old) (D.state dev.new)) }
        ensures same { OnErr result (self.new ≡ self.old) }
        ensures size { (D.state dev.new).size ≡ (D.state dev.old).size }
        ensures reads { (D.state dev.new).read_faults ≡ (D.state dev.old).read_faults }
        ensures cause { HasCause (D.state dev.old).write_faults (D.state dev.new).write_faults result }
    {
        let Some(closing) = &self.closing else {
            unreachable!()
        };
        let serial = self.serial.wrapping_add(1);
        let length = log_length(closing.batch.len());
        let head = self.head + u64::from(length);
        dev.write(HEAD_SECTOR, &head_sector(serial, self.tail, head))?;
        note_start(&mut self.starts, self.head, length);
        self.serial = serial;
        self.head = head;
        self.spare = emptied(self.closing.take());
        Ok(())
    }

    /// Writes the head sector with this tail, below which every home is stable. After a fault the log
    /// is as before, and the head sector may be written or not.
    pub fn advance_tail<D: BlockDev>(&mut self, dev: &mut D, to: u64) -> Result<(), DevFault>
        requires free { IsNone self.old.closing }
        requires boundary { IsBoundary self.old to }
        requires area { 4 + self.old.sectors ≤ (D.state dev.old).size }
        ensures put { OnOk result (Did (Put 2 (forms.head_sector (next_serial self.old.serial) to self.old.head)) (D.state dev.old) (D.state dev.new)) }
        ensures certain { OnOk result ((D.state dev.new).doubt ≡ (D.state dev.old).doubt) }
        ensures advanced { OnOk result (self.new ≡ advanced self.old to) }
        ensures failed { OnErr result (Failed 2 (forms.head_sector (next_serial self.old.serial) to self.old.head) (D.state dev.old) (D.state dev.new)) }
        ensures same { OnErr result (self.new ≡ self.old) }
        ensures size { (D.state dev.new).size ≡ (D.state dev.old).size }
        ensures reads { (D.state dev.new).read_faults ≡ (D.state dev.old).read_faults }
        ensures cause { HasCause (D.state dev.old).write_faults (D.state dev.new).write_faults result }
    {
        let serial = self.serial.wrapping_add(1);
        dev.write(HEAD_SECTOR, &head_sector(serial, to, self.head))?;
        self.serial = serial;
        self.tail = to;
        drop_below(&mut self.starts, to);
        Ok(())
    }

    /// Writes the head sector of an empty log whose positions begin at 0 again, where every home is
    /// stable. After a fault the log is as before, and the head sector may be written or not.
    pub fn restart<D: BlockDev>(&mut self, dev: &mut D) -> Result<(), DevFault>
        requires free { IsNone self.old.closing }
        requires area { 4 + self.old.sectors ≤ (D.state dev.old).size }
        ensures put { OnOk result (Did (Put 2 (forms.head_sector (next_serial self.old.serial) 0 0)) (D.state dev.old) (D.state dev.new)) }
        ensures certain { OnOk result ((D.state dev.new).doubt ≡ (D.state dev.old).doubt) }
        ensures restarted { OnOk result (self.new ≡ restarted self.old) }
        ensures failed { OnErr result (Failed 2 (forms.head_sector (next_serial self.old.serial) 0 0) (D.state dev.old) (D.state dev.new)) }
        ensures same { OnErr result (self.new ≡ self.old) }
        ensures size { (D.state dev.new).size ≡ (D.state dev.old).size }
        ensures reads { (D.state dev.new).read_faults ≡ (D.state dev.old).read_faults }
        ensures cause { HasCause (D.state dev.old).write_faults (D.state dev.new).write_faults result }
    {
        let serial = self.serial.wrapping_add(1);
        dev.write(HEAD_SECTOR, &head_sector(serial, 0, 0))?;
        self.serial = serial;
        self.tail = 0;
        self.head = 0;
        self.starts.clear();
        Ok(())
    }
}

/// Notes where a batch of so many log sectors begins, if it has any.
fn note_start(starts: &mut Vec<u64>, at: u64, sectors: u32)
    requires { 0 < sectors → length starts.old.items < vec_capacity starts.old }
    ensures items { starts.new.items ≡ with_start starts.old.items at sectors }
    ensures capacity { vec_capacity starts.old ≤ vec_capacity starts.new }
{
    if sectors == 0 {
        return;
    }
    match starts.push(at) {
        Ok(()) => {}
        Err(_) => unreachable!(),
    }
}

/// Takes the positions below this one out.
fn drop_below(starts: &mut Vec<u64>, to: u64)
    ensures items { starts.new.items ≡ filter (λ start. nat_le to start) starts.old.items }
    ensures capacity { vec_capacity starts.new ≡ vec_capacity starts.old }
{
    starts.retain(|start| *start >= to);
}

/// Notes how many of the batch's log sectors are written.
fn set_written(closing: &mut Option<Closing>, written: u32)
    ensures { closing.new ≡ option_map (λ c. record { batch = c.batch; written = written }) closing.old }
{
    if let Some(closing) = closing {
        closing.written = written;
    }
}

/// The batch with no sector left in it.
fn emptied(closing: Option<Closing>) -> Option<Batch>
    ensures { result ≡ option_map (λ _. []) closing }
{
    match closing {
        None => None,
        Some(closing) => {
            let mut batch = closing.batch;
            batch.clear();
            Some(batch)
        }
    }
}
