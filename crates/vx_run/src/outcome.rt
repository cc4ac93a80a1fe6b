//! What a run comes to, before its output.
use vx_base::Event;
use vx_script::StartRefusal;

#[derive(Drop)]
pub enum Outcome {
    Refused(StartRefusal),
    Finished {
        /// A write or barrier of the device failed.
        disabled: bool,
        history: Vec<Event>,
    },
}
