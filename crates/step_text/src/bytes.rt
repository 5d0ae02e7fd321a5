//! The storage of a run at its position, as texts read it.
ghost use Rattle.step_text.specs.Replies.{shared_bytes};

use report_text::SharedBytes;
use tx_step::Trace;

/// The storage that the CPUs of a run share, as the events behind its position leave it.
#[derive(Clone, Copy)]
pub struct TraceBytes<'a> {
    /// The run.
    pub trace: &'a Trace,
}

impl<'a> SharedBytes for TraceBytes<'a> {
    ghost bytes = { λ b. shared_bytes b.trace.now };

    fn byte(&self, address: u32) -> u8 {
        self.trace.byte(address)
    }
}
