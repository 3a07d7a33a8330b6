//! Lines that are requests.
ghost use Rattle.forms.specs.Buffers.{IsReplyLine};

use crate::answers_lines::AnswersLines;
use crate::piece_lines::{LONGEST, push_reply};
use crate::streams::{Failed, Sink};
use crate::waiting::{Batch, make_room};

/// Answers requests.
#[derive(Clone, Copy, Debug, PartialEq, Eq)]
pub struct Requests;

impl AnswersLines for Requests {
    type Batch = Batch;

    ghost says = { λ _ line out _. IsReplyLine out line };

    #[inline(always)]
    fn answer<K: Sink>(
        &mut self,
        sink: &mut K,
        batch: &mut Batch,
        line: &[u8],
    ) -> Result<(), Failed> {
        make_room(sink, batch, LONGEST)?;
        push_reply(batch, line);
        Ok(())
    }
}
