use replay_rig::Rig;
use transcript::LineReason;

/// How a replay ended.
#[derive(Drop)]
pub enum Outcome {
    /// Each line was answered. The rig is as the last line left it; there is none for a script without lines.
    Done(Option<Rig>),
    /// The lines before this one, counted from 1, were answered.
    BadLine { number: u64, reason: LineReason },
    /// The source failed, and nothing was run.
    ReadFault,
    /// The sink failed, and took a front of the transcript.
    WriteFault,
    /// Memory ran out, and the sink took a front of the transcript.
    OutOfMemory,
}

/// How a churn ended.
#[derive(Drop)]
pub enum ChurnOutcome {
    /// The summary was written. The rig is as the last read left it.
    Done(Rig),
    /// The sink failed, and took a front of the summary.
    WriteFault,
    /// Memory ran out, and nothing was written.
    OutOfMemory,
}
