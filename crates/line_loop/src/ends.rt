//! How serving ends.

use rio_base::WordAt;

/// Why serving ended.
#[derive(Clone, Copy, Debug, PartialEq, Eq)]
pub enum ServeEnd {
    /// The input was read to its end.
    End,
    /// The source failed.
    SourceFault,
    /// The sink refused a reply.
    SinkFault,
    /// More input came than is taken.
    InputLimit,
    /// There was no memory for a line.
    Memory,
    /// The machine stopped.
    Stopped,
}

/// How serving lines on a machine ended.
#[derive(Clone, Copy, Debug, PartialEq, Eq)]
pub enum LinesEnd {
    /// As the loop of lines tells it. Where the machine stopped, no wild store trapped: the stop was one that it was given.
    Ended(ServeEnd),
    /// A wild store on this protected word trapped, which stopped the machine.
    Trapped(WordAt),
}
