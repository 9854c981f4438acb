/// A read or a write failed: nothing was taken from the source, or nothing was appended to the sink.
#[derive(Clone, Copy, Debug, PartialEq, Eq)]
pub struct Failed;
