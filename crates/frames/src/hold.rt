use super::MOST;

// The bytes of a frame, with zeros past them. A length past the end counts as the end.
// An array with a length, and no invariant in the type, for the reasons that stand at a message's drafts.
#[derive(Clone, Copy)]
pub struct Frame {
    pub(crate) bytes: [u8; MOST],
    pub(crate) len: usize,
}
