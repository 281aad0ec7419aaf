/// What came of the bytes that are held.
#[derive(Clone, Copy, Debug, PartialEq, Eq)]
pub(crate) enum Step {
    /// A request was answered.
    Answered,
    /// All of them are with the pipe, which lacks some of its request.
    Lacks,
    /// No request begins at this place of the input, in bytes.
    Refused(u64),
}
