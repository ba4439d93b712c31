//! What a try to receive comes to.

/// What a try to receive comes to.
#[derive(Debug, Drop)]
pub enum Tried<T> {
    Value(T),
    /// No value is there. At a moment of this call all was received that this end had sent in its segment, or had seen
    /// there. Or the end was behind the last segment, and nothing waited.
    Empty,
    /// A value is being sent, another end was first, or the lock is taken. Yield, and try again.
    Again,
}
