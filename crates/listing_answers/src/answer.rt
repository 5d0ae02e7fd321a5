//! A status and a text.

/// What the program answers: its exit status, and the text that it writes with it.
#[derive(Drop)]
pub struct Answer {
    /// 0, 5, 6 or 7.
    pub status: u8,
    /// The whole text.
    pub text: Vec<u8>,
}
