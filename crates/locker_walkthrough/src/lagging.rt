//! A cloud that lags.

pub mod calls;

/// An unsound cloud: it acknowledges whatever is put, and gives the first offset that was ever put, under every name.
#[derive(Clone, Copy)]
pub struct LaggingCloud {
    first: Option<[u8; 3]>,
}

impl LaggingCloud {
    pub(super) fn new() -> LaggingCloud {
        LaggingCloud { first: None }
    }
}
