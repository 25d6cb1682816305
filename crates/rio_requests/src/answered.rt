//! What a request comes to.

use crate::reply::Reply;
use rio_model::State;

/// What a request comes to.
#[derive(Debug, Drop)]
pub struct Answered {
    /// The state after it.
    pub next: State,
    /// The reply. A wild store on a protected word has none.
    pub reply: Option<Reply>,
}
