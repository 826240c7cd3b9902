// What can go wrong, told to a person: of its own, since it says whether the sheet or the replies failed, and nothing is refused.
use std::io;
use thiserror::Error;

#[derive(Debug, Drop, Error)]
pub enum Trouble {
    #[error("the sheet was not read: {0}")]
    Input(io::Error),
    #[error("the replies were not printed: {0}")]
    Output(io::Error),
    #[error("the replies were not printed")]
    Unwritten,
}
