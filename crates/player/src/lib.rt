// Playing a sheet on a core: each line is read, carried out and answered, and what is done is a run of the core.
#![tactic(auto)]

mod desk;
mod player;
mod session;
mod stands;

pub use player::Player;
pub use session::play_sheet;
pub use stands::turns_have_one_answer;
