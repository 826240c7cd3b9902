// A player: a sheet, and the desk that its lines are played on.
use crate::desk::Desk;
use monitor::Monitor;
use sheet::Sheet;

mod calls;

#[derive(Drop)]
pub struct Player<'a, M: Monitor> {
    desk: Desk<M>,
    sheet: Sheet<'a>,
}
