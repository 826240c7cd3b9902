// A core: its monitor, and in tables its board, the instant, the work owed, the grant and the queues.
use crate::tables::Tables;
use monitor::Monitor;

mod calls;
mod strobing;

#[derive(Drop)]
pub struct Core<M: Monitor> {
    monitor: M,
    tables: Tables,
}
