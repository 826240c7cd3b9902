// Playing a sheet to a text, and comparing it.
use board::Board;
use example::{board_k, monitors_k};
use monitor::Monitor;
use player::play_sheet;
use replies::Page;
use std::process::Abort;
use std::test::Fail;

// The text of a sheet on a new core.
pub fn played<M: Monitor + Drop>(
    rt: &impl AllocGlobal,
    board: Board,
    monitor: M,
    sheet: &[u8],
) -> Result<String, Fail> {
    let mut page = Page::new(String::new(rt.alloc()));
    play_sheet(board, monitor, sheet, &mut page).map_err(|_| Fail::new("the text was not taken"))?;
    Ok(page.into_inner())
}

// A sheet on board K gives a text.
pub fn gives(rt: &(impl Abort + AllocGlobal), sheet: &[u8], text: &str) -> Result<(), Fail> {
    let told = played(rt, board_k(), monitors_k(), sheet)?;
    assert_eq!(rt; told.as_str(), text);
    Ok(())
}

// Each sheet of a table gives its text.
pub fn each_gives(rt: &(impl Abort + AllocGlobal), table: &[(&[u8], &str)]) -> Result<(), Fail> {
    for (sheet, text) in table {
        gives(rt, sheet, text)?;
    }
    Ok(())
}
