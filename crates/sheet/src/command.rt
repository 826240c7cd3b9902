// What a line of a sheet asks for.

#[derive(Clone, Copy, PartialEq, Eq, Debug)]
pub enum Command {
    // R: raise an event of a line
    Raise { line: u32, tag: u32 },
    // W: strobe the lines of a word
    Strobe { word: u16, tag: u32 },
    // M: replace the mask
    SetMask { word: u16 },
    // A: run ticks
    Advance { ticks: u32 },
}
