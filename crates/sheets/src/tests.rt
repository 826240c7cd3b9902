// Tables of sheets and of what they print.
mod clock;
mod forms;
mod given;
mod runs;
