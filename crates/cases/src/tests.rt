// Boards, settings, monitors, curves and bounds, at the ends of their ranges and in long lists.
mod asked;
mod boards;
mod bounds;
mod ceilings;
mod given;
mod settings;
mod sixteen;
