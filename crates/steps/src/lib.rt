// The scaler's arithmetic: the vertical part, the pixel clock, and the window on the monitor.
// Leaves for other crates: some ask what the tests before them have shown.
#![tactic(auto)]

pub mod clock;
pub mod standard;
pub mod vertical;
pub mod window;
