//! What the program calls itself.

/// The program, and what it was proved with: the sum of the logic, which `rt version` prints too.
pub const PROGRAM: &str = "seatmelon 0.1.0, proved with Rattle, logic dac8208d650f15bf";
