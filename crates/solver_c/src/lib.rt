//! The solver for programs that are not Rattle: `bench/` calls it.

#![tactic(auto)]

mod answer;
mod bits;

use answer::{Sheets, answer};
use std::alloc::Global;

/// From here on an answer is a refusal.
const REFUSED: u32 = 65_536;

/// The numbers of a question; `bench/src/rattle.rs` has the same struct.
#[repr(C)]
#[derive(Clone, Copy)]
pub struct Ask {
    pub promise0: u32,
    pub reliance0: u32,
    pub promise1: u32,
    pub reliance1: u32,
    /// How often to solve, from one loading.
    pub times: u32,
    /// Of which kind the machine is: 0 a sheet, 1 a lift, any other bits.
    pub machine: u8,
    /// What stands over it: 0 marks, any other a rule.
    pub layer: u8,
    pub side: u8,
}

/// Solves a side of a bay into the buffer: the bound, or 65,536 and the refusal's number, which is 0 where there is no memory.
#[unsafe(no_mangle)]
pub extern "C" fn solver_c_solve(
    heap: Global,
    ask: &Ask,
    machine: &[u8],
    layer: &[u8],
    table: &[u8],
    buffer: &mut [u8],
) -> u32 {
    let sheets = Sheets {
        machine,
        layer,
        table,
    };
    match answer(heap, ask, &sheets, buffer) {
        Ok(bound) => u32::from(bound),
        Err(number) => REFUSED + u32::from(number),
    }
}
