ghost use Rattle.std.specs.Prelude.{◌≡◌, ◌≤◌, map, length, IfOk, vec_capacity, MatchResult};
ghost use Rattle.std.specs.List.{range_with_len};
ghost use Rattle.reading.specs.Faults.{told};
ghost use Rattle.reading.specs.MachineSheets.{sheet_of, machine_fault};
ghost use Rattle.games.specs.Listings.{move_at, parked, listed_model, sheet_model};
ghost use Rattle.games.specs.SheetMachines.{machine_of};

use crate::sheet_machine::SheetMachine;
use reading::faults::ReadFault;
use reading::machine_sheet::{Frame, MachineSheet, Move};
use std::alloc::{AllocError, Global};

/// Replaces a list of labels, for which there is room.
fn copy_labels(labels: &mut Vec<u8>, source: &[u8])
    requires { length source.now ≤ vec_capacity labels.old }
    ensures items { labels.new.items ≡ source.now }
    ensures room { vec_capacity labels.old ≤ vec_capacity labels.new }
{
    labels.clear();
    labels.extend_from_slice(source).unwrap();
}

/// Replaces a list of moves, for which there is room.
fn copy_moves(moves: &mut Vec<Move>, sheet: &MachineSheet)
    requires { (sheet_of sheet.now).moves ≤ vec_capacity moves.old }
    ensures items { moves.new.items ≡ map (move_at (sheet_of sheet.now)) (range_with_len 0 (sheet_of sheet.now).moves) }
    ensures room { vec_capacity moves.old ≤ vec_capacity moves.new }
{
    moves.clear();
    // one line, for which there is room: `extend` would ask for some
    for i in 0..sheet.moves() {
        moves.push_reserved(sheet.entry(i));
    }
}

impl SheetMachine {
    /// The parked machine: one state, one signal each way, one move to itself, label 0.
    pub fn new(heap: Global) -> Result<SheetMachine, AllocError>
        ensures { IfOk result (λ x. machine_of x ≡ listed_model parked) }
    {
        let mut labels = Vec::with_capacity(heap, 256)?;
        labels.push_reserved(0);
        let mut moves = Vec::with_capacity(heap, 4096)?;
        moves.push_reserved(Move { key: 0, target: 0 });
        Ok(SheetMachine {
            frame: Frame::least(),
            labels,
            moves,
        })
    }

    /// Takes over the machine of a sheet; on a refusal it stays as it was.
    pub fn load(&mut self, bytes: &[u8]) -> Result<(), ReadFault>
        ensures first { told result ≡ machine_fault bytes.now }
        ensures value { MatchResult result (λ _. machine_of self.new ≡ sheet_model bytes.now) (λ _. self.new ≡ self.old) }
    {
        let sheet = MachineSheet::read(bytes)?;
        copy_labels(&mut self.labels, sheet.labels());
        copy_moves(&mut self.moves, &sheet);
        self.frame = sheet.frame();
        Ok(())
    }
}
