ghost use Rattle.sheet_run.specs.Board.{Board};

// The definitions compute on the board of three belts: its nodes, its wires and its events in two rows.
fn board_computes()
    ensures { Board }
{}
