//! What links, stars and worlds may rest on of batches, in one line.
ghost use Rattle.jup_window.specs.Operations.{AreLawful};
ghost use Rattle.jup_batch.specs.Boards.{board_batches};

/// Batches of operations on boards have every law that a star and its sites rest on.
pub fn batches_are_lawful()
    ensures { AreLawful board_batches }
{}
