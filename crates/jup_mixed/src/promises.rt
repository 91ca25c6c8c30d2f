//! What every star with one site and strangers keeps, whatever they send.

ghost use Rattle.std.specs.Prelude.{List};
ghost use Rattle.jup_batch.specs.Boards.{board_batches};
ghost use Rattle.jup_mixed.specs.Mixed.{mix_outcome, mix_run, MixPromises, MixReplies, OnlyFull, MixOrderIsKept, MixOrdersAgree, BoardMix, BoardMixEvent, IsMixed};

/// After any list of edits of site 1, deliveries to it and from it, and joins, messages and departures of
/// strangers:
///
/// - the star shows the meaning of its order, and the site that of what has reached it and of what it made.
///   Whenever no message is on its way to the site or from it, its board is the star's, and the order has
///   each of its edits once;
/// - whatever event comes next is answered, and nothing is withheld. A stranger's message leaves site 1 as it
///   is. It is an acknowledgement, a ping, or one valid entry of the order under its link's next name, or it is
///   refused and the link goes;
/// - the site is detached by a full order alone;
/// - whatever events come next, the star and the site keep the order of their items;
/// - at every moment, also while messages are on their way, the star and the site show in the same order the
///   items that both show. The two may be of one moment or of two.
///
/// It does nothing: its contract is the theorem.
pub fn mixed_agree()
    ensures kept { (m : BoardMix) → IsMixed m → MixPromises board_batches m }
    ensures replies { (m : BoardMix) → IsMixed m → (event : BoardMixEvent)
        → MixReplies board_batches m event (mix_outcome board_batches m event) }
    ensures detached { (m : BoardMix) → IsMixed m → OnlyFull board_batches m }
    ensures order { (m : BoardMix) → IsMixed m → (events : List BoardMixEvent)
        → MixOrderIsKept board_batches m (mix_run board_batches m events) }
    ensures copies { (m : BoardMix) → IsMixed m → (events : List BoardMixEvent)
        → MixOrdersAgree board_batches m (mix_run board_batches m events) }
{}
